// Index values read out of a body.
ghost use Rattle.std.specs.Prelude.{◌≡◌, ◌+◌, ◌-◌, ◌^◌, ◌<◌, true, length, take, replicate, ◌++◌, None};
ghost use Rattle.layout.specs.Places.{first_bad};
ghost use Rattle.codes_times.specs.Times.{code_right};
ghost use Rattle.derivatives_index.specs.Index.{index_reading, no_index, cells_of, body_length, room};

use crate::index::{Index, IndexReading, empty};
use crate::rules::{is_known, is_length, is_status, is_time, number_of, version_of};
use amounts::Thousandths;
use answers::{Answer, Frame};
use codes_times::code_right;
use derivatives_frame::head::Head;
use layout::places::first_bad_from;
use words::blocks::eight_at;

// A refusal of a body of n bytes, with the empty index value.
fn refused(number: u8, n: usize) -> IndexReading
    requires { n < 2 ^ 63 }
    ensures { (result.answer ≡ Answer.Refused number (17 + n) None) × (result.index ≡ no_index) }
{
    let index = empty();
    let length = 17 + n;
    IndexReading {
        answer: Answer::Refused(number, length, None),
        index,
    }
}

// Where the first bad digit of a body is, in halves from the frame's first byte.
fn place_in(body: &[u8]) -> Option<u32>
    requires { body_length (length body.now) ≡ true }
    ensures { result ≡ first_bad (cells_of body.now) 28 body.now }
{
    if body.len() == 12 {
        let cells = [0u8, 0, 0, 8, 8, 0];
        return first_bad_from(&cells, body, 28);
    }
    let cells = [0u8, 0, 0, 0, 0, 0, 0, 0, 8, 8, 0];
    first_bad_from(&cells, body, 28)
}

// The contract of a body, with zeros behind a short one.
fn contract_in(body: &[u8]) -> [u8; 8]
    requires { body_length (length body.now) ≡ true }
    ensures { result ≡ take (length body.now - 9) body.now ++ replicate (room - (length body.now - 9)) 0 }
{
    if body.len() == 12 {
        return [body[0], body[1], body[2], 0, 0, 0, 0, 0];
    }
    [
        body[0], body[1], body[2], body[3], body[4], body[5], body[6], body[7],
    ]
}

// Every byte of a body's contract is 32 to 126; of a short one and of a long one apart, so that no byte is counted.
fn contract_right(body: &[u8]) -> bool
    requires { body_length (length body.now) ≡ true }
    ensures { result ≡ code_right (take (length body.now - 9) body.now) }
{
    if body.len() == 12 {
        return code_right(&body[..3]);
    }
    code_right(&body[..8])
}

// The body of a frame with this header.
pub fn read(body: &[u8], head: Head) -> IndexReading
    ensures { result ≡ index_reading head body.now }
{
    let n = body.len();
    if !is_known(head.market, head.kind) {
        return refused(7, n);
    }
    let version = version_of(head.kind);
    if head.version != version {
        return refused(8, n);
    }
    if !is_length(n) {
        return refused(9, n);
    }
    let long = n - 9;
    let h = eight_at(body, long);
    if !h.good {
        let place = place_in(body);
        let index = empty();
        return IndexReading {
            answer: Answer::Refused(11, 17 + n, place),
            index,
        };
    }
    if !is_time(head.sent) {
        return refused(12, n);
    }
    if !is_time(h.first) {
        return refused(12, n);
    }
    if !contract_right(body) {
        return refused(13, n);
    }
    let status = body[n - 1];
    if !is_status(head.kind, status) {
        return refused(13, n);
    }
    let format = number_of(head.kind);
    let contract = contract_in(body);
    IndexReading {
        answer: Answer::Accepted(Frame {
            length: 17 + n,
            format,
            seq: head.seq,
        }),
        index: Index {
            market: head.market,
            kind: head.kind,
            sent: head.sent,
            seq: head.seq,
            contract,
            length: long,
            time: h.first,
            value: Thousandths(h.last),
            status,
        },
    }
}
