// The messages of the derivatives exchange: the object of an index value, and those of a whole line.
use crate::message::{Message, put_read};
use amounts::Thousandths;
use answers::{Answer, Frame};
use derivatives_index::index::Index;
use derivatives_reading::read_index;
use line_feed::feed::{Failure, LARGE};
use line_feed::input::Input;
use line_feed::moves::{Moved, Moves};
use line_feed::output::Output;
use lines::exchanges::Exchange;
use printing::{put, put_all};
use std::io::{Read, Write};
use stock_texts::counts::put_count;
use stock_texts::values::{put_hundredths, put_string, put_thousandths};

fn put_market(out: &mut [u8], at: usize, market: u8) -> usize {
    let at = put_all(out, at, b",\"market\":\"");
    let at = put(out, at, market);
    put(out, at, b'"')
}

fn put_clock(out: &mut [u8], at: usize, key: &[u8], t: u32) -> usize {
    let at = put_all(out, at, key);
    put_hundredths(out, at, t as u64)
}

// The bytes of a contract that are used.
fn put_contract(out: &mut [u8], at: usize, contract: &[u8], n: usize) -> usize {
    let at = put_all(out, at, b",\"contract\":");
    match contract.get(..n) {
        Some(used) => put_string(out, at, used),
        None => put_all(out, at, b"null"),
    }
}

fn put_value(out: &mut [u8], at: usize, value: Thousandths, status: u8) -> usize {
    let at = put_all(out, at, b",\"value\":");
    let at = put_thousandths(out, at, value);
    put_count(out, at, b",\"status\":", status as u64)
}

impl Message for Index {
    // Its kind, I060 or I064.
    fn put_frame(f: Frame, out: &mut [u8], at: usize) -> usize {
        let at = put_count(out, at, b",\"kind\":\"I0", f.format as u64);
        put_count(out, at, b"\",\"seq\":", f.seq as u64)
    }

    fn put(self, out: &mut [u8], at: usize) -> usize {
        let at = put_market(out, at, self.market);
        let at = put_clock(out, at, b",\"sent\":", self.sent);
        let at = put_contract(out, at, &self.contract, self.length);
        let at = put_clock(out, at, b",\"time\":", self.time);
        put_value(out, at, self.value, self.status)
    }
}

// The object of a move, if it is past an accepted frame. The bytes behind the frame change nothing of what is read.
fn put_moved(out: &mut [u8], at: usize, buf: &[u8], moved: Moved) -> usize {
    let Answer::Accepted(_) = moved.row.answer else {
        return at;
    };
    let r = read_index(buf, moved.from);
    put_read(out, at, moved.row.at, r.answer, r.index)
}

// Puts the objects of a whole line.
pub(crate) fn put_index_line<R: Read, W: Write>(
    input: &mut Input<'_, R>,
    output: &mut Output<'_, W>,
) -> Result<(), Failure> {
    let mut moves = Moves::fresh(Exchange::Derivatives);
    for _ in 0..u64::MAX {
        let Some(moved) = moves.next(input, output)? else {
            return moves.feed.written(output);
        };
        // an array, as in `put_line`
        let Some(out) = output.out.first_chunk_mut::<LARGE>() else {
            return Err(Failure::Cut);
        };
        moves.feed.to = put_moved(out, moves.feed.to, input.buf, moved);
    }
    Err(Failure::Read)
}
