// Notices read out of a body.
#![tactic(auto)]

ghost use Rattle.std.specs.Prelude.{◌+◌, ◌^◌, ◌<◌, ◌≡◌, [], ◌∷◌, None};
ghost use Rattle.layout.specs.Cells.{digits};
ghost use Rattle.stock_frame.specs.Format.{digit_answer};
ghost use Rattle.stock_notices.specs.Notices.{notice_reading, no_notice};

use answers::{Answer, Frame};
use layout::put_bytes;
use stock_frame::places::bad_digit;
use stock_notices::{Notice, NoticeReading, empty, known};

// A refusal of a body of n bytes, with the empty notice. Each reader has its own: their readings are of different types, and one
// call for all would be a trait with an impl beside each of these.
fn refused(number: u8, n: usize) -> NoticeReading
    requires { n < 2 ^ 63 }
    ensures { (result.answer ≡ Answer.Refused number (13 + n) None) × (result.notice ≡ no_notice) }
{
    let notice = empty();
    let length = 13 + n;
    NoticeReading {
        answer: Answer::Refused(number, length, None),
        notice,
    }
}

// What a body answers whose category has a bad digit: 11, with its place.
// It hands back no reading: a call that does would cost every reading the way through memory.
fn bad_answer(body: &[u8]) -> Answer
    ensures { result ≡ digit_answer (digits 2 ∷ []) body.now }
{
    let cells = [2u8];
    bad_digit(&cells, body)
}

// An answer that has no notice.
fn no_notice(answer: Answer) -> NoticeReading
    ensures { (result.answer ≡ answer) × (result.notice ≡ no_notice) }
{
    let notice = empty();
    NoticeReading { answer, notice }
}

// The body of a frame with this number.
pub fn read(body: &[u8], seq: u32) -> NoticeReading
    ensures { result ≡ notice_reading seq body.now }
{
    let n = body.len();
    if n < 1 {
        return refused(9, n);
    }
    if 61 < n {
        return refused(9, n);
    }
    let high = body[0] / 16;
    let low = body[0] % 16;
    if 9 < high {
        return no_notice(bad_answer(body));
    }
    if 9 < low {
        return no_notice(bad_answer(body));
    }
    let category = high * 10 + low;
    if !known(category) {
        return refused(13, n);
    }
    let long = n - 1;
    let mut text = [0u8; 60];
    put_bytes(&body[1..], &mut text, 0);
    let length = 13 + n;
    NoticeReading {
        answer: Answer::Accepted(Frame {
            format: 5,
            seq,
            length,
        }),
        notice: Notice {
            seq,
            category,
            length: long,
            text,
        },
    }
}
