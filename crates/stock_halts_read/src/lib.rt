// Halts read out of a body.
#![tactic(auto)]

ghost use Rattle.std.specs.Prelude.{◌≡◌, None};
ghost use Rattle.answers.specs.declared.Answer.TheVariants.{Refused};
ghost use Rattle.stock_frame.specs.Format.{digit_answer};
ghost use Rattle.stock_halts.specs.Halts.{nineteen_cells, halt_reading, no_halt};

mod parts;
mod times;

use crate::parts::{event_of, sending_of, state_right};
use crate::times::times_right;
use answers::{Answer, Frame};
use codes_times::code_at;
use stock_frame::places::bad_digit;
use stock_halts::rules::code_fits;
use stock_halts::{Halt, HaltReading, NINES, empty};
use words::blocks::six_at;

// A refusal with its number and the frame's length.
fn refused(n: u8, len: usize) -> HaltReading
    ensures { (result.answer ≡ Refused n len None) × (result.halt ≡ no_halt) }
{
    let answer = Answer::Refused(n, len, None);
    let halt = empty();
    HaltReading { answer, halt }
}

// What a body with a bad digit in a time answers: 11, with its place.
// It hands back no reading: a call that does would cost every reading the way through memory.
fn bad_answer(body: &[u8]) -> Answer
    ensures { result ≡ digit_answer nineteen_cells body.now }
{
    let cells = [0u8, 0, 0, 0, 0, 0, 6, 6, 0];
    bad_digit(&cells, body)
}

// An answer that has no halt.
fn no_halt(answer: Answer) -> HaltReading
    ensures { (result.answer ≡ answer) × (result.halt ≡ no_halt) }
{
    let halt = empty();
    HaltReading { answer, halt }
}

// The body of a frame with this number.
pub fn read(body: &[u8], seq: u32) -> HaltReading
    ensures { result ≡ halt_reading seq body.now }
{
    let n = body.len();
    if n != 13 {
        return refused(9, 13 + n);
    }
    let times = six_at(body, 6);
    if !times.good {
        return no_halt(bad_answer(body));
    }
    let h = times.first * 100 + times.last / 1000000;
    let r = times.last % 1000000;
    if !times_right(body, h, r) {
        return refused(12, 26);
    }
    let round = h == NINES;
    let code = code_at(body, 0);
    let s = body[12];
    if !code_fits(&code, round) {
        return refused(13, 26);
    }
    if !state_right(s) {
        return refused(13, 26);
    }
    let event = event_of(code, round, h, r);
    let state = sending_of(s);
    let halt = Halt {
        seq,
        code,
        event,
        state,
    };
    let answer = Answer::Accepted(Frame {
        format: 19,
        seq,
        length: 26,
    });
    HaltReading { answer, halt }
}
