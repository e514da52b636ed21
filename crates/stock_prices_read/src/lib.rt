// Prices read out of a body.
#![tactic(auto)]

ghost use Rattle.std.specs.Prelude.{◌≡◌};
ghost use Rattle.stock_frame.specs.Format.{digit_answer};
ghost use Rattle.stock_prices.specs.Prices.{twelve_cells, prices_reading};
ghost use Rattle.digits.specs.Packed.{good_byte};
ghost use Rattle.stock_prices_read.specs.Steps.{refusal, without_prices, acceptance, row_of};

mod cells;
mod slots;

use crate::cells::cells;
use answers::{Answer, Frame};
use stock_frame::places::bad_digit;
use stock_prices::{FRAME, Prices, PricesReading, Slot, empty};

// The bytes of a body.
const BODY: usize = 361;

// A refusal.
fn refused(n: u8, length: usize) -> PricesReading
    ensures { result ≡ refusal n length }
{
    let prices = empty();
    PricesReading {
        answer: Answer::Refused(n, length, None),
        prices,
    }
}

// What a body with a bad digit answers: 11, with its place.
// It hands back no reading: a call that does would cost every reading the way through memory.
fn bad_answer(body: &[u8]) -> Answer
    ensures { result ≡ digit_answer twelve_cells body.now }
{
    let cells = cells();
    bad_digit(&cells, body)
}

// An answer that has no prices.
fn no_prices(answer: Answer) -> PricesReading
    ensures { result ≡ without_prices answer }
{
    let prices = empty();
    PricesReading { answer, prices }
}

// An accepted body.
fn accepted(seq: u32, count: u8, slots: [Slot; 10]) -> PricesReading
    ensures { result ≡ acceptance seq count slots }
{
    let prices = Prices { seq, count, slots };
    let frame = Frame {
        format: 12,
        seq,
        length: FRAME,
    };
    PricesReading {
        answer: Answer::Accepted(frame),
        prices,
    }
}

// Both halves of a byte are digits.
fn good_byte(b: u8) -> bool
    ensures { result ≡ good_byte b }
{
    b / 16 <= 9 && b % 16 <= 9
}

// The check that fails first behind the digits, or 0: the slots' times, the count and the slots' fields.
fn check_of(timed: bool, n: usize, ruled: bool) -> u8
    ensures { result ≡ row_of timed n ruled }
{
    if !timed {
        return 12;
    }
    if n < 1 {
        return 13;
    }
    if n > 10 {
        return 13;
    }
    if ruled { 0 } else { 13 }
}

// The body of a frame with this number.
pub fn read(body: &[u8], seq: u32) -> PricesReading
    ensures { result ≡ prices_reading seq body.now }
{
    if body.len() != BODY {
        return refused(9, body.len() + 13);
    }
    let b = body[0];
    if !good_byte(b) {
        return no_prices(bad_answer(body));
    }
    let count = b / 16 * 10 + b % 16;
    let n = count as usize;
    let Some(f) = slots::slots_in(body, n) else {
        return no_prices(bad_answer(body));
    };
    let check = check_of(f.timed, n, f.ruled);
    if check > 0 {
        return refused(check, FRAME);
    }
    let slots = f.slots;
    accepted(seq, count, slots)
}
