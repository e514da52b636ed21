// What a reading may say of the bytes from a place on a line.
ghost use Rattle.std.specs.Prelude.{◌≡◌, ◌+◌, length, drop};
ghost use Rattle.stock_reading.specs.Reading.{answer_of, notice_at, quote_at, prices_at, halt_at};
ghost use Rattle.stock_reading.specs.Steps.{no_kind, refuses_kind, after_outline, found_says, kind_says};

use answers::Answer;
use stock_frame::outline::outline;
use stock_halts::HaltReading;
use stock_halts_read::read as halt_in;
use stock_notices::NoticeReading;
use stock_notices_read::read as notice_in;
use stock_prices::PricesReading;
use stock_prices_read::read as prices_in;
use stock_quotes::QuoteReading;
use stock_quotes_read::read as quote_in;

// Business 01 with a format and its version, as six digits.
pub const FIVE: u32 = 10501;

pub const SIX: u32 = 10604;

pub const TWELVE: u32 = 11203;

pub const NINETEEN: u32 = 11901;

// A whole outline: where the body stands on the line, and what the header says.
#[derive(Clone, Copy)]
struct Whole {
    start: usize,
    end: usize,
    kind: u32,
    seq: u32,
    length: usize,
}

// The body of the frame at a place, or why there is none.
fn find(line: &[u8], at: usize) -> Result<Whole, Answer>
    ensures { found_says result line.now at }
{
    let head = outline(line, at)?;
    let length = head.length;
    Ok(Whole {
        start: at + 10,
        end: at + length - 3,
        kind: head.kind,
        seq: head.seq,
        length,
    })
}

// A header that names no format with its version: 8 where the format is one of the list, else 7.
fn refused(kind: u32, n: usize) -> Answer
    requires { no_kind kind }
    ensures { refuses_kind result kind n }
{
    let format = kind / 100;
    if format == SIX / 100 {
        return Answer::Refused(8, n, None);
    }
    if format == TWELVE / 100 {
        return Answer::Refused(8, n, None);
    }
    if format == NINETEEN / 100 {
        return Answer::Refused(8, n, None);
    }
    if format == FIVE / 100 {
        return Answer::Refused(8, n, None);
    }
    Answer::Refused(7, n, None)
}

// What the checks behind the outline answer, of a body and its frame's header.
fn answer_of(body: &[u8], kind: u32, seq: u32) -> Answer
    ensures { result ≡ after_outline kind seq body.now }
{
    // no match: a proof would call its cases by the constants' numbers, and a wrong number would be refused for a name
    if kind == SIX {
        return quote_in(body, seq).answer;
    }
    if kind == TWELVE {
        return prices_in(body, seq).answer;
    }
    if kind == NINETEEN {
        return halt_in(body, seq).answer;
    }
    if kind == FIVE {
        return notice_in(body, seq).answer;
    }
    refused(kind, 13 + body.len())
}

// The answer alone, with the format, the number and the length of an accepted frame.
pub fn read(line: &[u8], at: usize) -> Answer
    ensures { result ≡ answer_of (drop at line.now) }
{
    match find(line, at) {
        Err(answer) => answer,
        Ok(w) => {
            let start = w.start;
            let end = w.end;
            answer_of(&line[start..end], w.kind, w.seq)
        }
    }
}

// The body of the frame at a place if it is of a kind; of any other frame, and where there is none, the answer.
fn find_kind(line: &[u8], at: usize, kind: u32) -> Result<Whole, Answer>
    ensures { kind_says result line.now at kind }
{
    let w = find(line, at)?;
    if w.kind == kind {
        return Ok(w);
    }
    let start = w.start;
    let end = w.end;
    Err(answer_of(&line[start..end], w.kind, w.seq))
}

// The same, with the notice if it is one. This call and the three behind it hand out four types, each of its own crate: one over a trait would
// need an impl for each that is as long as the call.
pub fn read_notice(line: &[u8], at: usize) -> NoticeReading
    ensures { result ≡ notice_at (drop at line.now) }
{
    match find_kind(line, at, FIVE) {
        Err(answer) => NoticeReading {
            answer,
            notice: stock_notices::empty(),
        },
        Ok(w) => {
            let start = w.start;
            let end = w.end;
            notice_in(&line[start..end], w.seq)
        }
    }
}

// The same, with the quote if it is one.
pub fn read_quote(line: &[u8], at: usize) -> QuoteReading
    ensures { result ≡ quote_at (drop at line.now) }
{
    match find_kind(line, at, SIX) {
        Err(answer) => QuoteReading {
            answer,
            quote: stock_quotes::empty(),
        },
        Ok(w) => {
            let start = w.start;
            let end = w.end;
            quote_in(&line[start..end], w.seq)
        }
    }
}

// The same, with the prices if it has them.
pub fn read_prices(line: &[u8], at: usize) -> PricesReading
    ensures { result ≡ prices_at (drop at line.now) }
{
    match find_kind(line, at, TWELVE) {
        Err(answer) => PricesReading {
            answer,
            prices: stock_prices::empty(),
        },
        Ok(w) => {
            let start = w.start;
            let end = w.end;
            prices_in(&line[start..end], w.seq)
        }
    }
}

// The same, with the halt if it is one.
pub fn read_halt(line: &[u8], at: usize) -> HaltReading
    ensures { result ≡ halt_at (drop at line.now) }
{
    match find_kind(line, at, NINETEEN) {
        Err(answer) => HaltReading {
            answer,
            halt: stock_halts::empty(),
        },
        Ok(w) => {
            let start = w.start;
            let end = w.end;
            halt_in(&line[start..end], w.seq)
        }
    }
}
