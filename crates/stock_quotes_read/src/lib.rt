// Reading the body of a format six frame.
#![tactic(auto)]

ghost use Rattle.std.specs.Prelude.{◌≡◌, true, false, ◌+◌, ◌*◌, ◌≤◌, length, drop};
ghost use Rattle.std.specs.Option.{MatchOption};
ghost use Rattle.layout.specs.Cells.{good_cells};
ghost use Rattle.stock_frame.specs.Format.{digit_answer};
ghost use Rattle.stock_quotes.specs.Reveal.{side_room, pair_count};
ghost use Rattle.stock_quotes.specs.Quotes.{quote_reading, pair_cells, six_cells, pairs_in, padded};
ghost use Rattle.stock_quotes_read.specs.Steps.{most_pairs, refused_reading, without_quote, accepted_reading, Dictated, SidesOf, fixed_good, FixedOf};

mod cells;

use crate::cells::cells;
use amounts::{Pair, Quantity};
use answers::{Answer, Frame};
use stock_frame::places::bad_digit;
use stock_quotes::{Levels, Quote, QuoteReading, Reveal, no_pair};

// The pairs of a body by their parts.
#[derive(Clone, Copy)]
struct Sides {
    trade: Pair,
    bids: [Pair; 5],
    asks: [Pair; 5],
}

// What the packed fields before a body's pairs hold.
#[derive(Clone, Copy)]
struct Fixed {
    // HHMM and SSffffff
    first: u32,
    last: u32,
    total: Quantity,
}

// A refusal, with the whole frame's length.
fn refused(number: u8, n: usize) -> QuoteReading
    ensures { result ≡ refused_reading number n }
{
    let quote = stock_quotes::empty();
    QuoteReading {
        answer: Answer::Refused(number, n, None),
        quote,
    }
}

// What a body with a bad digit answers: 11, with its place.
// It hands back no reading: a call that does would cost every reading the way through memory.
fn bad_answer(body: &[u8]) -> Answer
    ensures { result ≡ digit_answer (six_cells most_pairs) body.now }
{
    let cells = cells();
    bad_digit(&cells, body)
}

// An answer that has no quote.
fn no_quote(answer: Answer) -> QuoteReading
    ensures { result ≡ without_quote answer }
{
    let quote = stock_quotes::empty();
    QuoteReading { answer, quote }
}

// The pairs of one side, from a place on: best first, and zeros behind them; none where a digit is bad.
fn side_at(body: &[u8], at: usize, count: usize) -> Option<[Pair; 5]>
    requires { (count ≤ side_room) × (at + 9 * count ≤ length body.now) }
    ensures { MatchOption result (good_cells (pair_cells count) (drop at body.now) ≡ false) (λ pairs. (good_cells (pair_cells count) (drop at body.now) ≡ true) × (pairs ≡ padded (pairs_in count (drop at body.now)))) }
{
    let mut pairs = [no_pair(); 5];
    for i in 0..count {
        let a = at + 9 * i;
        pairs[i] = Pair::from_digits(&body[a..a + 9], 0)?;
    }
    Some(pairs)
}

// The trade, the bids and the asks, one behind another.
fn sides_at(body: &[u8], shown: Reveal) -> Option<Sides>
    requires { Dictated body.now shown }
    ensures { MatchOption result (good_cells (pair_cells (pair_count shown)) (drop 19 body.now) ≡ false) (λ sides. (good_cells (pair_cells (pair_count shown)) (drop 19 body.now) ≡ true) × SidesOf body.now shown sides.trade sides.bids sides.asks) }
{
    let nt = shown.trades;
    let nb = shown.bids;
    let trades = side_at(body, 19, nt)?;
    let bids = side_at(body, 19 + 9 * nt, nb)?;
    let asks = side_at(body, 19 + 9 * nt + 9 * nb, shown.asks)?;
    Some(Sides {
        trade: trades[0],
        bids,
        asks,
    })
}

// The time and the total.
fn fixed_fields(body: &[u8]) -> Option<Fixed>
    requires { 19 ≤ length body.now }
    ensures { MatchOption result (fixed_good body.now ≡ false) (λ fixed. (fixed_good body.now ≡ true) × FixedOf body.now fixed.first fixed.last fixed.total) }
{
    let time = words::blocks::six_at(&body[6..12], 0);
    let total = Quantity::from_digits(&body[15..19], 0)?;
    time.good.then_some(Fixed {
        first: time.first,
        last: time.last,
        total,
    })
}

// The quote of a body that passes every check.
fn accepted(body: &[u8], seq: u32, p: Fixed, sides: Sides) -> QuoteReading
    requires { 19 ≤ length body.now }
    ensures { result ≡ accepted_reading seq body.now (p.first * 100000000 + p.last) p.total sides.trade sides.bids sides.asks }
{
    let code = codes_times::code_at(body, 0);
    let total = p.total;
    let trade = sides.trade;
    let bids = sides.bids;
    let asks = sides.asks;
    QuoteReading {
        answer: Answer::Accepted(Frame {
            format: 6,
            seq,
            length: body.len() + 13,
        }),
        quote: Quote {
            seq,
            code,
            time: (p.first as u64) * 100000000 + p.last as u64,
            reveal: body[12],
            limit: body[13],
            status: body[14],
            total,
            trade,
            levels: Levels::from_byte(body[12]),
            bids,
            asks,
        },
    }
}

// The checks from the digits on, of a body whose length is the one that its reveal byte dictates.
fn fields(body: &[u8], seq: u32, shown: Reveal) -> QuoteReading
    requires { Dictated body.now shown }
    ensures { result ≡ quote_reading seq body.now }
{
    let Some(p) = fixed_fields(body) else {
        return no_quote(bad_answer(body));
    };
    let Some(sides) = sides_at(body, shown) else {
        return no_quote(bad_answer(body));
    };
    if !stock_quotes::timed(&body[..6], p.first, p.last) {
        return refused(12, body.len() + 13);
    }
    if !codes_times::code_right(&body[..6]) {
        return refused(13, body.len() + 13);
    }
    accepted(body, seq, p, sides)
}

// The body of a frame with this number.
pub fn read(body: &[u8], seq: u32) -> QuoteReading
    ensures { result ≡ quote_reading seq body.now }
{
    let n = body.len();
    if n < 19 {
        return refused(9, n + 13);
    }
    if 118 < n {
        return refused(9, n + 13);
    }
    let reveal = body[12];
    let shown = Reveal::from_byte(reveal);
    if !shown.levels_right() {
        return refused(10, n + 13);
    }
    if n != stock_quotes::body_length(reveal) {
        return refused(9, n + 13);
    }
    fields(body, seq, shown)
}
