// What a quote and the row of its stock both say, each behind its key.
use crate::counts::put_count;
use crate::values::{put_comma, put_price};
use amounts::{Pair, Quantity};
use printing::{put, put_all};

// The two bytes that are handed on whole, and the day's total.
pub fn put_marks(out: &mut [u8], at: usize, limit: u8, status: u8, total: Quantity) -> usize {
    let at = put_count(out, at, b",\"limit\":", limit as u64);
    let at = put_count(out, at, b",\"status\":", status as u64);
    put_count(out, at, b",\"total\":", total.0 as u64)
}

fn put_pair(out: &mut [u8], at: usize, p: Pair) -> usize {
    let at = put_all(out, at, b"{\"price\":");
    let at = put_price(out, at, p.price);
    let at = put_count(out, at, b",\"quantity\":", p.quantity.0 as u64);
    put(out, at, b'}')
}

// The first n levels of a side.
fn put_levels(out: &mut [u8], at: usize, side: [Pair; 5], n: usize) -> usize {
    let mut to = at;
    for (i, p) in side.iter().take(n).enumerate() {
        to = put_comma(out, to, i);
        to = put_pair(out, to, *p);
    }
    to
}

fn put_side(out: &mut [u8], at: usize, key: &[u8], side: [Pair; 5], n: usize) -> usize {
    let at = put_all(out, at, key);
    let at = put_levels(out, at, side, n);
    put(out, at, b']')
}

// Both sides, of each the first levels.
pub fn put_sides(
    out: &mut [u8],
    at: usize,
    bids: [Pair; 5],
    bid_count: usize,
    asks: [Pair; 5],
    ask_count: usize,
) -> usize {
    let at = put_side(out, at, b",\"bids\":[", bids, bid_count);
    put_side(out, at, b",\"asks\":[", asks, ask_count)
}

// A trade, or null where there is none.
pub fn put_trade(out: &mut [u8], at: usize, trade: Option<Pair>) -> usize {
    let at = put_all(out, at, b",\"trade\":");
    match trade {
        Some(p) => put_pair(out, at, p),
        None => put_all(out, at, b"null"),
    }
}
