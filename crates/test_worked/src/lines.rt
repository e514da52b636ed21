// The line of each message, without its end.
use crate::forms::{put_bracketed, put_clock, put_hex, put_price, put_time, put_two};
use amounts::{Pair, Price};
use printing::{put, put_all, put_number};
use stock_halts::{Event, Halt, Sending};
use stock_notices::Notice;
use stock_prices::{Prices, Slot};
use stock_quotes::{Levels, Quote, Reveal};

// A format's name and a message's number.
fn put_head(out: &mut [u8], at: usize, name: &[u8], seq: u32) -> usize {
    let at = put_all(out, at, name);
    let at = put(out, at, b' ');
    put_number(out, at, seq as u64)
}

fn put_code(out: &mut [u8], at: usize, code: [u8; 6]) -> usize {
    let at = put(out, at, b' ');
    put_bracketed(out, at, &code)
}

fn put_flags(out: &mut [u8], at: usize, name: &[u8], b: u8) -> usize {
    let at = put_all(out, at, name);
    put_hex(out, at, b)
}

fn put_amount(out: &mut [u8], at: usize, p: Price) -> usize {
    let at = put(out, at, b' ');
    put_price(out, at, p.0 as u64)
}

fn put_pair(out: &mut [u8], at: usize, p: Pair) -> usize {
    let at = put_amount(out, at, p.price);
    let at = put(out, at, b'x');
    put_number(out, at, p.quantity.0 as u64)
}

// The first n levels of a side.
fn put_levels(out: &mut [u8], at: usize, side: &[Pair], n: usize) -> usize {
    let mut to = at;
    for pair in side.iter().take(n) {
        to = put_pair(out, to, *pair);
    }
    to
}

fn put_side(out: &mut [u8], at: usize, name: &[u8], side: &[Pair], n: usize) -> usize {
    let at = put_all(out, at, name);
    if n == 0 {
        return put_all(out, at, b" -");
    }
    put_levels(out, at, side, n)
}

fn put_trade(out: &mut [u8], at: usize, trade: Pair, is_sent: bool) -> usize {
    let at = put_all(out, at, b" trade");
    if is_sent {
        return put_pair(out, at, trade);
    }
    put_all(out, at, b" -")
}

fn put_sides(out: &mut [u8], at: usize, q: &Quote, shown: Reveal) -> usize {
    let at = put_side(out, at, b" bids", &q.bids, shown.bids);
    put_side(out, at, b" asks", &q.asks, shown.asks)
}

// Both sides, or that they are not shown.
fn put_book(out: &mut [u8], at: usize, q: &Quote, shown: Reveal) -> usize {
    match q.levels {
        Levels::Shown => put_sides(out, at, q, shown),
        Levels::NotShown => put_all(out, at, b" levels not shown"),
    }
}

// What the reveal byte lets stand.
fn put_pairs(out: &mut [u8], at: usize, q: &Quote) -> usize {
    let shown = Reveal::from_byte(q.reveal);
    let at = put_trade(out, at, q.trade, 0 < shown.trades);
    put_book(out, at, q, shown)
}

// The three bytes of flags and the day's total.
fn put_marks(out: &mut [u8], at: usize, q: &Quote) -> usize {
    let at = put_flags(out, at, b" reveal ", q.reveal);
    let at = put_flags(out, at, b" limit ", q.limit);
    let at = put_flags(out, at, b" status ", q.status);
    let at = put_all(out, at, b" total ");
    put_number(out, at, q.total.0 as u64)
}

pub(crate) fn put_quote(out: &mut [u8], at: usize, q: &Quote) -> usize {
    let at = put_head(out, at, b"six", q.seq);
    let at = put_code(out, at, q.code);
    let at = put(out, at, b' ');
    let at = put_time(out, at, q.time);
    let at = put_marks(out, at, q);
    put_pairs(out, at, q)
}

// The four prices of a slot.
fn put_four(out: &mut [u8], at: usize, s: &Slot) -> usize {
    let at = put_amount(out, at, s.opening);
    let at = put_amount(out, at, s.highest);
    let at = put_amount(out, at, s.lowest);
    put_amount(out, at, s.last)
}

fn put_slot(out: &mut [u8], at: usize, s: &Slot) -> usize {
    let at = put_code(out, at, s.code);
    let at = put_four(out, at, s);
    let at = put(out, at, b' ');
    let at = put_number(out, at, s.total.0 as u64);
    let at = put(out, at, b' ');
    put_time(out, at, s.time)
}

// The first n slots, each behind its mark.
fn put_slots(out: &mut [u8], at: usize, slots: &[Slot], n: usize) -> usize {
    let mut to = at;
    for (i, slot) in slots.iter().take(n).enumerate() {
        to = put(out, to, if i == 0 { b':' } else { b';' });
        to = put_slot(out, to, slot);
    }
    to
}

pub(crate) fn put_prices(out: &mut [u8], at: usize, p: &Prices) -> usize {
    let at = put_head(out, at, b"twelve", p.seq);
    let at = put_all(out, at, b" count ");
    let at = put_number(out, at, p.count as u64);
    put_slots(out, at, &p.slots, p.count as usize)
}

fn put_resume(out: &mut [u8], at: usize, r: Option<u32>) -> usize {
    match r {
        None => put_all(out, at, b" open"),
        Some(t) => {
            let at = put_all(out, at, b" resumed ");
            put_clock(out, at, t as u64)
        }
    }
}

fn put_event(out: &mut [u8], at: usize, e: Event) -> usize {
    match e {
        Event::RoundEnd(n) => {
            let at = put_all(out, at, b" round end ");
            put_number(out, at, n as u64)
        }
        Event::Halted(t, r) => {
            let at = put_all(out, at, b" halted ");
            let at = put_clock(out, at, t as u64);
            put_resume(out, at, r)
        }
    }
}

fn put_state(out: &mut [u8], at: usize, s: Sending) -> usize {
    match s {
        Sending::Cycle => put_all(out, at, b" C"),
        Sending::Instant => put_all(out, at, b" I"),
    }
}

pub(crate) fn put_halt(out: &mut [u8], at: usize, h: &Halt) -> usize {
    let at = put_head(out, at, b"nineteen", h.seq);
    let at = put_code(out, at, h.code);
    let at = put_event(out, at, h.event);
    put_state(out, at, h.state)
}

// The first n bytes of a text.
fn put_text(out: &mut [u8], at: usize, text: &[u8], n: usize) -> usize {
    match text.get(..n) {
        Some(used) => put_bracketed(out, at, used),
        None => at,
    }
}

pub(crate) fn put_notice(out: &mut [u8], at: usize, m: &Notice) -> usize {
    let at = put_head(out, at, b"five", m.seq);
    let at = put_all(out, at, b" category ");
    let at = put_two(out, at, m.category as u64);
    let at = put(out, at, b' ');
    put_text(out, at, &m.text, m.length)
}
