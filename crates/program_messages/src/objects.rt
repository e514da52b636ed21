// What the object of each message says.
use crate::message::{Message, put_read};
use amounts::Price;
use line_feed::frames::Framed;
use printing::{put, put_all};
use stock_halts::{Event, Halt, Sending};
use stock_notices::Notice;
use stock_prices::{Prices, Slot};
use stock_quotes::{Levels, Quote, Reveal};
use stock_reading::reading::{FIVE, NINETEEN, SIX, TWELVE};
use stock_texts::counts::put_count;
use stock_texts::hex::put_hex;
use stock_texts::quotes::{put_marks, put_sides, put_trade};
use stock_texts::values::{put_clock, put_code, put_comma, put_price, put_time, put_two};

// The first n bytes of a text.
fn put_text(out: &mut [u8], at: usize, text: &[u8], n: usize) -> usize {
    match text.get(..n) {
        Some(used) => put_hex(out, at, used),
        None => put_all(out, at, b"null"),
    }
}

fn put_category(out: &mut [u8], at: usize, category: u8) -> usize {
    let at = put_all(out, at, b",\"category\":\"");
    let at = put_two(out, at, category as u64);
    put(out, at, b'"')
}

impl Message for Notice {
    fn put(self, out: &mut [u8], at: usize) -> usize {
        let at = put_category(out, at, self.category);
        let at = put_all(out, at, b",\"text\":");
        put_text(out, at, &self.text, self.length)
    }
}

// Both sides, with nothing between their brackets where they have no level; null where they are not shown.
fn put_book(out: &mut [u8], at: usize, q: Quote, shown: Reveal) -> usize {
    match q.levels {
        Levels::Shown => put_sides(out, at, q.bids, shown.bids, q.asks, shown.asks),
        Levels::NotShown => put_all(out, at, b",\"bids\":null,\"asks\":null"),
    }
}

// What the reveal byte lets stand.
fn put_pairs(out: &mut [u8], at: usize, q: Quote) -> usize {
    let shown = Reveal::from_byte(q.reveal);
    let at = put_trade(out, at, (0 < shown.trades).then_some(q.trade));
    put_book(out, at, q, shown)
}

impl Message for Quote {
    fn put(self, out: &mut [u8], at: usize) -> usize {
        let at = put_code(out, at, b',', self.code);
        let at = put_time(out, at, self.time, b"null,\"last\":true");
        let at = put_count(out, at, b",\"reveal\":", self.reveal as u64);
        let at = put_marks(out, at, self.limit, self.status, self.total);
        put_pairs(out, at, self)
    }
}

fn put_amount(out: &mut [u8], at: usize, key: &[u8], p: Price) -> usize {
    let at = put_all(out, at, key);
    put_price(out, at, p)
}

// The four prices of a slot.
fn put_four(out: &mut [u8], at: usize, s: &Slot) -> usize {
    let at = put_amount(out, at, b",\"open\":", s.opening);
    let at = put_amount(out, at, b",\"high\":", s.highest);
    let at = put_amount(out, at, b",\"low\":", s.lowest);
    put_amount(out, at, b",\"last\":", s.last)
}

fn put_slot(out: &mut [u8], at: usize, s: &Slot) -> usize {
    let at = put_code(out, at, b'{', s.code);
    let at = put_four(out, at, s);
    let at = put_count(out, at, b",\"total\":", s.total.0 as u64);
    let at = put_time(out, at, s.time, b"null,\"closing\":true");
    put(out, at, b'}')
}

// The first n slots.
fn put_slots(out: &mut [u8], at: usize, slots: &[Slot], n: usize) -> usize {
    let mut to = at;
    for (i, slot) in slots.iter().take(n).enumerate() {
        to = put_comma(out, to, i);
        to = put_slot(out, to, slot);
    }
    to
}

impl Message for Prices {
    fn put(self, out: &mut [u8], at: usize) -> usize {
        let at = put_count(out, at, b",\"count\":", self.count as u64);
        let at = put_all(out, at, b",\"slots\":[");
        let at = put_slots(out, at, &self.slots, self.count as usize);
        put(out, at, b']')
    }
}

// When trading is resumed, or null while it is not.
fn put_resume(out: &mut [u8], at: usize, r: Option<u32>) -> usize {
    let at = put_all(out, at, b",\"resume\":");
    match r {
        None => put_all(out, at, b"null"),
        Some(t) => put_clock(out, at, t as u64),
    }
}

fn put_event(out: &mut [u8], at: usize, e: Event) -> usize {
    match e {
        Event::RoundEnd(n) => {
            put_count(out, at, b",\"event\":\"round-end\",\"records\":", n as u64)
        }
        Event::Halted(t, r) => {
            let at = put_all(out, at, b",\"event\":\"halt\",\"halted\":");
            let at = put_clock(out, at, t as u64);
            put_resume(out, at, r)
        }
    }
}

fn put_state(out: &mut [u8], at: usize, s: Sending) -> usize {
    match s {
        Sending::Cycle => put_all(out, at, b",\"state\":\"C\""),
        Sending::Instant => put_all(out, at, b",\"state\":\"I\""),
    }
}

impl Message for Halt {
    fn put(self, out: &mut [u8], at: usize) -> usize {
        let at = put_code(out, at, b',', self.code);
        let at = put_event(out, at, self.event);
        put_state(out, at, self.state)
    }
}

// The object of a frame with this header and body, if it is accepted. A header of no kind is refused with 7 or 8.
fn put_body(out: &mut [u8], at: usize, body: &[u8], kind: u32, seq: u32, place: u64) -> usize {
    match kind {
        SIX => {
            let r = stock_quotes_read::read(body, seq);
            put_read(out, at, place, r.answer, r.quote)
        }
        TWELVE => {
            let r = stock_prices_read::read(body, seq);
            put_read(out, at, place, r.answer, r.prices)
        }
        NINETEEN => {
            let r = stock_halts_read::read(body, seq);
            put_read(out, at, place, r.answer, r.halt)
        }
        FIVE => {
            let r = stock_notices_read::read(body, seq);
            put_read(out, at, place, r.answer, r.notice)
        }
        _ => at,
    }
}

// The object of a frame of the bytes in hand, if it is accepted.
pub(crate) fn put_framed(out: &mut [u8], at: usize, buf: &[u8], f: Framed) -> usize {
    match buf.get(f.start..f.end) {
        Some(body) => put_body(out, at, body, f.head.kind, f.head.seq, f.place),
        None => at,
    }
}
