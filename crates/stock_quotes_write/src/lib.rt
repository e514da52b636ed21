// Writing a quote as a frame.
#![tactic(auto)]

ghost use Rattle.std.specs.Prelude.{◌≡◌, true, ◌+◌, ◌*◌, ◌≤◌, length, take};
ghost use Rattle.std.proofs.lemmas.List.Edits.{sets};
ghost use Rattle.layout.specs.Cells.{fits, encode};
ghost use Rattle.stock_frame.specs.Codec.{legal, frame_of};
ghost use Rattle.stock_frame.specs.Writing.{write_answer, written_over};
ghost use Rattle.stock_quotes.specs.Reveal.{revealed, side_room, pair_count};
ghost use Rattle.stock_quotes.specs.Quotes.{quote_timed, pair_cells, flat, used_pairs, six_codec};
ghost use Rattle.stock_quotes_write.specs.Steps.{pair_right, part_right, pairs_right, fixed_bytes, Ready};

use amounts::{Pair, Price, Quantity};
use answers::WriteError;
use stock_quotes::{Quote, Reveal};

// The largest numbers that a frame's number and a time can be.
const MOST_SEQ: u32 = 99_999_999;

const MOST_TIME: u64 = 999_999_999_999;

// The bytes of a frame around its body.
const AROUND: usize = 13;

// A time is one that the code allows.
fn time_right(code: &[u8], time: u64) -> bool
    ensures { result ≡ quote_timed code.now time }
{
    time <= MOST_TIME
        && stock_quotes::timed(code, (time / 100000000) as u32, (time % 100000000) as u32)
}

// A used pair is within its digits, an unused one is zero.
fn pair_right(p: Pair, used: bool) -> bool
    ensures { result ≡ pair_right used p }
{
    let price = p.price.0;
    let quantity = p.quantity.0;
    if used {
        return price <= Price::MOST && quantity <= Quantity::MOST;
    }
    price == 0 && quantity == 0
}

// The pairs of one side, of which the first are used.
fn side_right(pairs: [Pair; 5], count: usize) -> bool
    ensures { result ≡ part_right count pairs }
{
    for i in 0..5 {
        let p = pairs[i];
        if !pair_right(p, i < count) {
            return false;
        }
    }
    true
}

// The rule on what is shown, and every pair.
fn pairs_right(m: Quote, shown: Reveal) -> bool
    ensures { result ≡ pairs_right shown m }
{
    let trade = m.trade;
    let bids = m.bids;
    let asks = m.asks;
    if !shown.levels_right() {
        return false;
    }
    if !pair_right(trade, 0 < shown.trades) {
        return false;
    }
    if !side_right(bids, shown.bids) {
        return false;
    }
    side_right(asks, shown.asks)
}

// The message breaks no field's rule or range, so that it can be written: 14 is the answer to every other.
pub fn is_legal(m: Quote) -> bool
    ensures { result ≡ legal six_codec m }
{
    let code = m.code;
    if MOST_SEQ < m.seq {
        return false;
    }
    if !time_right(&code, m.time) {
        return false;
    }
    if !codes_times::code_right(&code) {
        return false;
    }
    if Quantity::MOST < m.total.0 {
        return false;
    }
    let levels = m.levels;
    if levels.bit() != m.reveal % 2 {
        return false;
    }
    pairs_right(m, Reveal::from_byte(m.reveal))
}

// Puts the first pairs of a side into the buffer from a place on.
fn put_pairs(pairs: [Pair; 5], count: usize, buf: &mut [u8], at: usize)
    requires { (count ≤ side_room) × (at + 9 * count ≤ length buf.old) × (fits (pair_cells count) (flat (take count pairs)) ≡ true) }
    ensures { buf.new ≡ sets buf.old at (encode (pair_cells count) (flat (take count pairs))) }
{
    for i in 0..count {
        let p = pairs[i];
        digits::fields::write(p.price.0 as u64, 5, buf, at + 9 * i).unwrap();
        digits::fields::write(p.quantity.0 as u64, 4, buf, at + 9 * i + 5).unwrap();
    }
}

// Puts what stands before the pairs at its place.
fn put_fixed(m: Quote, buf: &mut [u8])
    requires { (29 ≤ length buf.old) × (legal six_codec m ≡ true) }
    ensures { buf.new ≡ sets buf.old 10 (fixed_bytes m) }
{
    let code = m.code;
    let marks = [m.reveal, m.limit, m.status];
    layout::put_bytes(&code, buf, 10);
    digits::fields::write(m.time, 6, buf, 16).unwrap();
    layout::put_bytes(&marks, buf, 22);
    digits::fields::write(m.total.0 as u64, 4, buf, 25).unwrap();
}

// Puts the pairs that a message uses at their place: trade, bids, asks.
fn put_sides(m: Quote, shown: Reveal, buf: &mut [u8])
    requires { Ready m shown (length buf.old) }
    ensures { buf.new ≡ sets buf.old 29 (encode (pair_cells (pair_count (revealed m.reveal))) (flat (used_pairs m))) }
{
    let nt = shown.trades;
    let nb = shown.bids;
    let trade = m.trade;
    let bids = m.bids;
    let asks = m.asks;
    put_pairs([trade; 5], nt, buf, 29);
    put_pairs(bids, nb, buf, 29 + 9 * nt);
    put_pairs(asks, shown.asks, buf, 29 + 9 * nt + 9 * nb);
}

// Writes a quote as a frame at the start of the buffer.
pub fn write(m: Quote, buf: &mut [u8]) -> Result<usize, WriteError>
    ensures { (result ≡ write_answer (legal six_codec m) (frame_of six_codec m) buf.old) × (buf.new ≡ written_over (legal six_codec m) (frame_of six_codec m) buf.old) }
{
    if !is_legal(m) {
        return Err(WriteError::Illegal);
    }
    let n = AROUND + stock_quotes::body_length(m.reveal);
    if buf.len() < n {
        return Err(WriteError::NoRoom);
    }
    put_fixed(m, buf);
    put_sides(m, Reveal::from_byte(m.reveal), buf);
    stock_frame::closing::close(buf, 6, 4, m.seq, n)
}
