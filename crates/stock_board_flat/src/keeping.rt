// A row put into the lists at its place, and read from them.
ghost use Rattle.std.specs.Prelude.{◌≡◌, ◌+◌, ◌*◌, ◌/◌, ◌%◌, ◌<◌, ◌≤◌, cond, [], ◌∷◌, ◌++◌, length, get_or, take, drop, None};
ghost use Rattle.std.proofs.lemmas.List.Edits.{sets};
ghost use Rattle.stock_board.specs.Rows.{free_row, row_after};
ghost use Rattle.stock_quotes.specs.declared.Levels.TheVariants.{NotShown};
ghost use Rattle.stock_board_flat.specs.Flat.{head_of, marks_of, pair_of, trade_bit, kept_of, cells_of, quote_in, rows_of, stored_at};
ghost use Rattle.stock_board_flat.specs.Steps.{flat, Whole, trade_in, with_trade, OwnSides, keeps_sides, row_in, first_cells, last_cells, row_before};

use crate::placing::Place;
use amounts::{Pair, Price, Quantity};
use stock_board::{Row, trade_after};
use stock_quotes::{Levels, Quote, no_pair};
use stock_quotes_numbers::{quote_amounts, quote_of};

// The cells of a row, and how many of them are a quote's amounts.
const PER_ROW: usize = 26;

const AMOUNTS: usize = 23;

// A time stands in two cells, each of half its bits.
const HALF: u64 = 4_294_967_296;

// Four bytes as one number, the first lowest.
fn four(a: u8, b: u8, c: u8, d: u8) -> u64
    ensures { (result ≡ a + 256 * (b + 256 * (c + 256 * d))) × (result < 4294967296) }
{
    u64::from(a) + 256 * (u64::from(b) + 256 * (u64::from(c) + 256 * u64::from(d)))
}

// The head of a row: its code, limit and status.
pub(crate) fn head_of(code: [u8; 6], limit: u8, status: u8) -> u64
    ensures { result ≡ head_of code limit status }
{
    four(code[0], code[1], code[2], code[3]) + 4294967296 * four(code[4], code[5], limit, status)
}

// A quote's nine bytes out of a head and the byte that says what is shown.
fn marks_of(head: u64, shown: u8) -> [u8; 9]
    ensures { result ≡ marks_of head shown }
{
    let b = head / 256;
    let c = b / 256;
    let d = c / 256;
    let e = d / 256;
    let f = e / 256;
    let g = f / 256;
    let h = g / 256;
    [
        (head % 256) as u8,
        (b % 256) as u8,
        (c % 256) as u8,
        (d % 256) as u8,
        (e % 256) as u8,
        (f % 256) as u8,
        shown,
        (g % 256) as u8,
        (h % 256) as u8,
    ]
}

// A time out of its two cells.
fn time_of(low: u32, high: u32) -> u64
    ensures { result ≡ low + 4294967296 * high }
{
    low as u64 + HALF * high as u64
}

// The amounts among a row's 26 cells.
fn amounts_in(cells: &[u32]) -> [u32; 23]
    requires { length cells.now ≡ 26 }
    ensures { result ≡ take 23 cells.now }
{
    let mut amounts = [0u32; 23];
    amounts.copy_from_slice(&cells[..AMOUNTS]);
    amounts
}

// The quote of a head and its 26 cells.
fn quote_from(head: u64, cells: &[u32]) -> Quote
    requires { length cells.now ≡ 26 }
    ensures { result ≡ quote_in head cells.now }
{
    let marks = marks_of(head, (cells[23] % 256 / 2 * 2) as u8);
    let time = time_of(cells[24], cells[25]);
    quote_of(0, &marks, time, &amounts_in(cells))
}

// The pair of a last trade, zeros where there is none yet.
fn pair_of(trade: Option<Pair>) -> Pair
    ensures { result ≡ pair_of trade }
{
    trade.unwrap_or(no_pair())
}

// 1 where there is a last trade.
fn trade_bit(trade: Option<Pair>) -> u8
    ensures { (result ≡ trade_bit trade) × (result ≤ 1) }
{
    u8::from(trade.is_some())
}

// Which of a row's pairs there are, in the bits of a reveal byte.
fn shown_of(trades: u8, bids: u8, asks: u8) -> u8
    requires { trades ≤ 1 }
    ensures { result ≡ 128 * trades + (16 * (bids % 8) + 2 * (asks % 8)) }
{
    128 * trades + (16 * (bids % 8) + 2 * (asks % 8))
}

// The quote that leaves this row of a free one; its reveal byte says whether there is a last trade, and how many levels.
pub fn kept(row: Row) -> Quote
    ensures { result ≡ kept_of row }
{
    let code = row.code;
    let total = row.total;
    let last = row.trade;
    let b = row.bids;
    let a = row.asks;
    let bids = b.levels;
    let asks = a.levels;
    let reveal = shown_of(trade_bit(last), b.count, a.count);
    let trade = pair_of(last);
    Quote {
        seq: 0,
        code,
        time: row.time,
        reveal,
        limit: row.limit,
        status: row.status,
        total,
        trade,
        levels: Levels::Shown,
        bids,
        asks,
    }
}

// The row at a place.
pub(crate) fn row_in(heads: &[u64], cells: &[u32], at: usize) -> Row
    requires { Whole (flat heads.now cells.now) × (at < 256) }
    ensures { result ≡ get_or (rows_of (flat heads.now cells.now)) at free_row }
{
    let from = PER_ROW * at;
    let to = from + PER_ROW;
    Row::free().after(quote_from(heads[at], &cells[from..to]))
}

// The last trade of the row at a place; none yet where the row is taken anew.
fn last_trade(cells: &[u32], at: usize, new: bool) -> Option<Pair>
    requires { (length cells.now ≡ 6656) × (at < 256) }
    ensures { result ≡ cond new None (trade_in (take 26 (drop (26 * at) cells.now))) }
{
    if new {
        return None;
    }
    let from = PER_ROW * at;
    if cells[from + AMOUNTS] % 256 / 128 % 2 == 0 {
        return None;
    }
    let price = Price(cells[from + 1]);
    let quantity = Quantity(cells[from + 2]);
    Some(Pair { price, quantity })
}

// Puts numbers into a list from a place on.
fn put(numbers: &[u32], cells: &mut [u32], at: usize)
    requires { at + length numbers.now ≤ length cells.old }
    ensures { cells.new ≡ sets cells.old at numbers.now }
{
    let end = at + numbers.len();
    cells[at..end].copy_from_slice(numbers);
}

// A row's cells: its amounts with another trade, what is shown, and the time.
fn cells_from(n: [u32; 23], trade: Pair, shown: u8, time: u64) -> [u32; 26]
    ensures { result ≡ get_or n 0 0 ∷ trade.price.0 ∷ trade.quantity.0 ∷ (drop 3 n ++ (shown ∷ time % 4294967296 ∷ time / 4294967296 ∷ [])) }
{
    [
        n[0],
        trade.price.0,
        trade.quantity.0,
        n[3],
        n[4],
        n[5],
        n[6],
        n[7],
        n[8],
        n[9],
        n[10],
        n[11],
        n[12],
        n[13],
        n[14],
        n[15],
        n[16],
        n[17],
        n[18],
        n[19],
        n[20],
        n[21],
        n[22],
        shown as u32,
        (time % HALF) as u32,
        (time / HALF) as u32,
    ]
}

// The cells of a row behind a message that tells its sides, by its last trade before.
fn cells_after(last: Option<Pair>, m: Quote) -> [u32; 26]
    requires { OwnSides m }
    ensures { result ≡ cells_of (kept_of (row_after (with_trade last) m)) }
{
    let trade = trade_after(last, m.trade, m.reveal);
    let shown = shown_of(trade_bit(trade), m.reveal / 16 % 8, m.reveal / 2 % 8);
    cells_from(quote_amounts(m), pair_of(trade), shown, m.time)
}

// Puts the row behind a message that tells its sides at a place, by its last trade before.
fn put_after(heads: &mut [u64], cells: &mut [u32], at: usize, last: Option<Pair>, m: Quote)
    requires { Whole (flat heads.old cells.old) × (at < 256) × OwnSides m }
    ensures { flat heads.new cells.new ≡ stored_at (flat heads.old cells.old) at (row_after (with_trade last) m) }
{
    let code = m.code;
    heads[at] = head_of(code, m.limit, m.status);
    put(&cells_after(last, m), cells, PER_ROW * at);
}

// Whether a message keeps the sides of the row that it goes to: it does not show its own, and the row is no new one.
fn keeps(levels: Levels, new: bool) -> bool
    ensures { result ≡ keeps_sides levels new }
{
    match levels {
        Levels::Shown => false,
        Levels::NotShown => !new,
    }
}

// A row's cells before its levels: the total and the last trade.
fn first_cells(trade: Option<Pair>, m: Quote) -> [u32; 3]
    ensures { result ≡ first_cells trade m }
{
    let pair = pair_of(trade);
    [m.total.0, pair.price.0, pair.quantity.0]
}

// Those behind them: what is shown, of the levels as before, and the time.
fn last_cells(trade: Option<Pair>, shown: u8, time: u64) -> [u32; 3]
    ensures { result ≡ last_cells trade shown time }
{
    let shown = shown_of(trade_bit(trade), shown / 16 % 8, shown / 2 % 8);
    [shown as u32, (time % HALF) as u32, (time / HALF) as u32]
}

// Puts the row behind a message that does not show its levels at a place, by its last trade before; the cells of its levels stay.
fn put_trade(heads: &mut [u64], cells: &mut [u32], at: usize, last: Option<Pair>, m: Quote)
    requires { Whole (flat heads.old cells.old) × (at < 256) × (m.levels ≡ NotShown) × (last ≡ trade_in (take 26 (drop (26 * at) cells.old))) }
    ensures { flat heads.new cells.new ≡ stored_at (flat heads.old cells.old) at (row_after (row_in (flat heads.old cells.old) at) m) }
{
    let code = m.code;
    let trade = trade_after(last, m.trade, m.reveal);
    let from = PER_ROW * at;
    let shown = (cells[from + AMOUNTS] % 256) as u8;
    heads[at] = head_of(code, m.limit, m.status);
    put(&first_cells(trade, m), cells, from);
    put(&last_cells(trade, shown, m.time), cells, from + AMOUNTS);
}

// Puts the row behind a message at the place that was found for it.
pub(crate) fn put_taken(heads: &mut [u64], cells: &mut [u32], p: Place, m: Quote)
    requires { Whole (flat heads.old cells.old) × (p.at < 256) × OwnSides m }
    ensures { flat heads.new cells.new ≡ stored_at (flat heads.old cells.old) p.at (row_after (row_before (flat heads.old cells.old) p) m) }
{
    let at = p.at;
    let levels = m.levels;
    let last = last_trade(cells, at, p.new);
    if keeps(levels, p.new) {
        put_trade(heads, cells, at, last, m);
        return;
    }
    put_after(heads, cells, at, last, m);
}
