// A quote as nine bytes, a time and 23 amounts, and back: the form in which other languages take it and lists of numbers keep it.
#![tactic(auto)]

ghost use Rattle.std.specs.Prelude.{◌≡◌, ◌<◌, get_or};
ghost use Rattle.stock_quotes_numbers.specs.Numbers.{quote_bytes, quote_amounts, pair_at, quote_from};

use amounts::{Pair, Price, Quantity};
use codes_times::code_at;
use stock_quotes::{Levels, Quote};

// A quote's code, reveal, limit and status bytes.
pub fn quote_bytes(q: Quote) -> [u8; 9]
    ensures { result ≡ quote_bytes q }
{
    let code = q.code;
    [
        code[0], code[1], code[2], code[3], code[4], code[5], q.reveal, q.limit, q.status,
    ]
}

// A quote's total, trade, bids and asks.
pub fn quote_amounts(q: Quote) -> [u32; 23]
    ensures { result ≡ quote_amounts q }
{
    let t = q.trade;
    let b = q.bids;
    let a = q.asks;
    [
        q.total.0,
        t.price.0,
        t.quantity.0,
        b[0].price.0,
        b[0].quantity.0,
        b[1].price.0,
        b[1].quantity.0,
        b[2].price.0,
        b[2].quantity.0,
        b[3].price.0,
        b[3].quantity.0,
        b[4].price.0,
        b[4].quantity.0,
        a[0].price.0,
        a[0].quantity.0,
        a[1].price.0,
        a[1].quantity.0,
        a[2].price.0,
        a[2].quantity.0,
        a[3].price.0,
        a[3].quantity.0,
        a[4].price.0,
        a[4].quantity.0,
    ]
}

// The byte at a place; 0 past the end.
fn byte_at(bytes: &[u8], at: usize) -> u8
    ensures { result ≡ get_or bytes.now at 0 }
{
    if at < bytes.len() {
        return bytes[at];
    }
    0
}

// The amount at a place; 0 past the end.
fn amount_at(amounts: &[u32], at: usize) -> u32
    ensures { result ≡ get_or amounts.now at 0 }
{
    if at < amounts.len() {
        return amounts[at];
    }
    0
}

// The pair at a place of the amounts.
fn pair_at(amounts: &[u32], at: usize) -> Pair
    requires { at < 22 }
    ensures { result ≡ pair_at amounts.now at }
{
    Pair {
        price: Price(amount_at(amounts, at)),
        quantity: Quantity(amount_at(amounts, at + 1)),
    }
}

// The quote of a number, nine bytes, a time and 23 amounts. It is lent arrays, so that the compiler knows that every place is there.
pub fn quote_of(seq: u32, bytes: &[u8; 9], time: u64, amounts: &[u32; 23]) -> Quote
    ensures { result ≡ quote_from seq bytes.now time amounts.now }
{
    let code = code_at(bytes, 0);
    let trade = pair_at(amounts, 1);
    let bids = [
        pair_at(amounts, 3),
        pair_at(amounts, 5),
        pair_at(amounts, 7),
        pair_at(amounts, 9),
        pair_at(amounts, 11),
    ];
    let asks = [
        pair_at(amounts, 13),
        pair_at(amounts, 15),
        pair_at(amounts, 17),
        pair_at(amounts, 19),
        pair_at(amounts, 21),
    ];
    Quote {
        seq,
        code,
        time,
        reveal: byte_at(bytes, 6),
        limit: byte_at(bytes, 7),
        status: byte_at(bytes, 8),
        total: Quantity(amount_at(amounts, 0)),
        trade,
        levels: Levels::from_byte(byte_at(bytes, 6)),
        bids,
        asks,
    }
}
