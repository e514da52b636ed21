// Prices, quantities and index values, kept apart by their types.
#![tactic(auto)]

ghost use Rattle.std.specs.Prelude.{◌≡◌};
ghost use Rattle.amounts.specs.Amounts.{price_at, quantity_at, pair_at};

use words::blocks::{eight_at, four_at};

// The largest digit.
const NINE: u8 = 9;

// What a digit counts with eight digits after it.
const ABOVE_EIGHT: u32 = 100_000_000;

// A price in ten-thousandths.
#[derive(Clone, Copy)]
pub struct Price(pub u32);

// A quantity in the stock's own trading units.
#[derive(Clone, Copy)]
pub struct Quantity(pub u32);

// An index value in thousandths.
#[derive(Clone, Copy)]
pub struct Thousandths(pub u32);

// A price with the quantity offered or traded at it.
#[derive(Clone, Copy)]
pub struct Pair {
    pub price: Price,
    pub quantity: Quantity,
}

impl Price {
    // 99,999.9999
    pub const MOST: u32 = 999_999_999;

    // The five bytes of a price, 9(5)V9(4).
    pub fn from_digits(s: &[u8], at: usize) -> Option<Price>
        ensures { result ≡ price_at s.now at }
    {
        if s.len() < 5 || s.len() - 5 < at || NINE < s[at] {
            return None;
        }
        let h = four_at(s, at + 1);
        if h.good {
            Some(Price(s[at] as u32 * ABOVE_EIGHT + h.last))
        } else {
            None
        }
    }
}

impl Quantity {
    // 99,999,999
    pub const MOST: u32 = 99_999_999;

    // The four bytes of a quantity, 9(8).
    pub fn from_digits(s: &[u8], at: usize) -> Option<Quantity>
        ensures { result ≡ quantity_at s.now at }
    {
        if s.len() < 4 || s.len() - 4 < at {
            return None;
        }
        let h = four_at(s, at);
        if h.good { Some(Quantity(h.last)) } else { None }
    }
}

impl Thousandths {
    // 99,999.999
    pub const MOST: u32 = 99_999_999;
}

impl Pair {
    // The nine bytes of a price and a quantity.
    pub fn from_digits(s: &[u8], at: usize) -> Option<Pair>
        ensures { result ≡ pair_at s.now at }
    {
        if s.len() < 9 || s.len() - 9 < at || NINE < s[at] {
            return None;
        }
        let h = eight_at(s, at + 1);
        if h.good {
            Some(Pair {
                price: Price(s[at] as u32 * ABOVE_EIGHT + h.first),
                quantity: Quantity(h.last),
            })
        } else {
            None
        }
    }
}
