// Format twelve: opening and closing prices.
#![tactic(auto)]

ghost use Rattle.std.specs.Prelude.{◌≡◌};
ghost use Rattle.stock_prices.specs.Prices.{no_slot, no_prices};

pub mod rules;

use amounts::{Price, Quantity};
use answers::Answer;

// The bytes of a frame, and of a slot.
pub const FRAME: usize = 374;

pub const SLOT: usize = 36;

// A stock's prices and quantity so far; the time is HHMMSS and six digits of fraction, all nines after the close.
#[derive(Clone, Copy)]
pub struct Slot {
    pub code: [u8; 6],
    pub opening: Price,
    pub highest: Price,
    pub lowest: Price,
    pub last: Price,
    pub total: Quantity,
    pub time: u64,
}

// The first `count` slots hold stocks; the others have six spaces for a code and zeros elsewhere.
#[derive(Clone, Copy)]
pub struct Prices {
    pub seq: u32,
    pub count: u8,
    pub slots: [Slot; 10],
}

// What reading a body finds; the prices are the empty ones where the answer is a refusal.
// It is no `Result`: beside a frame of another kind, which is accepted, stands the empty one too.
#[derive(Clone, Copy)]
pub struct PricesReading {
    pub answer: Answer,
    pub prices: Prices,
}

// The empty slot.
pub fn no_slot() -> Slot
    ensures { result ≡ no_slot }
{
    Slot {
        code: [0u8; 6],
        opening: Price(0),
        highest: Price(0),
        lowest: Price(0),
        last: Price(0),
        total: Quantity(0),
        time: 0,
    }
}

// The empty prices, which stand beside a refusal.
pub fn empty() -> Prices
    ensures { result ≡ no_prices }
{
    let slot = no_slot();
    Prices {
        seq: 0,
        count: 0,
        slots: [slot; 10],
    }
}
