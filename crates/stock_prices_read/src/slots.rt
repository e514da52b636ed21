// Slots read out of a body.
ghost use Rattle.std.specs.Prelude.{◌+◌, ◌≤◌, ◌≡◌, true, false, length, drop};
ghost use Rattle.std.specs.Option.{MatchOption};
ghost use Rattle.layout.specs.Cells.{good_cells, decode};
ghost use Rattle.stock_prices.specs.Prices.{slot_cells, slots_cells, slot_of, slots_of, slots_pass, slot_timed, slot_ruled};
ghost use Rattle.stock_prices_read.specs.Steps.{figures_at};

use amounts::{Pair, Price};
use codes_times::code_at;
use stock_prices::rules::{ABOVE_EIGHT, slot_right, time_right};
use stock_prices::{SLOT, Slot, no_slot};
use words::blocks::six_at;

// A slot's prices, the last one with the total.
#[derive(Clone, Copy)]
pub(crate) struct Figures {
    pub opening: Price,
    pub highest: Price,
    pub lowest: Price,
    pub pair: Pair,
}

// A slot, and whether its time is right.
#[derive(Clone, Copy)]
struct SlotField {
    timed: bool,
    slot: Slot,
}

// All ten, and whether checks 12 and 13 hold of them.
#[derive(Clone, Copy)]
pub(crate) struct SlotsField {
    pub timed: bool,
    pub ruled: bool,
    pub slots: [Slot; 10],
}

// The prices and the total of a slot.
fn figures_at(body: &[u8], at: usize) -> Option<Figures>
    requires { at + 36 ≤ length body.now }
    ensures { result ≡ figures_at body.now at }
{
    Some(Figures {
        opening: Price::from_digits(body, at + 6)?,
        highest: Price::from_digits(body, at + 11)?,
        lowest: Price::from_digits(body, at + 16)?,
        pair: Pair::from_digits(body, at + 21)?,
    })
}

// The 36 bytes of a slot, counted or not; none where a digit is bad.
fn slot_at(body: &[u8], at: usize, counted: bool) -> Option<SlotField>
    requires { at + 36 ≤ length body.now }
    ensures { MatchOption result (good_cells slot_cells (drop at body.now) ≡ false) (λ f. (good_cells slot_cells (drop at body.now) ≡ true) × (f.slot ≡ slot_of (decode slot_cells (drop at body.now))) × (f.timed ≡ slot_timed counted (decode slot_cells (drop at body.now)))) }
{
    let figures = figures_at(body, at)?;
    let h = six_at(body, at + 30);
    if !h.good {
        return None;
    }
    let code = code_at(body, at);
    let opening = figures.opening;
    let highest = figures.highest;
    let lowest = figures.lowest;
    let last = figures.pair.price;
    let total = figures.pair.quantity;
    let time = (h.first as u64) * ABOVE_EIGHT + (h.last as u64);
    let slot = Slot {
        code,
        opening,
        highest,
        lowest,
        last,
        total,
        time,
    };
    let timed = time_right(h.first, h.last, counted);
    Some(SlotField { timed, slot })
}

// The ten slots after the count, of which the first n are counted; none where a digit is bad.
pub(crate) fn slots_in(body: &[u8], n: usize) -> Option<SlotsField>
    requires { length body.now ≡ 361 }
    ensures { MatchOption result (good_cells (slots_cells 10) (drop 1 body.now) ≡ false) (λ f. (good_cells (slots_cells 10) (drop 1 body.now) ≡ true) × (f.slots ≡ slots_of 10 (decode (slots_cells 10) (drop 1 body.now))) × (f.timed ≡ slots_pass slot_timed 10 n (decode (slots_cells 10) (drop 1 body.now))) × (f.ruled ≡ slots_pass slot_ruled 10 n (decode (slots_cells 10) (drop 1 body.now)))) }
{
    let mut slots = [no_slot(); 10];
    let mut timed = true;
    let mut ruled = true;
    for i in 0..10 {
        let counted = i < n;
        let f = slot_at(body, 1 + SLOT * i, counted)?;
        slots[i] = f.slot;
        timed &= f.timed;
        ruled &= slot_right(f.slot, counted);
    }
    Some(SlotsField {
        timed,
        ruled,
        slots,
    })
}
