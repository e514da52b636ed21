// Prices judged for writing.
ghost use Rattle.std.specs.Prelude.{◌≡◌};
ghost use Rattle.layout.specs.Cells.{fits};
ghost use Rattle.stock_frame.specs.Codec.{legal};
ghost use Rattle.stock_prices.specs.Prices.{slot_cells, slots_cells, slot_values, slots_values, slots_pass, slot_timed, slot_ruled, time_right, twelve_codec};

use amounts::{Price, Quantity};
use stock_prices::rules::{ABOVE_EIGHT, slot_right, time_right};
use stock_prices::{Prices, Slot};

// The largest numbers that a frame's number and a time's digits can give.
const MOST_SEQ: u32 = 99_999_999;

const MOST_TIME: u64 = 999_999_999_999;

// The time of a slot, counted or not.
fn time_timed(t: u64, counted: bool) -> bool
    ensures { result ≡ time_right counted t }
{
    let hhmm = t / ABOVE_EIGHT;
    hhmm <= 9999 && time_right(hhmm as u32, (t % ABOVE_EIGHT) as u32, counted)
}

// Check 12: every slot's time, of which the first n slots are counted.
fn timed(slots: [Slot; 10], n: usize) -> bool
    ensures { result ≡ slots_pass slot_timed 10 n (slots_values slots) }
{
    for i in 0..10 {
        let s = slots[i];
        if !time_timed(s.time, i < n) {
            return false;
        }
    }
    true
}

// Check 13 for every slot, of which the first n are counted.
fn ruled(slots: [Slot; 10], n: usize) -> bool
    ensures { result ≡ slots_pass slot_ruled 10 n (slots_values slots) }
{
    for i in 0..10 {
        let s = slots[i];
        if !slot_right(s, i < n) {
            return false;
        }
    }
    true
}

// Every number of a slot has at most its field's digits. As one chain of `&&` it didn't prove: six tests that join lose what each said.
#[tactic(auto, using(crate::proofs::WriteLaws::slot_fits_is))]
fn slot_fits(s: Slot) -> bool
    ensures { result ≡ fits slot_cells (slot_values s) }
{
    if s.opening.0 > Price::MOST || s.highest.0 > Price::MOST {
        return false;
    }
    if s.lowest.0 > Price::MOST || s.last.0 > Price::MOST {
        return false;
    }
    if s.total.0 > Quantity::MOST {
        return false;
    }
    s.time <= MOST_TIME
}

// And of all slots.
fn slots_fit(slots: [Slot; 10]) -> bool
    ensures { result ≡ fits (slots_cells 10) (slots_values slots) }
{
    for i in 0..10 {
        let s = slots[i];
        if !slot_fits(s) {
            return false;
        }
    }
    true
}

// A message that breaks no field's rule or range. It stays in steps, as `slot_fits`: as one chain of `&&` it didn't prove.
#[tactic(auto, using(crate::proofs::WriteLaws::legal_is))]
pub(crate) fn is_legal(m: Prices) -> bool
    ensures { result ≡ legal twelve_codec m }
{
    let slots = m.slots;
    let n = m.count as usize;
    if m.seq > MOST_SEQ || n < 1 || n > 10 {
        return false;
    }
    if !slots_fit(slots) || !timed(slots, n) {
        return false;
    }
    ruled(slots, n)
}
