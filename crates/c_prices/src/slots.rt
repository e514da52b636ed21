// The slots of prices as numbers and bytes, and back.
ghost use Rattle.std.specs.Prelude.{◌<◌, ◌≡◌, replicate};
ghost use Rattle.std.proofs.lemmas.List.Edits.{sets};
ghost use Rattle.layout.specs.Bytes.{bytes_over};
ghost use Rattle.stock_prices.specs.Prices.{slot_count};
ghost use Rattle.c_prices.specs.Slots.{code_in, amounts_in, slot_codes, slot_amounts, slot_times, slot_in, slots_in};

use amounts::{Price, Quantity};
use codes_times::code_at;
use layout::put_bytes;
use stock_prices::Slot;

// No codes, and no amounts.
fn no_codes() -> [u8; 60]
    ensures { result ≡ replicate 60 0 }
{
    [0; 60]
}

fn no_amounts() -> [u32; 50]
    ensures { result ≡ replicate 50 0 }
{
    [0; 50]
}

// Puts a slot's code into its place.
fn put_code(s: Slot, codes: &mut [u8; 60], at: usize)
    ensures { codes.new ≡ bytes_over (code_in s) codes.old at }
{
    let code = s.code;
    put_bytes(&code, codes, at);
}

// The codes of all slots.
pub(crate) fn slot_codes(slots: [Slot; 10]) -> [u8; 60]
    ensures { result ≡ slot_codes slots }
{
    let mut codes = no_codes();
    for (i, slot) in slots.iter().enumerate() {
        put_code(*slot, &mut codes, 6 * i);
    }
    codes
}

// Puts a slot's prices and its total into their places.
fn put_amounts(s: Slot, amounts: &mut [u32; 50], at: usize)
    requires { at < 46 }
    ensures { amounts.new ≡ sets amounts.old at (amounts_in s) }
{
    amounts[at] = s.opening.0;
    amounts[at + 1] = s.highest.0;
    amounts[at + 2] = s.lowest.0;
    amounts[at + 3] = s.last.0;
    amounts[at + 4] = s.total.0;
}

// The opening, highest, lowest and last prices and the total of all slots.
pub(crate) fn slot_amounts(slots: [Slot; 10]) -> [u32; 50]
    ensures { result ≡ slot_amounts slots }
{
    let mut amounts = no_amounts();
    for (i, slot) in slots.iter().enumerate() {
        put_amounts(*slot, &mut amounts, 5 * i);
    }
    amounts
}

// The times of all slots.
pub(crate) fn slot_times(slots: [Slot; 10]) -> [u64; 10]
    ensures { result ≡ slot_times slots }
{
    [
        slots[0].time,
        slots[1].time,
        slots[2].time,
        slots[3].time,
        slots[4].time,
        slots[5].time,
        slots[6].time,
        slots[7].time,
        slots[8].time,
        slots[9].time,
    ]
}

// The slot at a place.
fn slot_at(codes: &[u8; 60], amounts: &[u32; 50], times: &[u64; 10], i: usize) -> Slot
    requires { i < 10 }
    ensures { result ≡ slot_in codes.now amounts.now times.now i }
{
    let code = code_at(codes, 6 * i);
    Slot {
        code,
        opening: Price(amounts[5 * i]),
        highest: Price(amounts[5 * i + 1]),
        lowest: Price(amounts[5 * i + 2]),
        last: Price(amounts[5 * i + 3]),
        total: Quantity(amounts[5 * i + 4]),
        time: times[i],
    }
}

// All slots.
pub(crate) fn slots_of(codes: &[u8; 60], amounts: &[u32; 50], times: &[u64; 10]) -> [Slot; 10]
    ensures { result ≡ slots_in codes.now amounts.now times.now slot_count 0 }
{
    [
        slot_at(codes, amounts, times, 0),
        slot_at(codes, amounts, times, 1),
        slot_at(codes, amounts, times, 2),
        slot_at(codes, amounts, times, 3),
        slot_at(codes, amounts, times, 4),
        slot_at(codes, amounts, times, 5),
        slot_at(codes, amounts, times, 6),
        slot_at(codes, amounts, times, 7),
        slot_at(codes, amounts, times, 8),
        slot_at(codes, amounts, times, 9),
    ]
}
