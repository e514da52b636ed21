// The rules on one slot.
ghost use Rattle.std.specs.Prelude.{◌+◌, ◌*◌, ◌≡◌, ◌&&◌, eqb, leb, ltb};
ghost use Rattle.std.specs.List.{list_all};
ghost use Rattle.codes_times.specs.Times.{time_of_day, nines};
ghost use Rattle.stock_prices.specs.Prices.{parts_right, slot_ruled, slot_values};

use crate::Slot;

// What a time's last eight digits, its seconds and fraction, count up to.
pub const ABOVE_EIGHT: u64 = 100_000_000;

// Hours and minutes, and seconds with six digits of a free fraction.
fn day_of(hhmm: u32, rest: u32) -> bool
    ensures { result ≡ (ltb rest 100000000 && time_of_day 6 (hhmm * 100000000 + rest)) }
{
    hhmm <= 2399 && hhmm % 100 <= 59 && rest < 60_000_000
}

// All nines: the closing price.
fn all_nines(hhmm: u32, rest: u32) -> bool
    ensures { result ≡ (ltb rest 100000000 && eqb (hhmm * 100000000 + rest) (nines 6)) }
{
    hhmm == 9999 && rest == 99_999_999
}

// A slot's time by its hours and minutes and its last eight digits: one of day, or in a counted slot all nines.
pub fn time_right(hhmm: u32, rest: u32, counted: bool) -> bool
    ensures { result ≡ parts_right counted hhmm rest }
{
    day_of(hhmm, rest) || counted && all_nines(hhmm, rest)
}

// Every byte of a code lies between two.
fn all_between(code: [u8; 6], low: u8, high: u8) -> bool
    ensures { result ≡ list_all (λ b. leb low b && leb b high) code }
{
    code.iter().all(|b| (low..=high).contains(b))
}

// Every number is zero.
fn all_zero(amounts: [u64; 6]) -> bool
    ensures { result ≡ list_all (eqb 0) amounts }
{
    amounts.iter().all(|n| *n == 0)
}

// The fields of a slot, counted or not.
#[tactic(auto, using(crate::proofs::RuleLaws::ruled_is))]
pub fn slot_right(s: Slot, counted: bool) -> bool
    ensures { result ≡ slot_ruled counted (slot_values s) }
{
    let code = s.code;
    if counted {
        return all_between(code, 32, 126);
    }
    let amounts = [
        s.opening.0 as u64,
        s.highest.0 as u64,
        s.lowest.0 as u64,
        s.last.0 as u64,
        s.total.0 as u64,
        s.time,
    ];
    all_between(code, 32, 32) && all_zero(amounts)
}
