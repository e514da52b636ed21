// Looking over what a record holds: its ends, lent as a list of any length, and the floor beside them.
#![tactic(auto)]

ghost use Rattle.std.specs.Prelude.{◌≡◌, ◌-◌, ◌≤◌, length, drop};
ghost use Rattle.ledger.specs.declared.LedgerError.TheVariants.{Damaged};
ghost use Rattle.ledger.specs.Ends.{places, ends_from, settled_in, missing_in, floor_fits};
ghost use Rattle.ledger_ends.specs.Looking.{Reach, InOrder, found_in, seen_of};

use ledger::{LedgerError, PLACES};

// Every end lies below this: no number that may arrive is as high.
const BOUND: u32 = 100_000_000;

// How many ends 8 runs have at the most, and 32: behind them a record of so few runs holds zeros.
pub const FEW: usize = 2 * 8 + 1;

pub const SOME: usize = 2 * 32 + 1;

// What a look finds where the record is one that no series leaves: how many ends are the number or above it all the same; 0 for a
// list of another length.
#[derive(Clone, Copy, Debug, PartialEq, Eq)]
pub struct Damage {
    pub from: u32,
}

impl From<Damage> for LedgerError {
    ghost from_gives = { λ _ e. e ≡ Damaged };

    fn from(_e: Damage) -> LedgerError {
        LedgerError::Damaged
    }
}

// How many ends are above 0. Counted by `filter` and `count` the compiler takes one end at a time, and an arrival in order takes
// three times as long.
fn in_use(ends: &[u32]) -> u32
    requires { length ends.now ≤ places }
    ensures { result ≡ ends_from 1 ends.now }
{
    let mut count: u32 = 0;
    for &end in ends {
        count += u32::from(1 <= end);
    }
    count
}

// A place with an end of 0, behind those of 8 runs or of 32; or the place behind the last. `reach` of ledger_arrivals asks it of the
// places behind one: a call of both would be one more to promise, for two tests.
fn zero_at(ends: &[u32]) -> usize
    requires { length ends.now ≡ places }
    ensures { result ≤ places }
{
    if ends[FEW] == 0 {
        return FEW;
    }
    if ends[SOME] == 0 {
        return SOME;
    }
    PLACES
}

// A place from which on all ends are 0.
fn used(ends: &[u32]) -> usize
    requires { length ends.now ≡ places }
    ensures { (result ≤ places) × (ends_from 1 (drop result ends.now) ≡ 0) }
{
    let to = zero_at(ends);
    if in_use(&ends[to..]) == 0 { to } else { PLACES }
}

// How many ends are a number or above it: `Ok` if each lies below the one before it, and behind the last stand zeros. One loop for
// both, without a way out: so the compiler takes several ends at a time.
fn look_over(n: u32, ends: &[u32]) -> Result<u32, Damage>
    requires { length ends.now ≤ places }
    ensures { result ≡ found_in n ends.now }
{
    let mut falls = true;
    let mut from: u32 = 0;
    let mut above = BOUND;
    for &end in ends {
        falls &= end <= above.saturating_sub(1);
        from += u32::from(n <= end);
        above = end;
    }
    if falls {
        Ok(from)
    } else {
        Err(Damage { from })
    }
}

// How far to look for a number: the ends from there on are 0. No end is below the number 0, so for that one all are counted.
fn reach(n: u32, ends: &[u32]) -> usize
    requires { length ends.now ≡ places }
    ensures { Reach result n ends.now }
{
    if n == 0 { PLACES } else { used(ends) }
}

// Whether a floor, and so many numbers given up, fit ends that are in order: the lowest stretch is settled, and ends above it.
fn floor_fits(ends: &[u32], floor: u32, given: u32) -> bool
    requires { InOrder ends.now }
    ensures { result ≡ floor_fits floor given ends.now }
{
    if given == 0 {
        return floor == 0;
    }
    if floor < given {
        return false;
    }
    let count = in_use(ends);
    count % 2 == 1 && floor < ends[count as usize - 1]
}

// Looks at a whole record: over the ends within reach, the others being 0. How many ends are a number or above it: `Ok` if a series
// of arrivals and give-ups leaves such a record: each end lies below the one before it, behind the last stand zeros, and the floor
// fits. No series leaves a list that has not as many places as a record. The record comes as three parameters and no struct, since
// the calls for C, which may not change, lend it so.
pub fn look(n: u32, ends: &[u32], floor: u32, given: u32) -> Result<u32, Damage>
    ensures { result ≡ seen_of n ends.now floor given }
{
    if ends.len() != PLACES {
        return Err(Damage { from: 0 });
    }
    let to = reach(n, ends);
    let from = look_over(n, &ends[..to])?;
    if !floor_fits(&ends[..to], floor, given) {
        return Err(Damage { from });
    }
    Ok(from)
}

// How many numbers are settled, from the lowest stretch up.
fn settled_in(ends: &[u32]) -> u32
    ensures { result ≡ settled_in ends.now }
{
    ends.iter()
        .rev()
        .fold(0, |settled: u32, &end| end.saturating_sub(settled))
}

// How many of them are heard, so many being given up.
pub fn heard_in(ends: &[u32], given: u32) -> u32
    ensures { result ≡ settled_in ends.now - given }
{
    settled_in(ends).saturating_sub(given)
}

// How many are not settled, up to the highest.
pub fn missing_in(ends: &[u32]) -> u32
    ensures { result ≡ missing_in ends.now }
{
    let Some(&highest) = ends.first() else {
        return 0;
    };
    highest.saturating_sub(settled_in(ends))
}
