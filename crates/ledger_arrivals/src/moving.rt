// Ends moved by two places in a record's list.
ghost use Rattle.std.specs.Prelude.{◌≡◌, ◌∷◌, [], ◌++◌, ◌+◌, ◌-◌, ◌≤◌, take, drop};
ghost use Rattle.ledger_arrivals.specs.Steps.{RoomAt};

use ledger::PLACES;
use ledger_ends::{FEW, SOME};

// A place at or behind this one from which on moving ends by two places changes none: they are all 0, or there are no more.
fn reach(ends: &[u32], at: usize) -> usize
    requires { RoomAt at ends.now }
    ensures { (at ≤ result) × (result ≤ 127) × (take (127 - result) (drop result ends.now) ≡ drop (result + 2) ends.now) }
{
    if at < FEW && ends[FEW] == 0 {
        return FEW;
    }
    if at < SOME && ends[SOME] == 0 {
        return SOME;
    }
    PLACES - 2
}

// Takes the two ends from a place on away.
pub(crate) fn close(ends: &mut [u32], at: usize)
    requires { RoomAt at ends.old }
    ensures { ends.new ≡ take at ends.old ++ (drop (at + 2) ends.old ++ (0 ∷ 0 ∷ [])) }
{
    let to = reach(ends, at);
    ends.copy_within(at + 2..to + 2, at);
    ends[PLACES - 2] = 0;
    ends[PLACES - 1] = 0;
}

// Puts two ends at a place; what the last two places held is gone.
pub(crate) fn open(ends: &mut [u32], at: usize, last: u32, before: u32)
    requires { RoomAt at ends.old }
    ensures { ends.new ≡ take at ends.old ++ (last ∷ before ∷ take (127 - at) (drop at ends.old)) }
{
    let to = reach(ends, at);
    ends.copy_within(at..to, at + 2);
    ends[at] = last;
    ends[at + 1] = before;
}
