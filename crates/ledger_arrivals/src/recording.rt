// A missing run recorded among the ends.
ghost use Rattle.std.specs.Prelude.{◌≡◌, ◌+◌, get_or};
ghost use Rattle.ledger.specs.Ends.{with_run};
ghost use Rattle.ledger_arrivals.specs.Steps.{NoneBetween, Alone, taken_answer, taken_ends};

use crate::moving::{close, open};
use ledger::{Arrival, LedgerError, PLACES};

// Records the last numbers of the missing stretch that ends at a place, those above `before`: it ends there, or is gone.
fn shorten(ends: &mut [u32], at: usize, before: u32)
    requires { NoneBetween (at + 1) before (get_or ends.old at 0) ends.old }
    ensures { ends.new ≡ taken_ends (with_run before (get_or ends.old at 0) ends.old) ends.old }
{
    if ends[at + 1] == before {
        close(ends, at);
    } else {
        ends[at] = before;
    }
}

// A run that meets no settled stretch: two ends more, if there is room for them.
fn stand_alone(ends: &mut [u32], at: usize, before: u32, last: u32) -> Result<Arrival, LedgerError>
    requires { Alone at before last ends.old }
    ensures value { result ≡ taken_answer (with_run before last ends.old) }
    ensures ends_after { ends.new ≡ taken_ends (with_run before last ends.old) ends.old }
{
    if ends[PLACES - 2] != 0 {
        return Err(LedgerError::TooManyRuns);
    }
    open(ends, at, last, before);
    Ok(Arrival::New)
}

// Records the numbers above `before` up to `last`, which are missing, if that leaves no more than 64 runs; `at` ends are
// `last` or above.
pub(crate) fn take_run(
    ends: &mut [u32],
    at: usize,
    before: u32,
    last: u32,
) -> Result<Arrival, LedgerError>
    requires { NoneBetween at before last ends.old }
    ensures value { result ≡ taken_answer (with_run before last ends.old) }
    ensures ends_after { ends.new ≡ taken_ends (with_run before last ends.old) ends.old }
{
    if 0 < at && ends[at - 1] == last {
        shorten(ends, at - 1, before);
        return Ok(Arrival::New);
    }
    if ends[at] == before {
        ends[at] = last;
        return Ok(Arrival::New);
    }
    stand_alone(ends, at, before, last)
}
