// Giving up a ledger's lowest missing run. A record that no series of arrivals and give-ups leaves is answered 20 first.
#![tactic(auto)]

ghost use Rattle.std.specs.Prelude.{◌≡◌};
ghost use Rattle.ledger.specs.Calls.{ledger_of, gave_up_of, lent_gave_up_of};

use ledger::{Answered, Ledger, LedgerError, Run};
use ledger_ends::look;

// Gives the lowest run up in a ledger that is lent as its ends, its floor and how many numbers were given up, without a copy.
// A list that has not a record's length is a record that no series leaves. The run's end and that of the stretch below it are
// the last ones.
pub fn give_up_lent(ends: &mut [u32], floor: &mut u32, given: &mut u32) -> Result<Run, LedgerError>
    ensures { record { ledger = ledger_of ends.new floor.new given.new; answer = result }
        ≡ lent_gave_up_of (ledger_of ends.old floor.old given.old) }
{
    let count = look(1, ends, *floor, *given)? / 2;
    if count == 0 {
        return Err(LedgerError::NothingMissing);
    }
    let end = 2 * count as usize;
    let before = ends[end];
    let last = ends[end - 1];
    ends[end] = 0;
    ends[end - 1] = 0;
    *floor = last;
    *given += last - before;
    Ok(Run {
        first: before + 1,
        last,
    })
}

// Gives the lowest run up.
pub fn give_up(ledger: Ledger) -> Answered<Run>
    ensures { result ≡ gave_up_of ledger }
{
    let Ledger {
        mut ends,
        mut floor,
        mut given,
    } = ledger;
    let answer = give_up_lent(&mut ends, &mut floor, &mut given);
    let ledger = Ledger { ends, floor, given };
    Answered { ledger, answer }
}
