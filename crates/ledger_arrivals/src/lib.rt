// The arrival of a number at a ledger. A record that no series of arrivals and give-ups leaves is answered 20 first.
#![tactic(auto)]

ghost use Rattle.std.specs.Prelude.{◌≡◌};
ghost use Rattle.ledger.specs.Calls.{ledger_of, arrived_of, lent_arrived_of};

mod moving;
mod recording;

use crate::recording::take_run;
use ledger::{Answered, Arrival, Ledger, LedgerError};
use ledger_ends::look;

// The largest number that may arrive.
const MOST: u32 = 99_999_999;

// The arrival of a number in a ledger whose ends are lent, without a copy. A list that has not a record's length is a record
// that no series leaves. An arrival leaves the floor, and what was given up, as it is.
pub fn arrive_lent(ends: &mut [u32], floor: u32, given: u32, n: u32) -> Result<Arrival, LedgerError>
    ensures { record { ledger = ledger_of ends.new floor given; answer = result } ≡ lent_arrived_of (ledger_of ends.old floor given) n }
{
    let from = look(n, ends, floor, given)?;
    if n == 0 || MOST < n {
        return Err(LedgerError::OutOfRange);
    }
    if n <= floor {
        return Err(LedgerError::NotAboveFloor);
    }
    if from % 2 == 1 {
        return Ok(Arrival::Repeat);
    }
    take_run(ends, from as usize, n - 1, n)
}

// The arrival of a number.
pub fn arrive(ledger: Ledger, n: u32) -> Answered<Arrival>
    ensures { result ≡ arrived_of ledger n }
{
    let Ledger {
        mut ends,
        floor,
        given,
    } = ledger;
    let answer = arrive_lent(&mut ends, floor, given, n);
    let ledger = Ledger { ends, floor, given };
    Answered { ledger, answer }
}
