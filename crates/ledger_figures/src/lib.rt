// The figures of a ledger and its missing runs. Every call first answers 20 to a record that no series leaves.
#![tactic(auto)]

ghost use Rattle.std.specs.Prelude.{◌≡◌};
ghost use Rattle.ledger.specs.Ends.{ends_from};
ghost use Rattle.ledger.specs.Calls.{figure_of, highest_of, heard_of, missing_of, runs_of, floor_of, given_up_of, run_of};

use ledger::{Ledger, LedgerError, Run};
use ledger_ends::{heard_in, look, missing_in};

// How many ends are above 0, of a record that a series leaves.
fn in_use(ledger: &Ledger) -> Result<u32, LedgerError>
    ensures { result ≡ figure_of ledger.now (ends_from 1 ledger.now.ends) }
{
    let count = look(1, &ledger.ends, ledger.floor, ledger.given)?;
    Ok(count)
}

// The highest number recorded.
pub fn highest(ledger: Ledger) -> Result<u32, LedgerError>
    ensures { result ≡ highest_of ledger }
{
    in_use(&ledger)?;
    Ok(ledger.ends[0])
}

// How many numbers are recorded.
pub fn heard(ledger: Ledger) -> Result<u32, LedgerError>
    ensures { result ≡ heard_of ledger }
{
    in_use(&ledger)?;
    Ok(heard_in(&ledger.ends, ledger.given))
}

// How many numbers below the highest are neither recorded nor given up.
pub fn missing(ledger: Ledger) -> Result<u32, LedgerError>
    ensures { result ≡ missing_of ledger }
{
    in_use(&ledger)?;
    Ok(missing_in(&ledger.ends))
}

// The last number of the run that was given up last, or 0.
pub fn floor(ledger: Ledger) -> Result<u32, LedgerError>
    ensures { result ≡ floor_of ledger }
{
    in_use(&ledger)?;
    Ok(ledger.floor)
}

// How many numbers were given up.
pub fn given_up(ledger: Ledger) -> Result<u32, LedgerError>
    ensures { result ≡ given_up_of ledger }
{
    in_use(&ledger)?;
    Ok(ledger.given)
}

// How many unbroken runs are missing.
pub fn runs(ledger: Ledger) -> Result<u32, LedgerError>
    ensures { result ≡ runs_of ledger }
{
    let ends = in_use(&ledger)?;
    Ok(ends / 2)
}

// The missing run at a place, the lowest at 0.
pub fn run(ledger: Ledger, place: u32) -> Result<Run, LedgerError>
    ensures { result ≡ run_of ledger place }
{
    let count = in_use(&ledger)? / 2;
    if count <= place {
        return Err(LedgerError::NoSuchRun);
    }
    let end = 2 * (count - place) as usize;
    Ok(Run {
        first: ledger.ends[end] + 1,
        last: ledger.ends[end - 1],
    })
}
