// Calls for C and Rust: the ledger, lent as its 129 ends, its floor and how many numbers were given up.
#![tactic(auto)]

ghost use Rattle.std.specs.Prelude.{◌≡◌};
ghost use Rattle.ledger.specs.Calls.{fresh, ledger_of, arrived_of, gave_up_of, highest_of, heard_of, missing_of, runs_of, floor_of, given_up_of, run_of};
ghost use Rattle.c_ledger.specs.Outcomes.{arrival_outcome, figure_outcome, run_outcome};

use ledger::{Arrival, Ledger, LedgerError, Run};
use ledger_arrivals::arrive_lent;
use ledger_figures::{given_up, heard, highest, missing, run, runs};
use ledger_give_up::give_up_lent;

// Of an arrival: above the answer stands how many numbers more are heard.
fn arrival_outcome(arrival: Result<Arrival, LedgerError>) -> u64
    ensures { result ≡ arrival_outcome arrival }
{
    match arrival {
        Ok(Arrival::New) => 256,
        Ok(Arrival::Repeat) => 0,
        Err(e) => u64::from(e.number()),
    }
}

// Of a question for a figure, which stands above the answer.
fn figure_outcome(figure: Result<u32, LedgerError>) -> u64
    ensures { result ≡ figure_outcome figure }
{
    match figure {
        Ok(n) => 256 * u64::from(n),
        Err(e) => u64::from(e.number()),
    }
}

// Of a question for a run: its first number in 28 bits above the answer, then its last.
fn run_outcome(run: Result<Run, LedgerError>) -> u64
    ensures { result ≡ run_outcome run }
{
    match run {
        Ok(Run { first, last }) => 256 * u64::from(first % 268435456)
            + 68719476736 * u64::from(last % 268435456),
        Err(e) => u64::from(e.number()),
    }
}

// The ledger that is lent so.
fn lent(ends: &[u32; 129], floor: u32, given: u32) -> Ledger
    ensures { result ≡ ledger_of ends.now floor given }
{
    let ends = *ends;
    Ledger { ends, floor, given }
}

// The fresh ledger, for a new day.
pub fn trivsome_clear(ends: &mut [u32; 129], floor: &mut u32, given: &mut u32)
    ensures { ledger_of ends.new floor.new given.new ≡ fresh }
{
    *ends = [0; 129];
    *floor = 0;
    *given = 0;
}

// The arrival of a number: new, repeat, 20, 21, 22 or 25.
pub fn trivsome_arrive(ends: &mut [u32; 129], floor: u32, given: u32, n: u32) -> u64
    ensures value { result ≡ arrival_outcome (arrived_of (ledger_of ends.old floor given) n).answer }
    ensures ends_after { ends.new ≡ (arrived_of (ledger_of ends.old floor given) n).ledger.ends }
{
    arrival_outcome(arrive_lent(ends, floor, given, n))
}

// Gives the lowest missing run up: its first and its last number, 20 or 24.
pub fn trivsome_give_up(ends: &mut [u32; 129], floor: &mut u32, given: &mut u32) -> u64
    ensures value { result ≡ run_outcome (gave_up_of (ledger_of ends.old floor.old given.old)).answer }
    ensures given_after { ledger_of ends.new floor.new given.new
        ≡ (gave_up_of (ledger_of ends.old floor.old given.old)).ledger }
{
    run_outcome(give_up_lent(ends, floor, given))
}

// The highest number recorded.
pub fn trivsome_highest(ends: &[u32; 129], floor: u32, given: u32) -> u64
    ensures { result ≡ figure_outcome (highest_of (ledger_of ends.now floor given)) }
{
    figure_outcome(highest(lent(ends, floor, given)))
}

// How many numbers are recorded.
pub fn trivsome_heard(ends: &[u32; 129], floor: u32, given: u32) -> u64
    ensures { result ≡ figure_outcome (heard_of (ledger_of ends.now floor given)) }
{
    figure_outcome(heard(lent(ends, floor, given)))
}

// How many numbers below the highest are neither recorded nor given up.
pub fn trivsome_missing(ends: &[u32; 129], floor: u32, given: u32) -> u64
    ensures { result ≡ figure_outcome (missing_of (ledger_of ends.now floor given)) }
{
    figure_outcome(missing(lent(ends, floor, given)))
}

// The last number of the run that was given up last, or 0.
pub fn trivsome_floor(ends: &[u32; 129], floor: u32, given: u32) -> u64
    ensures { result ≡ figure_outcome (floor_of (ledger_of ends.now floor given)) }
{
    figure_outcome(ledger_figures::floor(lent(ends, floor, given)))
}

// How many numbers were given up.
pub fn trivsome_given_up(ends: &[u32; 129], floor: u32, given: u32) -> u64
    ensures { result ≡ figure_outcome (given_up_of (ledger_of ends.now floor given)) }
{
    figure_outcome(given_up(lent(ends, floor, given)))
}

// How many unbroken runs are missing.
pub fn trivsome_runs(ends: &[u32; 129], floor: u32, given: u32) -> u64
    ensures { result ≡ figure_outcome (runs_of (ledger_of ends.now floor given)) }
{
    figure_outcome(runs(lent(ends, floor, given)))
}

// The missing run at a place, the lowest at 0: its first and its last number, 20 or 23.
pub fn trivsome_run(ends: &[u32; 129], floor: u32, given: u32, place: u32) -> u64
    ensures { result ≡ run_outcome (run_of (ledger_of ends.now floor given) place) }
{
    run_outcome(run(lent(ends, floor, given), place))
}
