// Calls for C and Rust: the ledger, lent as its 129 ends, its floor and how many numbers were given up.
ghost use Rattle.std.specs.Prelude.{◌≡◌};
ghost use Rattle.ledger.specs.Calls.{fresh, ledger_of, arrived_of, gave_up_of, highest_of, heard_of, missing_of, runs_of, floor_of, given_up_of, run_of};
ghost use Rattle.c_ledger.specs.Outcomes.{arrival_outcome, figure_outcome, run_outcome};

// The fresh ledger, for a new day.
#[unsafe(no_mangle)]
pub extern "C" fn trivsome_clear(ends: &mut [u32; 129], floor: &mut u32, given: &mut u32)
    ensures { ledger_of ends.new floor.new given.new ≡ fresh }
{
    c_ledger::trivsome_clear(ends, floor, given)
}

// The arrival of a number: new, repeat, 20, 21, 22 or 25.
#[unsafe(no_mangle)]
pub extern "C" fn trivsome_arrive(ends: &mut [u32; 129], floor: u32, given: u32, n: u32) -> u64
    ensures value { result ≡ arrival_outcome (arrived_of (ledger_of ends.old floor given) n).answer }
    ensures ends_after { ends.new ≡ (arrived_of (ledger_of ends.old floor given) n).ledger.ends }
{
    c_ledger::trivsome_arrive(ends, floor, given, n)
}

// Gives the lowest missing run up: its first and its last number, 20 or 24.
#[unsafe(no_mangle)]
pub extern "C" fn trivsome_give_up(ends: &mut [u32; 129], floor: &mut u32, given: &mut u32) -> u64
    ensures value { result ≡ run_outcome (gave_up_of (ledger_of ends.old floor.old given.old)).answer }
    ensures given_after { ledger_of ends.new floor.new given.new
        ≡ (gave_up_of (ledger_of ends.old floor.old given.old)).ledger }
{
    c_ledger::trivsome_give_up(ends, floor, given)
}

// The highest number recorded.
#[unsafe(no_mangle)]
pub extern "C" fn trivsome_highest(ends: &[u32; 129], floor: u32, given: u32) -> u64
    ensures { result ≡ figure_outcome (highest_of (ledger_of ends.now floor given)) }
{
    c_ledger::trivsome_highest(ends, floor, given)
}

// How many numbers are recorded.
#[unsafe(no_mangle)]
pub extern "C" fn trivsome_heard(ends: &[u32; 129], floor: u32, given: u32) -> u64
    ensures { result ≡ figure_outcome (heard_of (ledger_of ends.now floor given)) }
{
    c_ledger::trivsome_heard(ends, floor, given)
}

// How many numbers below the highest are neither recorded nor given up.
#[unsafe(no_mangle)]
pub extern "C" fn trivsome_missing(ends: &[u32; 129], floor: u32, given: u32) -> u64
    ensures { result ≡ figure_outcome (missing_of (ledger_of ends.now floor given)) }
{
    c_ledger::trivsome_missing(ends, floor, given)
}

// The last number of the run that was given up last, or 0.
#[unsafe(no_mangle)]
pub extern "C" fn trivsome_floor(ends: &[u32; 129], floor: u32, given: u32) -> u64
    ensures { result ≡ figure_outcome (floor_of (ledger_of ends.now floor given)) }
{
    c_ledger::trivsome_floor(ends, floor, given)
}

// How many numbers were given up.
#[unsafe(no_mangle)]
pub extern "C" fn trivsome_given_up(ends: &[u32; 129], floor: u32, given: u32) -> u64
    ensures { result ≡ figure_outcome (given_up_of (ledger_of ends.now floor given)) }
{
    c_ledger::trivsome_given_up(ends, floor, given)
}

// How many unbroken runs are missing.
#[unsafe(no_mangle)]
pub extern "C" fn trivsome_runs(ends: &[u32; 129], floor: u32, given: u32) -> u64
    ensures { result ≡ figure_outcome (runs_of (ledger_of ends.now floor given)) }
{
    c_ledger::trivsome_runs(ends, floor, given)
}

// The missing run at a place, the lowest at 0: its first and its last number, 20 or 23.
#[unsafe(no_mangle)]
pub extern "C" fn trivsome_run(ends: &[u32; 129], floor: u32, given: u32, place: u32) -> u64
    ensures { result ≡ run_outcome (run_of (ledger_of ends.now floor given) place) }
{
    c_ledger::trivsome_run(ends, floor, given, place)
}
