// The ledger of one format, line and day: the record that a desk lends, and the answers to its calls.
#![tactic(auto)]

ghost use Rattle.std.specs.Prelude.{◌≡◌};
ghost use Rattle.ledger.specs.Calls.{error_number, fresh};

// The places of a record: the highest number, and two ends for each of 64 missing runs.
pub const PLACES: usize = 2 * 64 + 1;

// A number is settled when it was recorded, or is not above the floor: nothing more is waited for.
#[derive(Clone, Copy, Debug, PartialEq, Eq)]
pub struct Ledger {
    // The numbers from 1 to the highest fall into unbroken stretches, settled and missing by turns. From the top down, the
    // last number of each stretch, first the highest, which ends a settled one; then zeros.
    pub ends: [u32; PLACES],
    // the last number of the run that was given up last, 0 if there is none
    pub floor: u32,
    // how many numbers were given up: those up to the floor that were never recorded
    pub given: u32,
}

// Why a call is refused.
#[derive(Clone, Copy, Debug, PartialEq, Eq)]
pub enum LedgerError {
    // no series of arrivals and give-ups leaves the record
    Damaged,
    // the number is 0 or above 99,999,999
    OutOfRange,
    // there would be more than 64 missing runs
    TooManyRuns,
    // there is no run at the place
    NoSuchRun,
    // there is no run to give up
    NothingMissing,
    // the number is the floor or below it
    NotAboveFloor,
}

impl LedgerError {
    // The paper's number of a refusal.
    pub fn number(self) -> u8
        ensures { result ≡ error_number self }
    {
        match self {
            LedgerError::Damaged => 20,
            LedgerError::OutOfRange => 21,
            LedgerError::TooManyRuns => 22,
            LedgerError::NoSuchRun => 23,
            LedgerError::NothingMissing => 24,
            LedgerError::NotAboveFloor => 25,
        }
    }
}

// What an arrival is answered that is not refused.
#[derive(Clone, Copy, Debug, PartialEq, Eq)]
pub enum Arrival {
    New,
    Repeat,
}

// A missing run.
#[derive(Clone, Copy, Debug, PartialEq, Eq)]
pub struct Run {
    pub first: u32,
    pub last: u32,
}

// The ledger after an arrival or after giving its lowest missing run up; as it was unless the answer is `New` or a run.
#[derive(Clone, Copy, Debug, PartialEq, Eq)]
pub struct Answered<T> {
    pub ledger: Ledger,
    pub answer: Result<T, LedgerError>,
}

// The fresh ledger, for a new day.
pub fn clear() -> Ledger
    ensures { result ≡ fresh }
{
    Ledger {
        ends: [0; PLACES],
        floor: 0,
        given: 0,
    }
}
