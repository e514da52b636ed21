// Format nineteen: trading halts.
#![tactic(auto)]

ghost use Rattle.std.specs.Prelude.{◌≡◌};
ghost use Rattle.stock_halts.specs.Halts.{no_halt};

pub mod rules;

use answers::Answer;

#[derive(Clone, Copy)]
pub enum Event {
    // the end of a round, with the number of records in it
    RoundEnd(u32),
    // halted at HHMMSS, and when trading is resumed, HHMMSS; none while that is still open: 999999
    Halted(u32, Option<u32>),
}

// How the record is sent.
#[derive(Clone, Copy)]
pub enum Sending {
    // `C`: with all of the day's records, round after round
    Cycle,
    // `I`: at once
    Instant,
}

// A halt of the stock with this code (`000000`: of the whole market), or a round's end.
#[derive(Clone, Copy)]
pub struct Halt {
    pub seq: u32,
    pub code: [u8; 6],
    pub event: Event,
    pub state: Sending,
}

// What reading a body finds; the halt is the empty one where the answer is a refusal.
// It is no `Result`: beside a frame of another kind, which is accepted, stands the empty one too.
#[derive(Clone, Copy)]
pub struct HaltReading {
    pub answer: Answer,
    pub halt: Halt,
}

// All nines in a time's place.
pub const NINES: u32 = 999999;

// The empty halt, which stands beside a refusal.
pub fn empty() -> Halt
    ensures { result ≡ no_halt }
{
    Halt {
        seq: 0,
        code: [0u8; 6],
        event: Event::RoundEnd(0),
        state: Sending::Cycle,
    }
}
