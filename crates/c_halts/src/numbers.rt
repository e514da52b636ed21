// Halts as numbers, and back.
ghost use Rattle.std.specs.Prelude.{◌≡◌};
ghost use Rattle.stock_halts.specs.Halts.{resume_number, resume_of, sending_byte, sending_of, state_right};
ghost use Rattle.c_halts.specs.Halts.{halt_numbers, tells_halt, event_from, halt_from};

use stock_halts::{Event, Halt, Sending};

// All nines in a time's place.
const NINES: u32 = 999999;

// A resume's number, and a state's.
fn resume_number(r: Option<u32>) -> u32
    ensures { result ≡ resume_number r }
{
    r.unwrap_or(NINES)
}

fn state_byte(s: Sending) -> u32
    ensures { result ≡ sending_byte s }
{
    match s {
        Sending::Cycle => 67,
        Sending::Instant => 73,
    }
}

// A halt's event, its number, its resume and its state.
pub(crate) fn halt_numbers(h: Halt) -> [u32; 4]
    ensures { result ≡ halt_numbers h }
{
    let event = h.event;
    let sending = h.state;
    let state = state_byte(sending);
    match event {
        Event::RoundEnd(n) => [0, n, 0, state],
        Event::Halted(t, r) => [1, t, resume_number(r), state],
    }
}

// Whether a state is one of the two.
fn known_state(b: u32) -> bool
    ensures { result ≡ state_right b }
{
    b == 67 || b == 73
}

// Whether four numbers tell a halt.
pub(crate) fn tells_halt(event: &[u32; 4]) -> bool
    ensures { result ≡ tells_halt event.now }
{
    if !known_state(event[3]) {
        return false;
    }
    if event[0] == 0 {
        return event[2] == 0;
    }
    event[0] == 1
}

// A resume of its number.
fn resume_of(t: u32) -> Option<u32>
    ensures { result ≡ resume_of t }
{
    if t == NINES { None } else { Some(t) }
}

// A state of its byte.
fn sending_of(b: u32) -> Sending
    ensures { result ≡ sending_of b }
{
    if b == 67 {
        Sending::Cycle
    } else {
        Sending::Instant
    }
}

// The event of its numbers.
fn event_of(event: &[u32; 4]) -> Event
    ensures { result ≡ event_from event.now }
{
    if event[0] == 0 {
        return Event::RoundEnd(event[1]);
    }
    Event::Halted(event[1], resume_of(event[2]))
}

// The halt of a number, a code and such numbers.
pub(crate) fn halt_of(seq: u32, code: &[u8; 6], event: &[u32; 4]) -> Halt
    ensures { result ≡ halt_from seq code.now event.now }
{
    let state = sending_of(event[3]);
    let event = event_of(event);
    let code = *code;
    Halt {
        seq,
        code,
        event,
        state,
    }
}
