// The event and the state of a body's parts.
ghost use Rattle.std.specs.Prelude.{◌≡◌, cond};
ghost use Rattle.stock_halts.specs.Halts.{state_right, ascii_from, resume_of, sending_of};
ghost use Rattle.stock_halts.specs.declared.Event.TheVariants.{RoundEnd, Halted};

use stock_halts::rules::count_of;
use stock_halts::{Event, NINES, Sending};

pub(crate) fn state_right(s: u8) -> bool
    ensures { result ≡ state_right s }
{
    matches!(s, b'C' | b'I')
}

fn resume_of(t: u32) -> Option<u32>
    ensures { result ≡ resume_of t }
{
    (t != NINES).then_some(t)
}

pub(crate) fn event_of(code: [u8; 6], round: bool, h: u32, r: u32) -> Event
    ensures { result ≡ cond round (RoundEnd (ascii_from 0 code)) (Halted h (resume_of r)) }
{
    if round {
        Event::RoundEnd(count_of(code))
    } else {
        Event::Halted(h, resume_of(r))
    }
}

pub(crate) fn sending_of(s: u8) -> Sending
    ensures { result ≡ sending_of s }
{
    if s == b'C' {
        Sending::Cycle
    } else {
        Sending::Instant
    }
}
