// A message's parts as numbers.
ghost use Rattle.std.specs.Prelude.{◌≡◌};
ghost use Rattle.stock_halts.specs.Halts.{resume_number, halt_number, resume_number_of, sending_byte};

use stock_halts::{Event, NINES, Sending};

// A resume's number.
fn resume_number(r: Option<u32>) -> u32
    ensures { result ≡ resume_number r }
{
    r.unwrap_or(NINES)
}

// An event's two times.
pub(crate) fn halt_time(e: Event) -> u32
    ensures { result ≡ halt_number e }
{
    match e {
        Event::RoundEnd(_) => NINES,
        Event::Halted(t, _) => t,
    }
}

pub(crate) fn resume_time(e: Event) -> u32
    ensures { result ≡ resume_number_of e }
{
    match e {
        Event::RoundEnd(_) => NINES,
        Event::Halted(_, r) => resume_number(r),
    }
}

pub(crate) fn sending_byte(s: Sending) -> u8
    ensures { result ≡ sending_byte s }
{
    match s {
        Sending::Cycle => b'C',
        Sending::Instant => b'I',
    }
}
