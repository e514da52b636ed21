// Halts judged for writing.
ghost use Rattle.std.specs.Prelude.{◌≡◌};
ghost use Rattle.stock_frame.specs.Codec.{legal};
ghost use Rattle.stock_halts.specs.Halts.{nineteen_codec, times_right, same_resume, tidy_event};

use crate::numbers::{halt_time, resume_time};
use codes_times::time_of_day;
use stock_halts::rules::{code_fits, count_of};
use stock_halts::{Event, Halt, NINES};

// A round's end, or a time of day and a resume that is open or a time of day.
fn times_right(h: u32, r: u32) -> bool
    ensures { result ≡ times_right h r }
{
    if h == NINES {
        return r == NINES;
    }
    time_of_day(h) && (r == NINES || time_of_day(r))
}

// A resume at a time is not all nines.
fn same_resume(r: Option<u32>) -> bool
    ensures { result ≡ same_resume r }
{
    r != Some(NINES)
}

// The event is the one that its numbers tell.
fn tidy_event(code: [u8; 6], e: Event) -> bool
    ensures { result ≡ tidy_event code e }
{
    match e {
        Event::RoundEnd(n) => n == count_of(code),
        Event::Halted(t, r) => t != NINES && same_resume(r),
    }
}

// The message breaks no field's rule or range.
pub(crate) fn is_legal(m: Halt) -> bool
    ensures { result ≡ legal nineteen_codec m }
{
    let code = m.code;
    let event = m.event;
    if 99999999 < m.seq {
        return false;
    }
    let h = halt_time(event);
    let r = resume_time(event);
    if !times_right(h, r) {
        return false;
    }
    if !code_fits(&code, h == NINES) {
        return false;
    }
    tidy_event(code, event)
}
