// The figures of a walk, and the tally that they move on.
ghost use Rattle.std.specs.Prelude.{◌≡◌};
ghost use Rattle.walk.specs.Tally.{tally_of, tallied_of};
ghost use Rattle.lines.specs.Lines.{answers_on};

use crate::exchanges::{Exchange, read};
use walk::past::past;
use walk::tally::{Tallied, Tally};

// The four figures of one walk over a line.
pub fn figures(exchange: Exchange, line: &[u8], closed: bool) -> Tally
    ensures { result ≡ tally_of (answers_on exchange) closed line.now }
{
    let mut t = Tally::empty();
    let mut at = 0;
    // no range: a turn goes past as many bytes as were met
    while at < line.len() {
        let answer = read(exchange, line, at);
        let n = past(answer, closed);
        if n == 0 {
            t.waiting = (line.len() - at) as u64;
            return t;
        }
        t = t.counted(answer, n as u64);
        at += n;
    }
    t
}

// A tally moved on by a walk, or 16 with the tally as it came.
pub fn walked(exchange: Exchange, t: Tally, line: &[u8], closed: bool) -> Tallied
    ensures { result ≡ tallied_of (answers_on exchange) t closed line.now }
{
    let n = line.len() as u64;
    if t.has_room(n) {
        let w = figures(exchange, line, closed);
        return Tallied {
            tally: t.plus(w),
            answer: 0,
        };
    }
    Tallied {
        tally: t,
        answer: 16,
    }
}
