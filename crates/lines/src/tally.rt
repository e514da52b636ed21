// The desk's tally, lent and moved on by a walk.
ghost use Rattle.std.specs.Prelude.{◌≡◌};
ghost use Rattle.walk.specs.Tally.{tallied_of};
ghost use Rattle.lines.specs.Lines.{answers_on};

use crate::exchanges::Exchange;
use crate::figures::walked;
use walk::tally::Tally;

// Walks a line and moves the lent tally on by its figures, and answers 0; or answers 16 and leaves the tally as it came.
pub fn walk_line(exchange: Exchange, t: &mut Tally, line: &[u8], closed: bool) -> u8
    ensures { (result ≡ (tallied_of (answers_on exchange) t.old closed line.now).answer)
        × (t.new ≡ (tallied_of (answers_on exchange) t.old closed line.now).tally) }
{
    let m = walked(exchange, *t, line, closed);
    *t = m.tally;
    m.answer
}
