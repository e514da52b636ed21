// One move of a walk.
ghost use Rattle.std.specs.Prelude.{◌≡◌};
ghost use Rattle.lines.specs.Lines.{move_on};

use crate::exchanges::{Exchange, read};
use walk::past::past;
use walk::rows::Row;

// The move at a place of a line. The next one is at the place behind its bytes.
pub fn move_at(exchange: Exchange, line: &[u8], at: usize, closed: bool) -> Option<Row>
    ensures { result ≡ move_on exchange closed at line.now }
{
    if line.len() <= at {
        return None;
    }
    let answer = read(exchange, line, at);
    let n = past(answer, closed);
    if n == 0 {
        return None;
    }
    let row = Row {
        at: at as u64,
        bytes: n as u64,
        answer,
    };
    Some(row)
}
