// The rows of a line that comes in pieces.
ghost use Rattle.std.specs.Prelude.{◌≡◌, drop};
ghost use Rattle.lines.specs.Lines.{stretch_on, next_rows_on};

use crate::exchanges::{Exchange, read};
use answers::Answer;
use walk::past::past;
use walk::rows::{Kept, Next, RowsError, Told};
use walk::stretch::{Stretch, noise};

// Bytes before the next 27 are all skipped for the same reason, and are met at once.
pub fn stretch_at(exchange: Exchange, line: &[u8], at: usize, closed: bool) -> Stretch
    ensures { result ≡ stretch_on exchange closed (drop at line.now) }
{
    let n = noise(line, at);
    if n > 0 {
        return Stretch {
            answer: Answer::NoFrame(1, None),
            bytes: n,
        };
    }
    let answer = read(exchange, line, at);
    let bytes = past(answer, closed);
    Stretch { answer, bytes }
}

// The next rows from a place on. The bytes before that place are done with; where the walk stopped, the bytes from there on
// stay in front of the next piece.
pub fn next_rows(
    exchange: Exchange,
    line: &[u8],
    at: usize,
    kept: Kept,
    closed: bool,
) -> Result<Next, RowsError>
    ensures { result ≡ next_rows_on exchange closed kept at line.now }
{
    let mut kept = kept;
    let mut at = at;
    // no range: a turn goes past as many bytes as were met
    while at < line.len() {
        let s = stretch_at(exchange, line, at, closed);
        let n = s.bytes;
        let answer = s.answer;
        if n == 0 {
            return Ok(Next::Stopped(kept, at));
        }
        at += n;
        match kept.told(answer, n as u64)? {
            Told::Nothing(later) => {
                kept = later;
            }
            Told::One(row, later) => {
                return Ok(Next::OneRow(row, later, at));
            }
            Told::Two(skipped, row, later) => {
                return Ok(Next::TwoRows(skipped, row, later, at));
            }
        }
    }
    Ok(Next::Stopped(kept, at))
}
