// The frames of a line whose outlines are whole, one after another, their bodies not yet read: a caller reads the bodies that
// it wants, each once.
ghost use Rattle.std.specs.Prelude.{◌≡◌, drop};
ghost use Rattle.stock_lines.specs.Lines.{next_frame};
ghost use Rattle.stock_lines.specs.Steps.{met_of};

use stock_frame::head::Head;
use stock_frame::outline::outline;
use walk::past::past;
use walk::stretch::noise;

// Both outcomes have a place of their own, and neither is an error: a pair of an Option and a place would give the place two meanings.
#[derive(Clone, Copy)]
pub enum Ahead {
    // the header of the next frame, and its place on the line
    Frame(Head, usize),
    // none: the walk stopped at this place
    Nothing(usize),
}

// What a walk meets at a place: a frame, or bytes to go past, 0 where the walk stops; neither is an error.
#[derive(Clone, Copy)]
enum Met {
    Whole(Head),
    Past(usize),
}

// Bytes before the next 27 are met at once.
fn met_at(line: &[u8], at: usize, closed: bool) -> Met
    ensures { result ≡ met_of closed (drop at line.now) }
{
    let n = noise(line, at);
    if n > 0 {
        return Met::Past(n);
    }
    match outline(line, at) {
        Ok(head) => Met::Whole(head),
        Err(answer) => {
            let n = past(answer, closed);
            Met::Past(n)
        }
    }
}

// The next frame from a place on. Its body stands from byte 11 up to the last three; the walk goes on behind its length.
pub fn next_frame(line: &[u8], at: usize, closed: bool) -> Ahead
    ensures { result ≡ next_frame closed at line.now }
{
    let mut at = at;
    // no range: a turn goes past as many bytes as were met
    while at < line.len() {
        match met_at(line, at, closed) {
            Met::Whole(head) => {
                return Ahead::Frame(head, at);
            }
            Met::Past(n) => {
                if n == 0 {
                    return Ahead::Nothing(at);
                }
                at += n;
            }
        }
    }
    Ahead::Nothing(at)
}
