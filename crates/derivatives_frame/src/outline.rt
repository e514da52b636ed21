// Where a frame begins and ends on a line: the checks up to the header's digits. `stock_frame` has the same steps at other places of its own
// header. Each exchange keeps its own: its wrong programs are edits of these lines, and one function for both would take each place.
ghost use Rattle.std.specs.Prelude.{◌≡◌, ◌≤◌, cond, [], ◌∷◌, length, drop, None, Some};
ghost use Rattle.digits.specs.Packed.{value};
ghost use Rattle.frame.specs.Header.{right_length};
ghost use Rattle.derivatives_frame.specs.Outline.{header, outline_of};
ghost use Rattle.derivatives_frame.specs.Steps.{own_outline};

use crate::head::Head;
use crate::places::{head_place, length_place};
use answers::Answer;
use words::blocks::eight_at;
use words::xor::xor_of;

// The whole length that a frame's body length gives, if it gives one.
fn length_in(a: u8, b: u8) -> Option<usize>
    ensures { result ≡ cond (right_length header (a ∷ b ∷ [])) (Some (header.whole (value (a ∷ b ∷ [])))) None }
{
    let a1 = a / 16;
    let a2 = a % 16;
    let b1 = b / 16;
    let b2 = b % 16;
    if a1 > 9 || a2 > 9 || b1 > 9 || b2 > 9 {
        return None;
    }
    let n = 17 + (a1 * 10 + a2) as usize * 100 + (b1 * 10 + b2) as usize;
    if n > 1024 { None } else { Some(n) }
}

// The outline of a frame's own bytes, whose first byte and length are known.
fn own_outline(f: &[u8]) -> Result<Head, Answer>
    requires { (17 ≤ length f.now) × (length f.now ≤ 1024) }
    ensures { result ≡ own_outline f.now }
{
    let n = f.len();
    if f[n - 2] != 13 || f[n - 1] != 10 {
        return Err(Answer::NoFrame(4, None));
    }
    let x = xor_of(&f[1..n - 3]);
    if f[n - 3] != x {
        return Err(Answer::NoFrame(5, None));
    }
    let h = eight_at(f, 3);
    let high = f[11] / 16;
    let low = f[11] % 16;
    if h.good && high <= 9 && low <= 9 {
        return Ok(Head {
            market: f[1],
            kind: f[2],
            sent: h.first,
            seq: h.last,
            version: high * 10 + low,
            length: n,
        });
    }
    Err(Answer::Refused(6, n, head_place(f)))
}

// The outline of the bytes from a place.
pub fn outline(line: &[u8], at: usize) -> Result<Head, Answer>
    ensures { result ≡ outline_of (drop at line.now) }
{
    if line.len() <= at {
        return Err(Answer::NoFrame(2, None));
    }
    if line[at] != 27 {
        return Err(Answer::NoFrame(1, None));
    }
    let left = line.len() - at;
    if left < 14 {
        return Err(Answer::NoFrame(2, None));
    }
    let Some(n) = length_in(line[at + 12], line[at + 13]) else {
        return Err(Answer::NoFrame(3, length_place(line, at)));
    };
    if left < n {
        return Err(Answer::NoFrame(2, None));
    }
    own_outline(&line[at..at + n])
}
