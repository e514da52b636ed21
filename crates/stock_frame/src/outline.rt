// Where a frame begins and ends on a line: the checks up to the header's digits. `derivatives_frame` has the same steps at other places of its own
// header. Each exchange keeps its own: its wrong programs are edits of these lines, and one function for both would take each place.
ghost use Rattle.std.specs.Prelude.{◌≡◌, ◌≤◌, true, cond, [], ◌∷◌, length, get_or, drop, None, Some};
ghost use Rattle.stock_frame.specs.Outline.{length_of, length_right, outline_of};

use crate::head::Head;
use crate::places::{head_place, length_place};
use answers::Answer;
use words::blocks::eight_at;
use words::xor::xor_of;

// The length that a frame's second and third byte give, if they give one.
fn length_in(a: u8, b: u8) -> Option<usize>
    ensures { result ≡ cond (length_right (27 ∷ a ∷ b ∷ [])) (Some (length_of (27 ∷ a ∷ b ∷ []))) None }
{
    let a1 = a / 16;
    let a2 = a % 16;
    let b1 = b / 16;
    let b2 = b % 16;
    if a1 > 9 || a2 > 9 || b1 > 9 || b2 > 9 {
        return None;
    }
    let n = (a1 * 10 + a2) as usize * 100 + (b1 * 10 + b2) as usize;
    if (14..=1024).contains(&n) {
        Some(n)
    } else {
        None
    }
}

// The outline of a frame's own bytes, whose first three are known.
fn own_outline(f: &[u8]) -> Result<Head, Answer>
    requires { (14 ≤ length f.now) × (get_or f.now 0 0 ≡ 27) × (length_right f.now ≡ true) × (length_of f.now ≡ length f.now) }
    ensures { result ≡ outline_of f.now }
{
    let n = f.len();
    if f[n - 2] != 13 || f[n - 1] != 10 {
        return Err(Answer::NoFrame(4, None));
    }
    let x = xor_of(&f[1..n - 3]);
    if f[n - 3] != x {
        return Err(Answer::NoFrame(5, None));
    }
    let h = eight_at(f, 2);
    if h.good {
        return Ok(Head {
            kind: h.first % 1000000,
            seq: h.last,
            length: n,
        });
    }
    Err(Answer::Refused(6, n, head_place(f)))
}

// The outline of the bytes from a place.
pub fn outline(line: &[u8], at: usize) -> Result<Head, Answer>
    ensures { result ≡ outline_of (drop at line.now) }
{
    if line.len() <= at {
        return Err(Answer::NoFrame(2, None));
    }
    if line[at] != 27 {
        return Err(Answer::NoFrame(1, None));
    }
    let left = line.len() - at;
    if left < 3 {
        return Err(Answer::NoFrame(2, None));
    }
    let Some(n) = length_in(line[at + 1], line[at + 2]) else {
        return Err(Answer::NoFrame(3, length_place(line, at)));
    };
    if left < n {
        return Err(Answer::NoFrame(2, None));
    }
    own_outline(&line[at..at + n])
}
