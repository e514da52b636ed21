// Where a frame's first bad digit is, in halves from its first byte. Looked for only where a digit is known to be bad.
ghost use Rattle.std.specs.Prelude.{◌≡◌, ◌+◌, ◌*◌, ◌≤◌, length, drop};
ghost use Rattle.layout.specs.Places.{first_bad, cells_of};
ghost use Rattle.stock_frame.specs.Outline.{length_bytes, length_cells, kind_cells};
ghost use Rattle.stock_frame.specs.Format.{digit_answer};

use answers::Answer;
use layout::places::first_bad_from;

// The longest frame.
const LONGEST: usize = 1024;

// A half of a byte.
const HIGH: usize = 0;

const LOW: usize = 1;

// Of a part of a frame with some halves before it.
fn place_in(cells: &[u8], s: &[u8], before: u16) -> Option<u32>
    requires { length s.now ≤ 1024 }
    ensures { result ≡ first_bad (cells_of cells.now) before s.now }
{
    first_bad_from(cells, s, before)
}

// The place of a half of a frame's byte, which is counted from 0. `digits` has one line like it for itself: handed on, it would have to
// promise a place for every byte there is, so it is no plainer.
fn place_of(byte: usize, half: usize) -> u32
    requires { (byte ≤ 1023) × (half ≤ 1) }
    ensures { result ≡ 2 * byte + half }
{
    (2 * byte + half) as u32
}

// Of the length of a frame at a place; none where its digits are good. On a bad line it is asked for at every 27.
pub(crate) fn length_place(line: &[u8], at: usize) -> Option<u32>
    requires { at + 3 ≤ length line.now }
    ensures { result ≡ first_bad length_cells 2 (length_bytes (drop at line.now)) }
{
    let first = at + 1;
    let a = line[first];
    let b = line[at + 2];
    if a / 16 > 9 {
        return Some(place_of(1, HIGH));
    }
    if a % 16 > 9 {
        return Some(place_of(1, LOW));
    }
    if b / 16 > 9 {
        return Some(place_of(2, HIGH));
    }
    if b % 16 > 9 {
        return Some(place_of(2, LOW));
    }
    None
}

// Of bytes 4 to 10 of a frame.
pub(crate) fn head_place(f: &[u8]) -> Option<u32>
    requires { (14 ≤ length f.now) × (length f.now ≤ 1024) }
    ensures { result ≡ first_bad kind_cells 6 (drop 3 f.now) }
{
    let cells = [2u8, 2, 2, 8];
    place_in(&cells, &f[3..], 6)
}

// What a body answers whose cells (`layout::places::first_bad`) have a bad digit: 11, with the frame's length and the place. A body
// that no frame has room for answers 9.
pub fn bad_digit(cells: &[u8], body: &[u8]) -> Answer
    ensures { result ≡ digit_answer (cells_of cells.now) body.now }
{
    let n = 13 + body.len();
    if LONGEST < n {
        return Answer::Refused(9, n, None);
    }
    let place = place_in(cells, body, 20);
    Answer::Refused(11, n, place)
}
