// The digits of four, six or eight bytes worked out at once.
ghost use Rattle.std.specs.Prelude.{◌≡◌, ◌+◌, ◌≤◌, length, take, drop};
ghost use Rattle.words.specs.Words.{bytes};
ghost use Rattle.words.specs.Blocks.{block_of, no_block, block_at};

use crate::loads::{eight, four, two};

// What some bytes hold: whether every half is a digit, and the numbers that the first bytes and the last four give. No `Option` of the
// numbers: what this promises has them of bad bytes too, and may not change.
#[derive(Clone, Copy)]
pub struct Block {
    pub good: bool,
    pub first: u32,
    pub last: u32,
}

// All eight bytes of a number side by side: the halves of each byte, then its two digits as a number, then those of two
// bytes, then those of four. No field carries into the next, whatever the bytes are.
fn digits(x: u64) -> Block
    ensures { result ≡ block_of 4 (bytes 8 x) }
{
    let hi = (x >> 4) & 0x0f0f0f0f0f0f0f0f;
    let lo = x & 0x0f0f0f0f0f0f0f0f;
    let bad = ((hi + 0x0606060606060606) | (lo + 0x0606060606060606)) & 0x1010101010101010;
    let y = hi * 10 + lo;
    let z = (y & 0x00ff00ff00ff00ff) * 100 + ((y >> 8) & 0x00ff00ff00ff00ff);
    let w = (z & 0x0000ffff0000ffff) * 10000 + ((z >> 16) & 0x0000ffff0000ffff);
    Block {
        good: bad == 0,
        first: (w % 4294967296) as u32,
        last: (w / 4294967296) as u32,
    }
}

// Past the end.
fn none() -> Block
    ensures { result ≡ no_block }
{
    Block {
        good: false,
        first: 0,
        last: 0,
    }
}

// The four bytes from a place that the caller knows to be inside: worked out in the low half, with zero bytes after them.
pub(crate) fn four_in(s: &[u8], at: usize) -> Block
    requires { at + 4 ≤ length s.now }
    ensures { result ≡ block_of 0 (take 4 (drop at s.now)) }
{
    let h = digits(four(s, at));
    Block {
        good: h.good,
        first: 0,
        last: h.first,
    }
}

// The same of six bytes: zero bytes stand before them.
fn six_in(s: &[u8], at: usize) -> Block
    requires { at + 6 ≤ length s.now }
    ensures { result ≡ block_of 2 (take 6 (drop at s.now)) }
{
    digits(two(s, at) * 65536 + four(s, at + 2) * 4294967296)
}

// The same of eight bytes, with none before them.
pub(crate) fn eight_in(s: &[u8], at: usize) -> Block
    requires { at + 8 ≤ length s.now }
    ensures { result ≡ block_of 4 (take 8 (drop at s.now)) }
{
    digits(eight(s, at))
}

// Four bytes: all of them are the last four. This call and the two behind it are three: each width has its own loads, and one over a const
// width would choose among them.
pub fn four_at(s: &[u8], at: usize) -> Block
    ensures { result ≡ block_at 4 0 s.now at }
{
    if s.len() < 4 || s.len() - 4 < at {
        return none();
    }
    four_in(s, at)
}

// Six bytes: two, and the last four.
pub fn six_at(s: &[u8], at: usize) -> Block
    ensures { result ≡ block_at 6 2 s.now at }
{
    if s.len() < 6 || s.len() - 6 < at {
        return none();
    }
    six_in(s, at)
}

// Eight bytes: four, and the last four.
pub fn eight_at(s: &[u8], at: usize) -> Block
    ensures { result ≡ block_at 8 4 s.now at }
{
    if s.len() < 8 || s.len() - 8 < at {
        return none();
    }
    eight_in(s, at)
}
