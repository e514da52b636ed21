// The exclusive-or of bytes: eight at a time are loaded as one number, gathered by `^`, and folded to one byte at the end.
ghost use Rattle.std.specs.Prelude.{◌≡◌, ◌-◌, ◌%◌, length};
ghost use Rattle.words.specs.Words.{bytes};
ghost use Rattle.words.specs.Xor.{xor_of};
ghost use Rattle.words.specs.Steps.{gathered};

use crate::loads::{eight, four, two};

// The four bytes after the whole eights, where there are so many. Here and below each width has its own load, so one function of any
// width would choose among them by its width, and be no plainer.
fn last_four(s: &[u8], x: u64) -> u64
    ensures { let l = s.now in
        gathered result (length l - length l % 4) l ≡ gathered x (length l - length l % 8) l }
{
    let left = s.len() % 8;
    if 4 <= left {
        return x ^ four(s, s.len() - left);
    }
    x
}

// The two bytes after the whole fours.
fn last_two(s: &[u8], x: u64) -> u64
    ensures { let l = s.now in
        gathered result (length l - length l % 2) l ≡ gathered x (length l - length l % 4) l }
{
    let left = s.len() % 4;
    if 2 <= left {
        return x ^ two(s, s.len() - left);
    }
    x
}

// The byte after the whole twos.
fn last_one(s: &[u8], x: u64) -> u64
    ensures { let l = s.now in
        gathered result (length l) l ≡ gathered x (length l - length l % 2) l }
{
    let left = s.len() % 2;
    if 1 <= left {
        return x ^ s[s.len() - left] as u64;
    }
    x
}

// The exclusive-or of a number's eight bytes.
fn fold(x: u64) -> u8
    ensures { result ≡ xor_of (bytes 8 x) }
{
    let y = x ^ (x >> 32);
    let z = y ^ (y >> 16);
    let w = z ^ (z >> 8);
    (w % 256) as u8
}

// The exclusive-or of bytes.
pub fn xor_of(s: &[u8]) -> u8
    ensures { result ≡ xor_of s.now }
{
    let mut x: u64 = 0;
    for k in 0..s.len() / 8 {
        x ^= eight(s, 8 * k);
    }
    fold(last_one(s, last_two(s, last_four(s, x))))
}
