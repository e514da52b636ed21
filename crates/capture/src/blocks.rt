// One block of a capture.
ghost use Rattle.std.specs.Prelude.{◌≡◌, ◌+◌, ◌<◌, ◌≤◌, length};
ghost use Rattle.capture.specs.Blocks.{number, used, all_zero, zeros_behind, check_fits};
ghost use Rattle.capture.specs.Captures.{places, block_at};
ghost use Rattle.capture.specs.Searches.{formed};

use crate::{BLOCK, MOST, SIZE};
use fletcher::check_sums;

// The block behind so many others.
pub(crate) fn block_at(capture: &[u8; SIZE], n: usize) -> &[u8; BLOCK]
    requires { n < places }
    ensures { result.now ≡ block_at capture.now (n + 1) }
{
    let (blocks, _) = capture.as_chunks::<BLOCK>();
    &blocks[n]
}

// The block's number, 0 if it is unfinished.
pub(crate) fn block_number(block: &[u8; BLOCK]) -> usize
    ensures { result ≡ number block.now }
{
    u32::from_be_bytes([block[0], block[1], block[2], block[3]]) as usize
}

// How many bytes it says are used.
pub(crate) fn used_bytes(block: &[u8; BLOCK]) -> usize
    ensures { result ≡ used block.now }
{
    usize::from(u16::from_be_bytes([block[4], block[5]]))
}

// Whether some bytes, no more than a payload has, are zeros. There is no way out at the first that is not: so the compiler takes several
// at a time.
fn all_zero(bytes: &[u8]) -> bool
    requires { length bytes.now ≤ 504 }
    ensures { result ≡ all_zero bytes.now }
{
    let mut sum: u32 = 0;
    for &b in bytes {
        sum += u32::from(b);
    }
    sum == 0
}

// Behind the used bytes, of which there are no more than there is room for, stand zeros.
fn zeros_behind(block: &[u8; BLOCK], n: usize) -> bool
    requires { (n ≡ used block.now) × (n ≤ 504) }
    ensures { result ≡ zeros_behind block.now }
{
    let from = n + 6;
    all_zero(&block[from..510])
}

// The number is the block's place, and range and zeros hold.
pub(crate) fn is_formed(block: &[u8; BLOCK], place: usize) -> bool
    ensures { result ≡ formed block.now place }
{
    if block_number(block) != place {
        return false;
    }
    let n = used_bytes(block);
    if n == 0 {
        return false;
    }
    if MOST < n {
        return false;
    }
    zeros_behind(block, n)
}

// The check is that of the first 510 bytes.
pub(crate) fn check_fits(block: &[u8; BLOCK]) -> bool
    ensures { result ≡ check_fits block.now }
{
    let s = check_sums(block, 0, 510);
    if block[510] != s.first {
        return false;
    }
    block[511] == s.second
}
