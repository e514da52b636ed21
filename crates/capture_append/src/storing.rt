// A block stored byte by byte, the last byte of its number after everything else.
ghost use Rattle.std.specs.Prelude.{◌≡◌, ◌+◌, ◌≤◌, ◌<◌, min, length};
ghost use Rattle.capture_append.specs.Stores.{store_of, stored_from, stores};

use capture::BLOCK;

// The store j, from 0: first those of the bytes behind the block's number, to its end, then those of the number from its first byte on.
fn store(capture: &mut [u8], start: usize, block: &[u8; BLOCK], j: usize)
    requires { (start + 512 ≤ length capture.old) × (j < stores) }
    ensures { capture.new ≡ store_of capture.old start block.now j }
{
    let at = (j + 4) % BLOCK;
    capture[start + at] = block[at];
}

// The first stores of a block: so many, or all if there are no more. Those behind the number go by a loop of their own, in which a place
// follows the one before it: so the compiler takes several at a time.
pub(crate) fn store_some(capture: &mut [u8], start: usize, block: &[u8; BLOCK], count: usize)
    requires { start + 512 ≤ length capture.old }
    ensures { capture.new ≡ stored_from capture.old start block.now (min count stores) }
{
    for j in 0..count.min(508) {
        store(capture, start, block, j);
    }
    for j in 508..count.min(BLOCK) {
        store(capture, start, block, j);
    }
}
