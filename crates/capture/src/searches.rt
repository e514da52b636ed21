// The two searches by which a capture is judged. Where no block is bad, the sound ones stand first and no other has a number.
ghost use Rattle.std.specs.Prelude.{◌≡◌, ◌≤◌};
ghost use Rattle.capture.specs.Captures.{places};
ghost use Rattle.capture.specs.Searches.{sound_first, numbered_behind, place_in};

use crate::blocks::{block_at, block_number, check_fits, is_formed};
use crate::{PLACES, SIZE};

// How many sound blocks stand first.
pub(crate) fn sound_first(capture: &[u8; SIZE]) -> usize
    ensures { (result ≡ sound_first capture.now) × (result ≤ places) }
{
    for n in 0..PLACES {
        let block = block_at(capture, n);
        if !is_formed(block, n + 1) {
            return n;
        }
        if !check_fits(block) {
            return n;
        }
    }
    PLACES
}

// The first place with a number behind so many blocks.
pub(crate) fn numbered_behind(capture: &[u8; SIZE], n: usize) -> Option<usize>
    requires { n ≤ places }
    ensures { result ≡ place_in (numbered_behind capture.now n) }
{
    for i in n..PLACES {
        if block_number(block_at(capture, i)) != 0 {
            return Some(i + 1);
        }
    }
    None
}
