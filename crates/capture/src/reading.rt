// The calls that clear a capture and read it.
ghost use Rattle.std.specs.Prelude.{◌≡◌, ◌≢◌, ◌≤◌, length, MatchResult};
ghost use Rattle.capture.specs.Captures.{capture_size, places};
ghost use Rattle.capture.specs.Calls.{cleared_of, cleared_bytes, held_of, part_of};
ghost use Rattle.capture.specs.Searches.{part_in};

use crate::blocks::{block_at, used_bytes};
use crate::searches::{numbered_behind, sound_first};
use crate::{BLOCK, OtherSize, Part, SIZE, Unsound};

// Lent memory as a capture.
fn sized(memory: &[u8]) -> Result<&[u8; SIZE], OtherSize>
    ensures { MatchResult result (λ capture. (capture.now ≡ memory.now) × (length memory.now ≡ capture_size)) (λ _. length memory.now ≢ capture_size) }
{
    memory.as_array::<SIZE>().ok_or(OtherSize)
}

// Makes a fresh capture of lent memory: all zeros. 34 where it has not 65,536 bytes.
pub fn clear(capture: &mut [u8]) -> Result<(), OtherSize>
    ensures value { result ≡ cleared_of capture.old }
    ensures capture_after { capture.new ≡ cleared_bytes capture.old }
{
    if capture.len() != SIZE {
        return Err(OtherSize);
    }
    capture.fill(0);
    Ok(())
}

// How many blocks of a capture are finished, or the first bad one.
fn judged(capture: &[u8; SIZE]) -> Result<usize, Unsound>
    ensures { result ≡ held_of capture.now }
{
    let n = sound_first(capture);
    match numbered_behind(capture, n) {
        Some(p) => Err(Unsound::BadBlock(p)),
        None => Ok(n),
    }
}

// How many blocks are finished, 34 or 33.
pub fn finished(capture: &[u8]) -> Result<usize, Unsound>
    ensures { result ≡ held_of capture.now }
{
    judged(sized(capture)?)
}

// What stands at a place where there is no payload.
const NOTHING: Part = Part {
    start: 0,
    length: 0,
};

// The payload at a place of a capture in which no block is bad, and of which so many are finished.
fn finished_part(capture: &[u8; SIZE], n: usize, place: usize) -> Part
    requires { n ≤ places }
    ensures { result ≡ part_in capture.now n place }
{
    if place < 1 {
        return NOTHING;
    }
    if n < place {
        return NOTHING;
    }
    Part {
        start: BLOCK * (place - 1) + 6,
        length: used_bytes(block_at(capture, place - 1)),
    }
}

// The payload at a place, empty if there is no such place or its block is unfinished; 34 or 33.
pub fn payload_at(capture: &[u8], place: usize) -> Result<Part, Unsound>
    ensures { result ≡ part_of capture.now place }
{
    let capture = sized(capture)?;
    let n = judged(capture)?;
    Ok(finished_part(capture, n, place))
}
