// Calls for C and Rust: the capture, lent as its 65,536 bytes.
#![tactic(auto)]

ghost use Rattle.std.specs.Prelude.{◌≡◌, ◌≤◌};
ghost use Rattle.capture.specs.Calls.{cleared_of, cleared_bytes, held_of, part_of};
ghost use Rattle.capture_append.specs.Stores.{stores};
ghost use Rattle.capture_append.specs.Appending.{taken_of, taken_bytes};
ghost use Rattle.c_capture.specs.Outcomes.{cleared_outcome, unsound_outcome, append_outcome, taken_outcome, held_outcome, part_outcome};

use capture::reading::{clear, finished, payload_at};
use capture::{Part, Unsound};
use capture_append::{AppendError, append, append_cut};

// Of a refusal to read: beside 33 stands the place of the bad block above it. There are 128 places.
fn unsound_outcome(e: Unsound) -> u64
    requires { unsound_outcome e ≤ 32801 }
    ensures { result ≡ unsound_outcome e }
{
    match e {
        Unsound::WrongSize => u64::from(e.number()),
        Unsound::BadBlock(place) => 33 + 256 * (place as u64),
    }
}

// Of a refusal to append.
fn append_outcome(e: AppendError) -> u64
    requires { append_outcome e ≤ 32801 }
    ensures { result ≡ append_outcome e }
{
    match e {
        AppendError::Unsound(e) => unsound_outcome(e),
        _ => u64::from(e.number()),
    }
}

// Of an append: above the answer stands the place of the block.
fn taken_outcome(taken: Result<usize, AppendError>) -> u64
    requires { taken_outcome taken ≤ 32801 }
    ensures { result ≡ taken_outcome taken }
{
    match taken {
        Ok(place) => 256 * (place as u64),
        Err(e) => append_outcome(e),
    }
}

// Makes a fresh capture: 0 or 34.
pub fn trivsome_capture_clear(capture: &mut [u8]) -> u64
    ensures value { result ≡ cleared_outcome (cleared_of capture.old) }
    ensures capture_after { capture.new ≡ cleared_bytes capture.old }
{
    match clear(capture) {
        Ok(()) => 0,
        Err(e) => u64::from(e.number()),
    }
}

// Appends a payload to the first unfinished place: 0 with the place, 34, 31, 33 with the first bad block's place, or 32.
pub fn trivsome_capture_append(capture: &mut [u8], payload: &[u8]) -> u64
    ensures value { result ≡ taken_outcome (taken_of capture.old payload.now) }
    ensures capture_after { capture.new ≡ taken_bytes capture.old payload.now stores }
{
    taken_outcome(append(capture, payload))
}

// The same append, and the same answer, with the power cut after so many of its stores, or after all if it takes no more.
pub fn trivsome_capture_append_cut(capture: &mut [u8], payload: &[u8], stores: usize) -> u64
    ensures value { result ≡ taken_outcome (taken_of capture.old payload.now) }
    ensures capture_after { capture.new ≡ taken_bytes capture.old payload.now stores }
{
    taken_outcome(append_cut(capture, payload, stores))
}

// How many blocks are finished: 0 with their number, 34, or 33 with the first bad block's place.
pub fn trivsome_capture_finished(capture: &[u8]) -> u64
    ensures { result ≡ held_outcome (held_of capture.now) }
{
    match finished(capture) {
        Ok(n) => 256 * (n as u64),
        Err(e) => unsound_outcome(e),
    }
}

// The payload at a place, the first at 1: 0 with its length and where in the capture it begins, 34, or 33 with the first bad block's
// place.
pub fn trivsome_capture_payload(capture: &[u8], place: usize) -> u64
    ensures { result ≡ part_outcome (part_of capture.now place) }
{
    match payload_at(capture, place) {
        Ok(Part { start, length }) => 65536 * (length as u64) + 4294967296 * (start as u64),
        Err(e) => unsound_outcome(e),
    }
}
