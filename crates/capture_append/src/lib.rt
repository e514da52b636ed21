// Appending to a capture, a byte store a turn, so that a power loss after any of them leaves every block that was finished before.
#![tactic(auto)]

ghost use Rattle.std.specs.Prelude.{◌≡◌};
ghost use Rattle.capture_append.specs.Stores.{stores};
ghost use Rattle.capture_append.specs.Appending.{append_number, taken_of, taken_bytes};

use capture::reading::finished;
use capture::{BLOCK, MOST, PLACES, SIZE, Unsound};
use fletcher::check_sums;

mod building;
mod storing;

use building::Entry;
use storing::store_some;

// A payload is summed before it is known to be no longer than 504 bytes, up to so many: where the compiler knows that it is short it takes
// fewer bytes at a time.
const SUMMED: usize = 2048;

// Why a payload is not appended.
#[derive(Clone, Copy, Debug, PartialEq, Eq)]
pub enum AppendError {
    // the capture is not read
    Unsound(Unsound),
    // it is empty, or longer than 504 bytes
    PayloadLength,
    // all blocks are finished
    Full,
}

impl AppendError {
    // 34 or 33, 31, 32
    pub fn number(self) -> u8
        ensures { result ≡ append_number self }
    {
        match self {
            AppendError::Unsound(e) => e.number(),
            AppendError::PayloadLength => 31,
            AppendError::Full => 32,
        }
    }
}

impl From<Unsound> for AppendError {
    ghost use Rattle.capture_append.specs.declared.AppendError.TheVariants.{Unsound};

    ghost from_gives = { λ u e. e ≡ Unsound u };

    fn from(e: Unsound) -> AppendError {
        AppendError::Unsound(e)
    }
}

// The append of a payload whose power is cut after so many stores, or that is finished where there are no fewer than it takes: what it
// leaves in memory is what a cut after the last of them leaves. The answer is the place of the block.
pub fn append_cut(capture: &mut [u8], payload: &[u8], stores: usize) -> Result<usize, AppendError>
    ensures value { result ≡ taken_of capture.old payload.now }
    ensures capture_after { capture.new ≡ taken_bytes capture.old payload.now stores }
{
    if capture.len() != SIZE {
        return Err(AppendError::Unsound(Unsound::WrongSize));
    }
    let sums = check_sums(payload, 0, SUMMED);
    if payload.is_empty() {
        return Err(AppendError::PayloadLength);
    }
    if MOST < payload.len() {
        return Err(AppendError::PayloadLength);
    }
    let n = finished(capture)?;
    if PLACES <= n {
        return Err(AppendError::Full);
    }
    let entry = Entry {
        place: n + 1,
        payload,
        sums,
    };
    store_some(capture, BLOCK * n, &entry.block(), stores);
    Ok(n + 1)
}

// Appends a payload to the first unfinished place, which is the answer: 34, 31, 33 or 32.
pub fn append(capture: &mut [u8], payload: &[u8]) -> Result<usize, AppendError>
    ensures value { result ≡ taken_of capture.old payload.now }
    ensures capture_after { capture.new ≡ taken_bytes capture.old payload.now stores }
{
    append_cut(capture, payload, BLOCK)
}
