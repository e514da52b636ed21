// Standard input kept in a file, block by block.
ghost use Rattle.std.specs.Prelude.{◌≤◌};

use crate::files::{ROOM, fill, name_synced, open_to_append, store};
use crate::telling::{Act, Failure, Named};
use capture::reading::finished;
use capture::{BLOCK, MOST, PLACES, SIZE, Unsound};
use capture_append::{AppendError, append, append_cut};
use std::fs::File;
use std::io;
use std::io::Read;

// Why a payload was not kept.
#[derive(Clone, Copy)]
enum KeepError {
    // the file did not take its block
    Unwritten(io::Error),
    // the capture did not take it
    Refused(AppendError),
}

impl From<io::Error> for KeepError {
    fn from(why: io::Error) -> KeepError {
        KeepError::Unwritten(why)
    }
}

impl From<AppendError> for KeepError {
    fn from(why: AppendError) -> KeepError {
        KeepError::Refused(why)
    }
}

// Where the block of a place begins; the capture's end if there is no such place.
fn start_of(place: usize) -> usize
    ensures { result ≤ 65536 }
{
    if place == 0 {
        return SIZE;
    }
    if PLACES < place {
        return SIZE;
    }
    BLOCK * (place - 1)
}

// Keeps a payload. The first write is of all that the stores but the last leave: until it is synced the disk may have any of them, done
// in any order, and what is found then is what was found before (order_tells of laws_capture). Then comes the last one, of the last byte of
// the number, by which the block is finished.
fn keep(file: &File, capture: &mut [u8], payload: &[u8]) -> Result<(), KeepError> {
    let start = start_of(append_cut(capture, payload, BLOCK - 1)?);
    store(file, capture, start, start + BLOCK)?;
    let last = start_of(append(capture, payload)?) + 3;
    store(file, capture, last, last + 1)?;
    Ok(())
}

// Why a payload was not kept, once so many bytes were taken. But for a bad block a refusal is taken as that of a full capture: the payload
// has a right length, and the capture.
fn unkept(error: KeepError, taken: usize) -> Failure {
    match error {
        KeepError::Unwritten(why) => Failure::Unwritten(taken, why),
        KeepError::Refused(AppendError::Unsound(Unsound::BadBlock(place))) => {
            Failure::Unsound(Unsound::BadBlock(place))
        }
        KeepError::Refused(_) => Failure::Full(taken),
    }
}

// Keeps one block of standard input more, behind so many bytes, and answers whether there may be another. What came before a
// read that failed is kept.
fn keep_next<R: Read>(
    input: &mut R,
    file: &File,
    capture: &mut [u8],
    taken: usize,
) -> Result<bool, Failure>
    requires { taken ≤ 65536 }
{
    let mut payload = [0u8; MOST];
    let filled = fill(input, &mut payload);
    let n = filled.count;
    if n != 0 {
        keep(file, capture, &payload[..n]).map_err(|error| unkept(error, taken))?;
    }
    match filled.failed {
        Some(_) => Err(Failure::Input(taken + n)),
        None => Ok(n == MOST),
    }
}

// All blocks but the last are full.
fn keep_all<R: Read>(input: &mut R, file: &File, capture: &mut [u8]) -> Result<(), Failure> {
    for blocks in 0..=PLACES {
        if !keep_next(input, file, capture, MOST * blocks)? {
            break;
        }
    }
    Ok(())
}

// Keeps standard input in an open file that holds these bytes, if they are a sound capture.
fn append_behind(
    rt: &HostRuntime,
    file: &File,
    capture: &mut [u8],
    name: &[u8],
) -> Result<(), Failure> {
    finished(capture)?;
    name_synced(rt, name)?;
    keep_all(&mut rt.stdin(), file, capture)
}

pub(crate) fn append_to(rt: &HostRuntime, name: &[u8]) -> Result<(), Failure> {
    let mut file = open_to_append(rt, name)?;
    let mut memory = [0u8; ROOM];
    let n = fill(&mut file, &mut memory)
        .whole()
        .map_err(|why| Failure::Call(Act::Read, Named::File, why))?;
    append_behind(rt, &file, &mut memory[..n], name)
}
