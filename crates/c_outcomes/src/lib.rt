// An answer and the figures beside it in one number of 64 bits, for programs in other languages.
#![tactic(auto)]

ghost use Rattle.std.specs.Prelude.{◌≡◌};
ghost use Rattle.c_outcomes.specs.Outcomes.{outcome, place_number, read_outcome, past_outcome, write_outcome};
ghost use Rattle.c_outcomes.specs.Lent.{is_of};
ghost use Rattle.c_outcomes.specs.Walking.{move_outcome};

use answers::{Answer, WriteError};
use walk::rows::Row;

// The answer in 8 bits, then the format in 8, the length in 16 and in 32 the sequence number, of a refusal a place.
fn packed(answer: u8, format: u8, length: usize, seq: u32) -> u64
    ensures { result ≡ outcome answer format length seq }
{
    let high = 65536 * ((length % 65536) as u64) + 4294967296 * (seq as u64);
    (answer as u64) + (256 * (format as u64) + high)
}

// A place in 32 bits: one more than it, and 0 where there is none.
fn place_number(place: Option<u32>) -> u32
    ensures { result ≡ place_number place }
{
    match place {
        None => 0,
        Some(p) => p % 4294967295 + 1,
    }
}

// Of a reading.
pub fn of_answer(answer: Answer) -> u64
    ensures { result ≡ read_outcome answer }
{
    match answer {
        Answer::Accepted(f) => packed(0, f.format, f.length, f.seq),
        Answer::NoFrame(n, p) => packed(n, 0, 0, place_number(p)),
        Answer::Refused(n, length, p) => packed(n, 0, length, place_number(p)),
    }
}

// Of a move past so many bytes.
pub fn of_move(answer: Answer, bytes: u64) -> u64
    ensures { result ≡ past_outcome answer bytes }
{
    match answer {
        Answer::Accepted(f) => packed(0, f.format, bytes as usize, f.seq),
        Answer::NoFrame(n, p) => packed(n, 0, bytes as usize, place_number(p)),
        Answer::Refused(n, _, p) => packed(n, 0, bytes as usize, place_number(p)),
    }
}

// Of a step of a walk: the bytes that a move goes past in the length's place, 0 where the walk stops.
pub fn of_step(step: Option<Row>) -> u64
    ensures { result ≡ move_outcome step }
{
    match step {
        Some(row) => {
            let answer = row.answer;
            of_move(answer, row.bytes)
        }
        None => of_answer(Answer::NoFrame(2, None)),
    }
}

// Of a writing.
pub fn of_written(written: Result<usize, WriteError>) -> u64
    ensures { result ≡ write_outcome written }
{
    match written {
        Ok(length) => packed(0, 0, length, 0),
        Err(WriteError::Illegal) => packed(14, 0, 0, 0),
        Err(WriteError::NoRoom) => packed(15, 0, 0, 0),
    }
}

// Whether a frame of this format is accepted, so that memory lent for its message is filled.
pub fn is_of(answer: Answer, format: u8) -> bool
    ensures { result ≡ is_of format answer }
{
    match answer {
        Answer::Accepted(f) => f.format == format,
        Answer::NoFrame(_, _) => false,
        Answer::Refused(_, _, _) => false,
    }
}
