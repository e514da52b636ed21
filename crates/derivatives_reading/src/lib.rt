// What a reading may say of the bytes from a place on a line of the derivatives exchange.
#![tactic(auto)]

ghost use Rattle.std.specs.Prelude.{◌≡◌, drop};
ghost use Rattle.derivatives_reading.specs.Reading.{answer_of, index_at};

use answers::Answer;
use derivatives_frame::outline::outline;
use derivatives_index::index::{IndexReading, empty};
use derivatives_index::reading::read as index_in;

// The answer, with the index value of an accepted frame.
pub fn read_index(line: &[u8], at: usize) -> IndexReading
    ensures { result ≡ index_at (drop at line.now) }
{
    match outline(line, at) {
        Err(answer) => {
            let index = empty();
            IndexReading { answer, index }
        }
        Ok(head) => {
            let start = at + 14;
            let end = at + head.length - 3;
            index_in(&line[start..end], head)
        }
    }
}

// The answer alone, with the format, the number and the length of an accepted frame.
pub fn read(line: &[u8], at: usize) -> Answer
    ensures { result ≡ answer_of (drop at line.now) }
{
    let r = read_index(line, at);
    r.answer
}
