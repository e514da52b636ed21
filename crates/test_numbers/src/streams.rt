// Standard input in one piece, and standard output in large ones; test_worked has the like: a crate for two tests would cost the gate more.
use std::io::{Read, Write};

// The most bytes that a program takes. It has room for one more, so that it sees where there are more.
pub(crate) const MOST: usize = 65_536;

// The bytes of the output buffer.
pub(crate) const LARGE: usize = 65_536;

// Text is written when there is this much of it: the output buffer then still has room for 4,096 bytes.
pub(crate) const MUCH: usize = 61_440;

// What failed.
#[derive(Clone, Copy, Debug, PartialEq, Eq)]
pub(crate) enum Failure {
    // standard input could not be read
    Read,
    // it has more than MOST bytes
    Long,
    // standard output took no more, or a text that fills the buffer to its end may have been cut
    Write,
}

// Reads standard input until it ends or the buffer is full, and answers how many bytes there are.
pub(crate) fn read_all<R: Read>(input: &mut R, buf: &mut [u8]) -> Result<usize, Failure> {
    let mut n = 0;
    // no range: a read may give any number of bytes
    while n < buf.len() {
        let more = input.read(&mut buf[n..]).map_err(|_| Failure::Read)?;
        if more == 0 {
            break;
        }
        n += more;
    }
    Ok(n)
}

// Writes the text that waits, all of it.
pub(crate) fn written<W: Write>(output: &mut W, out: &[u8], to: usize) -> Result<(), Failure> {
    if out.len() <= to {
        return Err(Failure::Write);
    }
    output.write_all(&out[..to]).map_err(|_| Failure::Write)
}
