// Text gathered in the output buffer, and written in large pieces.
ghost use Rattle.std.specs.Prelude.{◌≡◌};

use crate::feed::{Failure, Feed};
use std::io::Write;

// Text is written when less than this is left of the buffer, so that a program may put this much between two pulls.
pub const SPARE: usize = 4096;

// What text is written to, and the buffer that it waits in.
#[derive(Drop)]
pub struct Output<'a, W> {
    pub stream: &'a mut W,
    pub out: &'a mut [u8],
}

// Writes the first bytes of a buffer. One that is full to its end holds a text that may have been cut. It is lent to be changed, and is not: lent to
// be read from behind `output`, the check has no rule for it yet.
#[inline(never)]
fn write_text<W: Write>(stream: &mut W, out: &mut [u8], to: usize) -> Result<(), Failure>
    ensures same_text { out.new ≡ out.old }
{
    if out.len() <= to {
        return Err(Failure::Cut);
    }
    stream.write_all(&out[..to]).map_err(|_| Failure::Write)
}

impl Feed {
    // Writes the text that waits. This is inlined, and `write_text` is not: then no call takes the state's address, and where a line is
    // walked it stays in registers. A listing of 27s takes 4 in 10 instructions more otherwise.
    #[inline(always)]
    pub fn written<W: Write>(&mut self, output: &mut Output<'_, W>) -> Result<(), Failure>
        ensures same_stream { output.new.stream.ghost_name ≡ output.old.stream.ghost_name }
        ensures same_place { output.new.out.ghost_name ≡ output.old.out.ghost_name }
        ensures same_text { output.new.out.now ≡ output.old.out.now }
    {
        let to = self.to;
        self.to = 0;
        let done = write_text(output.stream, output.out, to);
        if let Err(failure) = done {
            self.failure = Some(failure);
        }
        done
    }

    // Writes the text that waits if there is little room for more.
    pub fn relieved<W: Write>(&mut self, output: &mut Output<'_, W>) -> Result<(), Failure>
        ensures same_stream { output.new.stream.ghost_name ≡ output.old.stream.ghost_name }
        ensures same_place { output.new.out.ghost_name ≡ output.old.out.ghost_name }
        ensures same_text { output.new.out.now ≡ output.old.out.now }
    {
        if self.to.saturating_add(SPARE) <= output.out.len() {
            return Ok(());
        }
        self.written(output)
    }

    // What failed, once the text that waits is written; what failed first is kept.
    pub fn failed<W: Write>(&mut self, output: &mut Output<'_, W>, failure: Failure) -> Failure
        ensures same_stream { output.new.stream.ghost_name ≡ output.old.stream.ghost_name }
        ensures same_place { output.new.out.ghost_name ≡ output.old.out.ghost_name }
        ensures same_text { output.new.out.now ≡ output.old.out.now }
    {
        let _ = self.written(output);
        let first = self.failure.unwrap_or(failure);
        self.failure = Some(first);
        first
    }
}
