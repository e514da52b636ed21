// A line's input in pieces.
ghost use Rattle.std.specs.Prelude.{◌≡◌, length};

use crate::feed::{Failure, Feed};
use crate::output::Output;
use printing::moving::move_down;
use std::io::{Read, Write};

// What a line is read from, and the buffer that its bytes in hand stand in.
#[derive(Drop)]
pub struct Input<'a, R> {
    pub stream: &'a mut R,
    pub buf: &'a mut [u8],
}

impl Feed {
    // Reads one piece more, behind the bytes in hand, which move to the front; or the end. One read gives what is there. Where the
    // line pauses, what is known of it is written first, so that it is seen while nothing comes.
    pub(crate) fn read_on<R: Read, W: Write>(
        &mut self,
        input: &mut Input<'_, R>,
        output: &mut Output<'_, W>,
    ) -> Result<(), Failure>
        ensures same_input { input.new.stream.ghost_name ≡ input.old.stream.ghost_name }
        ensures same_buffer { input.new.buf.ghost_name ≡ input.old.buf.ghost_name }
        ensures same_length { length input.new.buf.now ≡ length input.old.buf.now }
        ensures same_stream { output.new.stream.ghost_name ≡ output.old.stream.ghost_name }
        ensures same_place { output.new.out.ghost_name ≡ output.old.out.ghost_name }
        ensures same_text { output.new.out.now ≡ output.old.out.now }
    {
        if self.short {
            self.written(output)?;
        }
        let waiting = move_down(input.buf, self.at, self.end);
        if input.buf.len() <= waiting {
            return Err(self.failed(output, Failure::Read));
        }
        let Ok(more) = input.stream.read(&mut input.buf[waiting..]) else {
            return Err(self.failed(output, Failure::Read));
        };
        self.at = 0;
        self.end = waiting + more;
        self.closed = more == 0;
        self.short = self.end < input.buf.len();
        Ok(())
    }
}
