// The one way in which rows, moves and frames are pulled from a line.
ghost use Rattle.std.specs.Prelude.{◌≡◌, length};

use crate::feed::{Failure, Feed};
use crate::input::Input;
use crate::output::Output;
use std::io::{Read, Write};

// What a line is taken apart into.
pub(crate) trait Pull {
    type Item;

    // The line that is being read.
    fn feed(&mut self) -> &mut Feed;

    // The next one of the bytes in hand, which are the input buffer's up to their end; none where more bytes decide it.
    fn in_hand(&mut self, buf: &[u8]) -> Result<Option<Self::Item>, Failure>;

    // One more at the line's end, if there is any.
    fn left_over(&mut self) -> Option<Self::Item>;
}

// The next one of a line. The text in the output buffer is written where there is little room left, where the line pauses, and
// before a failure is answered. A proved loop has to end, and nothing says that standard input does: the loop counts its turns
// up to a number that no run reaches. What a call says behind a failure is not promised: no program makes one.
pub(crate) fn next<P: Pull, R: Read, W: Write>(
    pull: &mut P,
    input: &mut Input<'_, R>,
    output: &mut Output<'_, W>,
) -> Result<Option<P::Item>, Failure>
    ensures same_input { input.new.stream.ghost_name ≡ input.old.stream.ghost_name }
    ensures same_buffer { input.new.buf.ghost_name ≡ input.old.buf.ghost_name }
    ensures same_length { length input.new.buf.now ≡ length input.old.buf.now }
    ensures same_stream { output.new.stream.ghost_name ≡ output.old.stream.ghost_name }
    ensures same_place { output.new.out.ghost_name ≡ output.old.out.ghost_name }
    ensures same_text { output.new.out.now ≡ output.old.out.now }
{
    pull.feed().relieved(output)?;
    if let Some(failure) = pull.feed().failure {
        return Err(failure);
    }
    for _ in 0..u64::MAX {
        match pull.in_hand(input.buf) {
            Ok(Some(item)) => return Ok(Some(item)),
            Ok(None) => {}
            Err(failure) => return Err(pull.feed().failed(output, failure)),
        }
        if pull.feed().closed {
            return Ok(pull.left_over());
        }
        pull.feed().read_on(input, output)?;
    }
    Err(Failure::Read)
}
