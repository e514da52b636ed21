// The object of a message, of whatever format.
use answers::{Answer, Frame};
use printing::put_all;
use stock_texts::counts::put_count;

pub(crate) trait Message: Copy {
    // Its frame's format and number.
    fn put_frame(f: Frame, out: &mut [u8], at: usize) -> usize {
        let at = put_count(out, at, b",\"format\":", f.format as u64);
        put_count(out, at, b",\"seq\":", f.seq as u64)
    }

    // What it says.
    fn put(self, out: &mut [u8], at: usize) -> usize;
}

// The object of a frame that was read, if it is accepted, with the frame's place on the whole line.
pub(crate) fn put_read<M: Message>(
    out: &mut [u8],
    at: usize,
    place: u64,
    answer: Answer,
    message: M,
) -> usize {
    let Answer::Accepted(f) = answer else {
        return at;
    };
    let at = put_count(out, at, b"{\"at\":", place);
    let at = M::put_frame(f, out, at);
    let at = message.put(out, at);
    put_all(out, at, b"}\n")
}
