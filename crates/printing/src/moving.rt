// Bytes moved within a lent buffer.
ghost use Rattle.printing.specs.Moving.{MovesDown};

// Moves the bytes from a place up to an end to the front of a buffer, as far as they are in it, and answers how many they are.
pub fn move_down(buf: &mut [u8], at: usize, end: usize) -> usize
    ensures { MovesDown at end buf.old result buf.new }
{
    let last = end.min(buf.len());
    if last <= at {
        return 0;
    }
    buf.copy_within(at..last, 0);
    last - at
}
