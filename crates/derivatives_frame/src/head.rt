// What the outline of a frame says.

// The header of a frame whose outline is whole: the transmission code, the kind, the time of sending, the number and the version, and the
// length of the whole frame.
#[derive(Clone, Copy)]
pub struct Head {
    pub market: u8,
    // a byte and no enum: any may stand there
    pub kind: u8,
    pub sent: u32,
    pub seq: u32,
    pub version: u8,
    pub length: usize,
}
