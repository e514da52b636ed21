// What the outline of a frame says.

// The header of a frame whose outline is whole: business, format and version as six digits.
#[derive(Clone, Copy)]
pub struct Head {
    // a number and no enum: any six digits may stand there
    pub kind: u32,
    pub seq: u32,
    pub length: usize,
}
