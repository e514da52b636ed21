// A capture of 128 blocks in lent memory, kept so that a power loss during an append costs no finished block, and half of one is never
// read: it is cleared, judged and read. It knows nothing of what the payloads are.
#![tactic(auto)]

ghost use Rattle.std.specs.Prelude.{◌≡◌};
ghost use Rattle.capture.specs.declared.Unsound.TheVariants.{WrongSize};
ghost use Rattle.capture.specs.Calls.{size_number, unsound_number};

mod blocks;
pub mod reading;
mod searches;

// The blocks of a capture, the bytes of a block, the most bytes of a payload, and the bytes of a capture.
pub const PLACES: usize = 128;

pub const BLOCK: usize = 512;

pub const MOST: usize = 504;

pub const SIZE: usize = 65536;

// Lent memory has not 65,536 bytes.
#[derive(Clone, Copy, Debug, PartialEq, Eq)]
pub struct OtherSize;

impl OtherSize {
    // 34
    pub fn number(self) -> u8
        ensures { result ≡ size_number self }
    {
        34
    }
}

// Why a capture is not read.
#[derive(Clone, Copy, Debug, PartialEq, Eq)]
pub enum Unsound {
    // it has not 65,536 bytes
    WrongSize,
    // the place of the first bad block
    BadBlock(usize),
}

impl Unsound {
    // 34 or 33
    pub fn number(self) -> u8
        ensures { result ≡ unsound_number self }
    {
        match self {
            Unsound::WrongSize => OtherSize.number(),
            Unsound::BadBlock(_) => 33,
        }
    }
}

impl From<OtherSize> for Unsound {
    ghost from_gives = { λ _ e. e ≡ WrongSize };

    fn from(_e: OtherSize) -> Unsound {
        Unsound::WrongSize
    }
}

// A payload, as a part of the capture: where it begins, and how many bytes it has.
#[derive(Clone, Copy, Debug, PartialEq, Eq)]
pub struct Part {
    pub start: usize,
    pub length: usize,
}
