// An index value.
ghost use Rattle.std.specs.Prelude.{◌≡◌};
ghost use Rattle.derivatives_index.specs.Index.{no_index};

use amounts::Thousandths;
use answers::Answer;

// The value of an underlying for a contract of so many bytes; the bytes behind it are zero. The market is the transmission code, `1` for
// futures or `4` for options; the kind is `5` in I060 and `8` in I064; both times are HHMMSS and hundredths.
#[derive(Clone, Copy)]
pub struct Index {
    pub market: u8,
    pub kind: u8,
    pub sent: u32,
    pub seq: u32,
    pub contract: [u8; 8],
    pub length: usize,
    pub time: u32,
    pub value: Thousandths,
    pub status: u8,
}

// What reading a body finds; the index value is the empty one where the answer is a refusal.
// It is no `Result`: beside a frame of another kind, which is accepted, stands the empty one too.
#[derive(Clone, Copy)]
pub struct IndexReading {
    pub answer: Answer,
    pub index: Index,
}

// The empty index value, which stands beside a refusal.
pub fn empty() -> Index
    ensures { result ≡ no_index }
{
    Index {
        market: 0,
        kind: 0,
        sent: 0,
        seq: 0,
        contract: [0u8; 8],
        length: 0,
        time: 0,
        value: Thousandths(0),
        status: 0,
    }
}
