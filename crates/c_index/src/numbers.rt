// Index values as bytes and numbers, and back.
ghost use Rattle.std.specs.Prelude.{◌≡◌};
ghost use Rattle.c_index.specs.Index.{index_bytes, index_numbers, index_from};

use amounts::Thousandths;
use derivatives_index::index::Index;

// The market, the kind, how many bytes the contract has, and the status.
pub(crate) fn index_bytes(m: Index) -> [u8; 4]
    ensures { result ≡ index_bytes m }
{
    let length = (m.length % 256) as u8;
    [m.market, m.kind, length, m.status]
}

// The time of sending, the index's own time, and the value in thousandths.
pub(crate) fn index_numbers(m: Index) -> [u32; 3]
    ensures { result ≡ index_numbers m }
{
    [m.sent, m.time, m.value.0]
}

// A byte as a length.
fn length_of(b: u8) -> usize
    ensures { result ≡ b }
{
    b as usize
}

// The index value of a number, a contract, such bytes and such numbers.
pub(crate) fn index_of(seq: u32, contract: &[u8; 8], bytes: &[u8; 4], numbers: &[u32; 3]) -> Index
    ensures { result ≡ index_from seq contract.now bytes.now numbers.now }
{
    let contract = *contract;
    let length = length_of(bytes[2]);
    Index {
        market: bytes[0],
        kind: bytes[1],
        sent: numbers[0],
        seq,
        contract,
        length,
        time: numbers[1],
        value: Thousandths(numbers[2]),
        status: bytes[3],
    }
}
