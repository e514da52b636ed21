// Fletcher-16 of bytes. The sums are reduced once for many bytes: until then they only grow.
#![tactic(auto)]

ghost use Rattle.std.specs.Prelude.{◌≡◌, ◌*◌, ◌%◌, ◌≤◌, length};
ghost use Rattle.fletcher.specs.Fletcher.{sums_of, with_bytes, fletcher, between};

// Both sums, each from 0 to 254.
#[derive(Clone, Copy, Debug, PartialEq, Eq)]
pub struct Sums {
    pub first: u8,
    pub second: u8,
}

// So many bytes are summed before the sums are reduced.
const PIECE: usize = 1020;

// What a byte brings to the second sum where so many bytes are left, itself among them. They are fewer than 1,024: said so, the compiler
// takes several bytes at a time.
fn weighted(left: usize, b: u32) -> u32
    requires { (left ≤ 1020) × (b ≤ 255) }
    ensures { (result ≡ left * b) × (result ≤ 260100) }
{
    ((left % 1024) as u32) * b
}

// Sums that have grown, reduced.
fn reduced(first: u32, second: u32) -> Sums
    ensures { result ≡ sums_of (first % 255) (second % 255) }
{
    Sums {
        first: (first % 255) as u8,
        second: (second % 255) as u8,
    }
}

// With the bytes of a piece more. The first sum goes into the second once for each byte, and so does each byte once for itself and once
// for each that follows it.
fn with_piece(s: Sums, piece: &[u8]) -> Sums
    requires { length piece.now ≤ 1020 }
    ensures { result ≡ with_bytes (sums_of (s.first % 255) (s.second % 255)) piece.now }
{
    let mut first = u32::from(s.first);
    let mut second = u32::from(s.second) + weighted(piece.len(), first);
    for (i, &b) in piece.iter().enumerate() {
        let b = u32::from(b);
        first += b;
        second += weighted(piece.len() - i, b);
    }
    reduced(first, second)
}

// Fletcher-16 of the bytes from one place up to another, as far as they are there.
pub fn check_sums(bytes: &[u8], from: usize, to: usize) -> Sums
    ensures { result ≡ fletcher (between from to bytes.now) }
{
    let mut s = Sums {
        first: 0,
        second: 0,
    };
    let end = to.min(bytes.len());
    if from < end {
        for piece in bytes[from..end].chunks(PIECE) {
            s = with_piece(s, piece);
        }
    }
    s
}
