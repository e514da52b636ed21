// The block of a payload.
ghost use Rattle.std.specs.Prelude.{◌≡◌, [], ◌∷◌, ◌++◌, ◌/◌, ◌%◌, ◌≤◌, length, replicate};
ghost use Rattle.fletcher.specs.Fletcher.{fletcher};
ghost use Rattle.capture.specs.Blocks.{checked_of, block_of};

use capture::BLOCK;
use fletcher::Sums;

// The number and how many bytes are used, and behind them zeros.
fn headed(place: usize, used: usize) -> [u8; BLOCK]
    requires { (place ≤ 128) × (used ≤ 504) }
    ensures { result ≡ 0 ∷ 0 ∷ 0 ∷ place ∷ used / 256 ∷ used % 256 ∷ replicate 506 0 }
{
    let mut block = [0; BLOCK];
    block[3] = place as u8;
    block[4] = (used / 256) as u8;
    block[5] = (used % 256) as u8;
    block
}

// A payload of at most 504 bytes, whose sums are these, for a place.
#[derive(Clone, Copy)]
pub(crate) struct Entry<'a> {
    pub(crate) place: usize,
    pub(crate) payload: &'a [u8],
    pub(crate) sums: Sums,
    ghost placed: { place ≤ 128 },
    ghost fits: { length payload.now ≤ 504 },
    ghost summed: { sums ≡ fletcher payload.now },
}

impl<'a> Entry<'a> {
    // All but the check, where zeros stand.
    fn filled(&self) -> [u8; BLOCK]
        ensures { result ≡ checked_of self.now.place self.now.payload.now ++ (0 ∷ 0 ∷ []) }
    {
        let n = self.payload.len();
        let mut block = headed(self.place, n);
        block[6..6 + n].copy_from_slice(self.payload);
        block
    }

    // The sums of all but the check, by those of the payload. Each byte of the head goes into the second sum once for itself and once for
    // each byte behind it; the zeros behind the payload bring nothing, but its first sum goes into the second once for each of them.
    fn checked(&self) -> Sums
        ensures { result ≡ fletcher (checked_of self.now.place self.now.payload.now) }
    {
        let n = self.payload.len();
        let high = n / 256;
        let low = n % 256;
        let a = usize::from(self.sums.first);
        let b = usize::from(self.sums.second);
        let first = self.place + high + low + a;
        let second = 507 * self.place + 506 * high + 505 * low + b + (504 - n) * a;
        Sums {
            first: (first % 255) as u8,
            second: (second % 255) as u8,
        }
    }

    // The whole block.
    pub(crate) fn block(&self) -> [u8; BLOCK]
        ensures { result ≡ block_of self.now.place self.now.payload.now }
    {
        let mut block = self.filled();
        let sums = self.checked();
        block[510] = sums.first;
        block[511] = sums.second;
        block
    }
}
