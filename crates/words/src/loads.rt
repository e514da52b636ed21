// Bytes at a place loaded as one number, the first byte lowest; each width is one load when it is compiled. Not by `from_le_bytes`, which
// takes an array and no part of a slice: it would be built of the same bytes first.
ghost use Rattle.std.specs.Prelude.{◌≡◌, ◌+◌, ◌≤◌, ◌<◌, length, take, drop};
ghost use Rattle.words.specs.Words.{bytes};

// Two bytes.
pub(crate) fn two(s: &[u8], at: usize) -> u64
    requires { at + 2 ≤ length s.now }
    ensures { (result < 65536) × (bytes 2 result ≡ take 2 (drop at s.now)) }
{
    s[at] as u64 + s[at + 1] as u64 * 256
}

// Four bytes.
pub(crate) fn four(s: &[u8], at: usize) -> u64
    requires { at + 4 ≤ length s.now }
    ensures { (result < 4294967296) × (bytes 4 result ≡ take 4 (drop at s.now)) }
{
    two(s, at) + two(s, at + 2) * 65536
}

// Eight bytes.
pub(crate) fn eight(s: &[u8], at: usize) -> u64
    requires { at + 8 ≤ length s.now }
    ensures { (result < 18446744073709551616) × (bytes 8 result ≡ take 8 (drop at s.now)) }
{
    four(s, at) + four(s, at + 4) * 4294967296
}
