// Where a bad digit is: the first bad half, counted in halves from 0, the high half of a byte first; none where no half is bad.
ghost use Rattle.std.specs.Prelude.{◌≡◌, ◌&&◌, ◌+◌, ◌*◌, ◌/◌, ◌%◌, ◌≤◌, eqb, ltb, length, take, drop};
ghost use Rattle.digits.specs.Halves.{bad_from, bad_in, bad_at};

// So many bytes are looked at, more than any frame has, so that places stay small: an answer that carries one is no larger than it was.
const MOST: usize = 65535;

// A half of a byte.
const HIGH: usize = 0;

const LOW: usize = 1;

// The place of a half of the byte i.
fn place_of(i: usize, half: usize) -> u32
    requires { (i ≤ 65535) × (half ≤ 1) }
    ensures { result ≡ 2 * i + half }
{
    (2 * i + half) as u32
}

// The first half above 9 of some bytes from a place on, or of all that there are.
fn bad_from(s: &[u8], at: usize, n: usize) -> Option<u32>
    requires { (at ≤ length s.now) × (length s.now ≤ 65535) }
    ensures { result ≡ bad_from (2 * at) (take n (drop at s.now)) }
{
    let end = at + n.min(s.len() - at);
    for (k, &b) in s[at..end].iter().enumerate() {
        if 9 < b / 16 {
            return Some(place_of(at + k, HIGH));
        }
        if 9 < b % 16 {
            return Some(place_of(at + k, LOW));
        }
    }
    None
}

// The first half of an odd number of digits is not 0.
fn bad_lead(b: u8, n: u8) -> bool
    ensures { result ≡ (eqb (n % 2) 1 && ltb 0 (b / 16)) }
{
    n % 2 == 1 && 0 < b / 16
}

// The first bad half of the field 9(n) that begins at a place of no more bytes than are looked at.
fn bad_in(s: &[u8], at: usize, n: u8) -> Option<u32>
    requires { length s.now ≤ 65535 }
    ensures { result ≡ bad_in s.now at n }
{
    if s.len() <= at {
        return None;
    }
    if bad_lead(s[at], n) {
        return Some(place_of(at, HIGH));
    }
    bad_from(s, at, (n / 2 + n % 2) as usize)
}

// The first bad half of the field 9(n) whose bytes begin at a place, counted from the first half of all these bytes. It is a
// second look, for who knows that a digit is bad.
pub fn bad_half(s: &[u8], at: usize, n: u8) -> Option<u32>
    ensures { result ≡ bad_at s.now at n }
{
    bad_in(&s[..MOST.min(s.len())], at, n)
}
