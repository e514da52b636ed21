// The times in a body.
ghost use Rattle.std.specs.Prelude.{◌+◌, ◌≤◌, ◌≡◌, true, length, take, drop};
ghost use Rattle.digits.specs.Packed.{good, value};
ghost use Rattle.codes_times.specs.Times.{time_of_day};
ghost use Rattle.stock_halts.specs.Halts.{times_right};

use stock_halts::NINES;

// Three bytes of good digits from a place on are a time of day: what is added gives a byte that is too large its upper bit.
fn day_at(s: &[u8], at: usize) -> bool
    requires { (at + 3 ≤ length s.now) × (good (take 3 (drop at s.now)) ≡ true) }
    ensures { result ≡ time_of_day 0 (value (take 3 (drop at s.now))) }
{
    let x = s[at] as u32 + s[at + 1] as u32 * 256 + s[at + 2] as u32 * 65536 + 0x20205c;
    if x / 0x80 % 2 != 0 {
        return false;
    }
    if x / 0x8000 % 2 != 0 {
        return false;
    }
    x / 0x800000 % 2 == 0
}

// Both times of a body are right. Writing judges the numbers alone (`stock_halts_write`); here the bytes tell it with no division.
pub(crate) fn times_right(body: &[u8], h: u32, r: u32) -> bool
    requires { (12 ≤ length body.now) × (good (take 3 (drop 6 body.now)) ≡ true) × (value (take 3 (drop 6 body.now)) ≡ h) × (good (take 3 (drop 9 body.now)) ≡ true) × (value (take 3 (drop 9 body.now)) ≡ r) }
    ensures { result ≡ times_right h r }
{
    if h == NINES {
        return r == NINES;
    }
    day_at(body, 6) && (r == NINES || day_at(body, 9))
}
