// Rules that several formats share: a code's bytes, and a time of day.
#![tactic(auto)]

ghost use Rattle.std.specs.Prelude.{◌≡◌};
ghost use Rattle.codes_times.specs.Times.{time_of_day, code_at, code_right, zero_code};

// The six bytes of a code from a place on; zeros where they run past the end.
pub fn code_at(s: &[u8], at: usize) -> [u8; 6]
    ensures { result ≡ code_at s.now at }
{
    if s.len() < 6 {
        return [0; 6];
    }
    if s.len() - 6 < at {
        return [0; 6];
    }
    [s[at], s[at + 1], s[at + 2], s[at + 3], s[at + 4], s[at + 5]]
}

// Every byte of a code is 32 to 126.
pub fn code_right(code: &[u8]) -> bool
    ensures { result ≡ code_right code.now }
{
    code.iter().all(|&b| 32 <= b && b <= 126)
}

// Every byte of a code is the digit 0.
pub fn zero_code(code: &[u8]) -> bool
    ensures { result ≡ zero_code code.now }
{
    code.iter().all(|&b| 48 == b)
}

// HHMMSS is a time of day.
pub fn time_of_day(hhmmss: u32) -> bool
    ensures { result ≡ time_of_day 0 hhmmss }
{
    if 23 < hhmmss / 10000 {
        return false;
    }
    if 59 < hhmmss / 100 % 100 {
        return false;
    }
    hhmmss % 100 < 60
}
