// The rules on a code, and the number that it gives.
ghost use Rattle.std.specs.Prelude.{◌-◌, ◌≤◌, ◌≡◌};
ghost use Rattle.std.specs.List.{list_all};
ghost use Rattle.stock_halts.specs.Halts.{digit_byte, code_for, ascii_from};

use codes_times::code_right;

// Every byte of a code is a digit.
fn all_digits(code: &[u8]) -> bool
    ensures { result ≡ list_all digit_byte code.now }
{
    code.iter().all(|b| b.is_ascii_digit())
}

// A code's bytes are in their range, and at a round's end they are digits.
#[tactic(auto, using(codes_times::proofs::EveryLaws::all_every))]
pub fn code_fits(code: &[u8], round: bool) -> bool
    ensures { result ≡ code_for round code.now }
{
    code_right(code) && (!round || all_digits(code))
}

// A digit's number.
fn digit(b: u8) -> u32
    ensures { (result ≡ b - 48) × (result ≤ 207) }
{
    u32::from(b.saturating_sub(b'0'))
}

// The number that a code gives in digits.
pub fn count_of(code: [u8; 6]) -> u32
    ensures { result ≡ ascii_from 0 code }
{
    let mut v: u32 = 0;
    for b in code {
        v = v * 10 + digit(b);
    }
    v
}
