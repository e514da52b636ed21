// What the rules ask of a kind's fields.
ghost use Rattle.std.specs.Prelude.{◌≡◌, ltb, ◌+◌, ◌^◌};
ghost use Rattle.derivatives_index.specs.Index.{known, number_of, version_of, beside, body_length, free};
ghost use Rattle.codes_times.specs.Times.{time_of_day};

use codes_times::time_of_day;

// The kinds: of a value, and of a trial match and state. A kind and a market stay bytes: `Index` has them as the header says them.
const I060: u8 = b'5';

const I064: u8 = b'8';

// Check 7: a market, futures or options, and a kind.
pub(crate) fn is_known(market: u8, kind: u8) -> bool
    ensures { result ≡ known market kind }
{
    matches!(market, b'1' | b'4') && matches!(kind, I060 | I064)
}

// The number that a kind is called by.
pub(crate) fn number_of(kind: u8) -> u8
    ensures { result ≡ number_of kind }
{
    if kind == I060 { 60 } else { 64 }
}

// Check 8: the version of a kind.
pub(crate) fn version_of(kind: u8) -> u8
    ensures { result ≡ version_of kind }
{
    if kind == I060 { 2 } else { 1 }
}

// Check 9: the length of a body with a short contract, or with a long one.
pub(crate) fn is_length(n: usize) -> bool
    ensures { result ≡ body_length n }
{
    matches!(n, 12 | 17)
}

// The length of a contract, a short one or a long one. One call for both lengths would have to add or take the nine bytes beside a contract.
pub(crate) fn is_contract(n: usize) -> bool
    ensures { result ≡ body_length (n + beside) }
{
    matches!(n, 3 | 8)
}

// Check 12: a time with hundredths.
pub(crate) fn is_time(t: u32) -> bool
    ensures { result ≡ time_of_day 2 t }
{
    time_of_day(t / 100)
}

// Check 13: no reserved bit of a status is set.
pub(crate) fn is_status(kind: u8, status: u8) -> bool
    ensures { result ≡ ltb status (2 ^ free kind) }
{
    status < if kind == I060 { 2 } else { 8 }
}
