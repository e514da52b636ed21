// Text put into a lent buffer. Each call answers the place behind what it put; what finds no room is left out.
#![tactic(auto)]

pub mod moving;

ghost use Rattle.std.specs.Prelude.{◌≡◌, [], ◌∷◌, ◌≤◌, length, drop};
ghost use Rattle.printing.specs.Text.{Puts, decimal, field};

// One byte.
pub fn put(out: &mut [u8], at: usize, b: u8) -> usize
    ensures { Puts (b ∷ []) at out.old result out.new }
{
    if at < out.len() {
        out[at] = b;
        return at + 1;
    }
    at
}

// Some bytes.
pub fn put_all(out: &mut [u8], at: usize, text: &[u8]) -> usize
    ensures { Puts text.now at out.old result out.new }
{
    if out.len() <= at {
        return at;
    }
    let n = text.len().min(out.len() - at);
    let end = at + n;
    out[at..end].copy_from_slice(&text[..n]);
    end
}

// A number in decimal digits, without leading zeros.
pub fn put_number(out: &mut [u8], at: usize, n: u64) -> usize
    ensures { Puts (decimal n) at out.old result out.new }
{
    if n <= 9 {
        return put(out, at, 48 + (n % 10) as u8);
    }
    let mut digits = [48; 20];
    let first = spell(n, &mut digits);
    put_all(out, at, &digits[first..])
}

// A number and the byte that ends it.
pub fn put_field(out: &mut [u8], at: usize, n: u64, end: u8) -> usize
    ensures { Puts (field n end) at out.old result out.new }
{
    let to = put_number(out, at, n);
    put(out, to, end)
}

// The largest number of one digit.
const ONE_DIGIT: u64 = 9;

// The digits of a number at the end of a buffer of twenty, and the place of the first.
fn spell(n: u64, digits: &mut [u8]) -> usize
    requires { length digits.old ≡ 20 }
    ensures { (length digits.new ≡ 20) × (result ≤ 20) × (drop result digits.new ≡ decimal n) }
{
    let mut rest = n;
    for i in (1..20).rev() {
        digits[i] = 48 + (rest % 10) as u8;
        if rest <= ONE_DIGIT {
            return i;
        }
        rest /= 10;
    }
    digits[0] = 48 + (rest % 10) as u8;
    0
}
