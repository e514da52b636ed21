// A code, a price, an index value, a time, and what stands between the elements of an array.
use amounts::{Price, Thousandths};
use printing::{put, put_all, put_number};

// All nines in the place of a time with a fraction.
const NINES: u64 = 999_999_999_999;

// The last two digits of a number.
pub fn put_two(out: &mut [u8], at: usize, n: u64) -> usize {
    let tens = (n / 10 % 10) as u8;
    let ones = (n % 10) as u8;
    let at = put(out, at, 48 + tens);
    put(out, at, 48 + ones)
}

// HHMMSS, without quotation marks.
fn put_hours(out: &mut [u8], at: usize, t: u64) -> usize {
    let at = put_two(out, at, t / 10000);
    let at = put(out, at, b':');
    let at = put_two(out, at, t / 100);
    let at = put(out, at, b':');
    put_two(out, at, t)
}

// HHMMSS.
pub fn put_clock(out: &mut [u8], at: usize, t: u64) -> usize {
    let at = put(out, at, b'"');
    let at = put_hours(out, at, t);
    put(out, at, b'"')
}

// HHMMSS and two digits of fraction.
pub fn put_hundredths(out: &mut [u8], at: usize, t: u64) -> usize {
    let at = put(out, at, b'"');
    let at = put_hours(out, at, t / 100);
    let at = put(out, at, b'.');
    let at = put_two(out, at, t);
    put(out, at, b'"')
}

// HHMMSS and six digits of fraction; where there is no time, null and the words that say why.
pub fn put_time(out: &mut [u8], at: usize, t: u64, why: &[u8]) -> usize {
    let at = put_all(out, at, b",\"time\":");
    if t == NINES {
        return put_all(out, at, why);
    }
    let at = put(out, at, b'"');
    let at = put_hours(out, at, t / 1_000_000);
    let at = put(out, at, b'.');
    let at = put_two(out, at, t / 10000);
    let at = put_two(out, at, t / 100);
    let at = put_two(out, at, t);
    put(out, at, b'"')
}

// Ten-thousandths, with all four decimals.
pub fn put_price(out: &mut [u8], at: usize, p: Price) -> usize {
    let n = p.0 as u64;
    let at = put(out, at, b'"');
    let at = put_number(out, at, n / 10000);
    let at = put(out, at, b'.');
    let at = put_two(out, at, n / 100);
    let at = put_two(out, at, n);
    put(out, at, b'"')
}

// Thousandths, with all three decimals.
pub fn put_thousandths(out: &mut [u8], at: usize, v: Thousandths) -> usize {
    let n = v.0 as u64;
    let tenths = (n / 100 % 10) as u8;
    let at = put(out, at, b'"');
    let at = put_number(out, at, n / 1000);
    let at = put(out, at, b'.');
    let at = put(out, at, 48 + tenths);
    let at = put_two(out, at, n);
    put(out, at, b'"')
}

// A byte of a string that is 32 to 126.
fn put_letter(out: &mut [u8], at: usize, b: u8) -> usize {
    if b == b'"' {
        return put_all(out, at, b"\\\"");
    }
    if b == b'\\' {
        return put_all(out, at, b"\\\\");
    }
    put(out, at, b)
}

fn put_letters(out: &mut [u8], at: usize, text: &[u8]) -> usize {
    let mut to = at;
    for b in text {
        to = put_letter(out, to, *b);
    }
    to
}

// Bytes that are 32 to 126 as a string, its spaces too.
pub fn put_string(out: &mut [u8], at: usize, text: &[u8]) -> usize {
    let at = put(out, at, b'"');
    let at = put_letters(out, at, text);
    put(out, at, b'"')
}

// A code; the mark before its key opens the object or goes on with it.
pub fn put_code(out: &mut [u8], at: usize, mark: u8, code: [u8; 6]) -> usize {
    let at = put(out, at, mark);
    let at = put_all(out, at, b"\"code\":");
    put_string(out, at, &code)
}

// A comma before each element of an array but the first.
pub fn put_comma(out: &mut [u8], at: usize, i: usize) -> usize {
    if i == 0 {
        return at;
    }
    put(out, at, b',')
}
