// Bytes, times and prices put into a lent buffer as text. Each function answers the place behind what it put.
use printing::{put, put_all, put_number};

// All nines in the place of a time with a fraction.
const NINES: u64 = 999_999_999_999;

// Bytes as they are, in brackets.
pub(crate) fn put_bracketed(out: &mut [u8], at: usize, text: &[u8]) -> usize {
    let at = put(out, at, b'[');
    let at = put_all(out, at, text);
    put(out, at, b']')
}

// The last two digits of a number.
pub(crate) fn put_two(out: &mut [u8], at: usize, n: u64) -> usize {
    let tens = (n / 10 % 10) as u8;
    let ones = (n % 10) as u8;
    let at = put(out, at, b'0' + tens);
    put(out, at, b'0' + ones)
}

fn glyph(d: u8) -> u8 {
    match d {
        0..=9 => b'0' + d,
        10..=15 => b'A' - 10 + d,
        _ => b'?',
    }
}

// A byte as two digits to the base sixteen.
pub(crate) fn put_hex(out: &mut [u8], at: usize, b: u8) -> usize {
    let at = put(out, at, glyph(b / 16));
    put(out, at, glyph(b % 16))
}

// HHMMSS.
pub(crate) fn put_clock(out: &mut [u8], at: usize, t: u64) -> usize {
    let at = put_two(out, at, t / 10000);
    let at = put(out, at, b':');
    let at = put_two(out, at, t / 100);
    let at = put(out, at, b':');
    put_two(out, at, t)
}

// HHMMSS and six digits of fraction, or that the day is closed.
pub(crate) fn put_time(out: &mut [u8], at: usize, t: u64) -> usize {
    if t == NINES {
        return put_all(out, at, b"closed");
    }
    let at = put_clock(out, at, t / 1_000_000);
    let at = put(out, at, b'.');
    let at = put_two(out, at, t / 10000);
    let at = put_two(out, at, t / 100);
    put_two(out, at, t)
}

// Ten-thousandths.
pub(crate) fn put_price(out: &mut [u8], at: usize, p: u64) -> usize {
    let at = put_number(out, at, p / 10000);
    let at = put(out, at, b'.');
    let at = put_two(out, at, p / 100);
    put_two(out, at, p)
}
