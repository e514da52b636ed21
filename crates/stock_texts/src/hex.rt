// Bytes that may be any, put into a lent buffer.
use printing::put;

fn glyph(d: u8) -> u8 {
    if d < 10 {
        return 48 + d;
    }
    if d < 16 {
        return 87 + d;
    }
    b'?'
}

// A byte as two digits to the base sixteen.
fn put_byte(out: &mut [u8], at: usize, b: u8) -> usize {
    let at = put(out, at, glyph(b / 16));
    put(out, at, glyph(b % 16))
}

fn put_bytes(out: &mut [u8], at: usize, text: &[u8]) -> usize {
    let mut to = at;
    for b in text {
        to = put_byte(out, to, *b);
    }
    to
}

// All of them as a string. Answers the place behind it.
pub fn put_hex(out: &mut [u8], at: usize, text: &[u8]) -> usize {
    let at = put(out, at, b'"');
    let at = put_bytes(out, at, text);
    put(out, at, b'"')
}
