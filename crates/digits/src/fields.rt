// A packed field of any width up to nine bytes, read out of and written into lent bytes.
ghost use Rattle.std.specs.Prelude.{◌≡◌, ◌+◌, ◌*◌, ◌/◌, ◌%◌, ◌<◌, ◌≤◌, ◌^◌, length};
ghost use Rattle.std.proofs.lemmas.List.Edits.{sets};
ghost use Rattle.digits.specs.Packed.{byte_of, packed};
ghost use Rattle.digits.specs.Fields.{field_at, put_answer, put_at};
ghost use Rattle.digits.specs.Lent.{field_by};

use crate::table::table;

// The most bytes whose number always fits a u64.
pub const WIDEST: usize = 9;

// The first number that four bytes cannot hold.
const PAST_FOUR: u64 = 100_000_000;

// Why a field has no number.
#[derive(Clone, Copy)]
pub enum FieldError {
    // a bad digit: the place of the first bad half, counted from the field's first half
    Bad(usize),
    // the field runs past the end of the bytes, or is wider than nine bytes
    Outside,
}

// Why a number is not written; else every byte of the field is.
#[derive(Clone, Copy)]
pub enum PutError {
    // the number has more digits than the field
    TooLarge,
    // as for reading
    Outside,
}

// The number in the n bytes from a place, each byte looked up in a lent table, as the one of `table`.
pub fn read_by(table: &[u8; 256], s: &[u8], at: usize, n: usize) -> Result<u64, FieldError>
    ensures { result ≡ field_by table.now s.now at n }
{
    if WIDEST < n || s.len() < n || s.len() - n < at {
        return Err(FieldError::Outside);
    }
    let mut v: u64 = 0;
    for (k, &b) in s[at..at + n].iter().enumerate() {
        let d = table[b as usize];
        if 99 < d {
            if 9 < b / 16 {
                return Err(FieldError::Bad(2 * k));
            }
            return Err(FieldError::Bad(2 * k + 1));
        }
        v = v * 100 + d as u64;
    }
    Ok(v)
}

// The number in the n bytes from a place. It makes a table for its field, so who reads many fields lends one to `read_by`.
pub fn read(s: &[u8], at: usize, n: usize) -> Result<u64, FieldError>
    ensures { result ≡ field_at s.now at n }
{
    let table = table();
    read_by(&table, s, at, n)
}

// The first number that n bytes cannot hold. By `pow`, writing a field of three bytes or more took 8 to 11 parts in a hundred longer.
fn limit(n: usize) -> u64
    requires { n ≤ 9 }
    ensures { result ≡ 100 ^ n }
{
    let mut r: u64 = 1;
    for _ in 0..n {
        r *= 100;
    }
    r
}

// The last 2n digits of a number as n bytes from a place, byte after byte.
fn put_each(v: u64, n: usize, buf: &mut [u8], at: usize)
    requires { at + n ≤ length buf.old }
    ensures { buf.new ≡ sets buf.old at (packed n v) }
{
    let mut w = v;
    for k in (at..at + n).rev() {
        let d = (w % 100) as u8;
        buf[k] = d / 10 * 16 + d % 10;
        w = w / 100;
    }
}

// The two bytes of four digits, sixteen bits apart: 103 / 1024 of a number below 100 is its tens, and one product has both.
fn two_bytes(a: u32) -> u32
    requires { a < 10000 }
    ensures { result ≡ byte_of (a / 100) + byte_of (a % 100) * 65536 }
{
    let y = a / 100 + a % 100 * 65536;
    let t = ((y * 103) >> 10) & 0x000f000f;
    y + t * 6
}

// Eight digits as four bytes from a place.
fn put_four(v: u32, buf: &mut [u8], at: usize)
    requires { (v < 100000000) × (at + 4 ≤ length buf.old) }
    ensures { buf.new ≡ sets buf.old at (packed 4 v) }
{
    let a = two_bytes(v / 10000);
    let b = two_bytes(v % 10000);
    buf[at] = (a % 256) as u8;
    buf[at + 1] = (a / 65536) as u8;
    buf[at + 2] = (b % 256) as u8;
    buf[at + 3] = (b / 65536) as u8;
}

// Writes a number as n bytes from a place, the last four of them at once; a refusal leaves every byte.
pub fn write(v: u64, n: usize, buf: &mut [u8], at: usize) -> Result<(), PutError>
    ensures { (result ≡ put_answer v n buf.old at) × (buf.new ≡ put_at v n buf.old at) }
{
    if WIDEST < n || buf.len() < n || buf.len() - n < at {
        return Err(PutError::Outside);
    }
    if limit(n) <= v {
        return Err(PutError::TooLarge);
    }
    if n < 4 {
        put_each(v, n, buf, at);
        return Ok(());
    }
    put_each(v / PAST_FOUR, n - 4, buf, at);
    put_four((v % PAST_FOUR) as u32, buf, at + (n - 4));
    Ok(())
}
