// Numbers behind their keys.
use printing::{put_all, put_number};

// A key with its marks, and a number.
pub fn put_count(out: &mut [u8], at: usize, key: &[u8], n: u64) -> usize {
    let at = put_all(out, at, key);
    put_number(out, at, n)
}

// The object of an answer that refused, and how often, if it did.
pub fn put_refused(out: &mut [u8], at: usize, answer: u64, n: u64) -> usize {
    if n == 0 {
        return at;
    }
    let at = put_count(out, at, b"{\"refused\":", answer);
    let at = put_count(out, at, b",\"count\":", n);
    put_all(out, at, b"}\n")
}
