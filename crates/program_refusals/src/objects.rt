// The object of a refused frame, or of a run of skipped bytes.
use crate::reasons::why;
use line_feed::moves::Moved;
use lines::exchanges::Exchange;
use printing::{put_all, put_number};
use stock_texts::counts::put_count;
use stock_texts::hex::put_hex;
use walk::rows::Row;

// So many bytes are shown at most, the first ones.
pub(crate) const SHOWN: usize = 64;

// Those that are shown of a move's bytes.
pub(crate) fn shown(buf: &[u8], moved: Moved) -> Option<&[u8]> {
    let bytes = buf.get(moved.from..moved.to)?;
    bytes.get(..bytes.len().min(SHOWN))
}

// The half byte of the first bad digit, counted from the frame's first byte, or null.
fn put_place(out: &mut [u8], at: usize, place: Option<u32>) -> usize {
    let at = put_all(out, at, b",\"place\":");
    match place {
        None => put_all(out, at, b"null"),
        Some(p) => put_number(out, at, p as u64),
    }
}

// The object of a row of an exchange's line: its place on the whole line, its answer, how many bytes it has, and the first of them.
pub(crate) fn put_object(
    out: &mut [u8],
    at: usize,
    exchange: Exchange,
    row: Row,
    bytes: &[u8],
) -> usize {
    let n = row.answer.number();
    let place = row.answer.place();
    // the fifth byte of a frame of the stock exchange
    let format = bytes.get(4).copied().unwrap_or(0);
    let at = put_count(out, at, b"{\"at\":", row.at);
    let at = put_count(out, at, b",\"answer\":", n as u64);
    let at = put_count(out, at, b",\"bytes\":", row.bytes);
    let at = put_place(out, at, place);
    let at = put_all(out, at, b",\"hex\":");
    let at = put_hex(out, at, bytes);
    let at = put_all(out, at, b",\"why\":\"");
    let at = put_all(out, at, why(exchange, n, place, format).as_bytes());
    put_all(out, at, b"\"}\n")
}
