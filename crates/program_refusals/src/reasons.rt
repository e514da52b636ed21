// Why a frame is refused or bytes are skipped, in words, by the number of the answer; of the answers to a frame of the derivatives
// exchange `index.rt` tells.
use crate::fields::{field_why, time_why};
use crate::index::index_why;
use lines::exchanges::Exchange;

// The answer 11, of either exchange.
pub(crate) const BAD_DIGIT: &str = "a packed field of the body has a bad digit";

// Of the answer 3: the digits are bad, or the number is.
fn length_why(exchange: Exchange, place: Option<u32>) -> &'static str {
    match (place, exchange) {
        (Some(_), _) => "the length has a bad digit",
        (None, Exchange::Stock) => "the length is below 14 or above 1024",
        (None, Exchange::Derivatives) => "the frame would be longer than 1024 bytes",
    }
}

// Of the answers 6 to 13 to a frame of the stock exchange.
fn stock_why(n: u8, format: u8) -> &'static str {
    match n {
        6 => "the header, bytes 4 to 10, has a bad digit",
        7 => "the business is not 01, or the format is not 05, 06, 12 or 19",
        8 => "the version is not that of the format",
        9 => "the length is not one that the format, or the reveal byte, allows",
        10 => "the reveal byte has more than 5 levels on a side, or levels with bit 0 set",
        11 => BAD_DIGIT,
        12 => time_why(format),
        _ => field_why(format),
    }
}

// The words; the format's byte is looked at in a frame of the stock exchange.
pub(crate) fn why(exchange: Exchange, n: u8, place: Option<u32>, format: u8) -> &'static str {
    match n {
        1 => "no frame begins here: the first byte is not 1B",
        2 => "the line ends before this frame does",
        3 => length_why(exchange, place),
        4 => "the frame does not end in 0D 0A where its length says",
        5 => "the check byte is not the exclusive-or of the bytes that it covers",
        _ => match exchange {
            Exchange::Stock => stock_why(n, format),
            Exchange::Derivatives => index_why(n),
        },
    }
}
