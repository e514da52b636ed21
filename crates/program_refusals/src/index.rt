// Why a frame of the derivatives exchange is refused, by the number of the answer; 10 is none of its answers.
use crate::reasons::BAD_DIGIT;

// Of the answers 6 to 13.
pub(crate) fn index_why(n: u8) -> &'static str {
    match n {
        6 => "the header, bytes 4 to 12, has a bad digit",
        7 => "the transmission code is not 1 or 4, or the kind is not 5 or 8",
        8 => "the version is not the one of this kind",
        9 => "the body is not 12 or 17 bytes long",
        11 => BAD_DIGIT,
        12 => "a time is no time of day",
        _ => "a contract byte is not 32 to 126, or a reserved status bit is set",
    }
}
