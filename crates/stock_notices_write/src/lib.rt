// Notices written as a frame.
#![tactic(auto)]

ghost use Rattle.std.specs.Prelude.{◌≡◌, drop, eqb};
ghost use Rattle.std.specs.List.{list_all};
ghost use Rattle.stock_frame.specs.Codec.{legal, frame_of};
ghost use Rattle.stock_frame.specs.Writing.{write_answer, written_over};
ghost use Rattle.stock_notices.specs.Notices.{notice_from, five_codec};

use answers::WriteError;
use layout::put_bytes;
use stock_frame::closing::close;
use stock_notices::{Notice, known};

// Whether the bytes from a place on are all zero.
fn clear(text: &[u8], from: usize) -> bool
    ensures { result ≡ list_all (eqb 0) (drop from text.now) }
{
    text.iter().skip(from).all(|b| *b == 0)
}

// Writes the notice of a number, a category and a text as a frame at the start of the buffer.
pub fn write_text(seq: u32, category: u8, text: &[u8], buf: &mut [u8]) -> Result<usize, WriteError>
    ensures { (result ≡ write_answer (legal five_codec (notice_from seq category text.now)) (frame_of five_codec (notice_from seq category text.now)) buf.old) × (buf.new ≡ written_over (legal five_codec (notice_from seq category text.now)) (frame_of five_codec (notice_from seq category text.now)) buf.old) }
{
    let length = text.len();
    if 99_999_999 < seq {
        return Err(WriteError::Illegal);
    }
    if 60 < length {
        return Err(WriteError::Illegal);
    }
    if !known(category) {
        return Err(WriteError::Illegal);
    }
    if buf.len() < 14 + length {
        return Err(WriteError::NoRoom);
    }
    buf[10] = category / 10 * 16 + category % 10;
    put_bytes(text, buf, 11);
    close(buf, 5, 1, seq, 14 + length)
}

// Writes a notice as a frame at the start of the buffer.
pub fn write(m: Notice, buf: &mut [u8]) -> Result<usize, WriteError>
    ensures { (result ≡ write_answer (legal five_codec m) (frame_of five_codec m) buf.old) × (buf.new ≡ written_over (legal five_codec m) (frame_of five_codec m) buf.old) }
{
    let n = m.length;
    let text = m.text;
    if 60 < n {
        return Err(WriteError::Illegal);
    }
    if !clear(&text, n) {
        return Err(WriteError::Illegal);
    }
    write_text(m.seq, m.category, &text[..n], buf)
}
