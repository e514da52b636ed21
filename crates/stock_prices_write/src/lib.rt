// Prices written as a frame.
#![tactic(auto)]

ghost use Rattle.std.specs.Prelude.{◌≡◌};
ghost use Rattle.stock_frame.specs.Codec.{legal, frame_of};
ghost use Rattle.stock_frame.specs.Writing.{write_answer, written_over};
ghost use Rattle.stock_prices.specs.Prices.{twelve_codec};

mod judging;
mod writing;

use answers::WriteError;
use stock_frame::closing::close;
use stock_prices::{FRAME, Prices};

// Writes prices as a frame at the start of the buffer.
pub fn write(m: Prices, buf: &mut [u8]) -> Result<usize, WriteError>
    ensures { (result ≡ write_answer (legal twelve_codec m) (frame_of twelve_codec m) buf.old) × (buf.new ≡ written_over (legal twelve_codec m) (frame_of twelve_codec m) buf.old) }
{
    if !judging::is_legal(m) {
        return Err(WriteError::Illegal);
    }
    if buf.len() < FRAME {
        return Err(WriteError::NoRoom);
    }
    let slots = m.slots;
    digits::fields::write(m.count as u64, 1, buf, 10).unwrap();
    writing::put_slots(slots, buf);
    close(buf, 12, 3, m.seq, FRAME)
}
