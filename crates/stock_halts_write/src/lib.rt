// Halts written as a frame.
#![tactic(auto)]

ghost use Rattle.std.specs.Prelude.{◌≤◌, ◌≡◌, true, length};
ghost use Rattle.std.proofs.lemmas.List.Edits.{sets};
ghost use Rattle.layout.specs.Cells.{encode};
ghost use Rattle.stock_frame.specs.Codec.{legal, frame_of};
ghost use Rattle.stock_frame.specs.Writing.{write_answer, written_over};
ghost use Rattle.stock_halts.specs.Halts.{nineteen_cells, nineteen_codec, halt_values};

mod judging;
mod numbers;

use crate::judging::is_legal;
use crate::numbers::{halt_time, resume_time, sending_byte};
use answers::WriteError;
use layout::put_bytes;
use stock_halts::Halt;

// Puts the body of a message at its place.
fn put_body(m: Halt, buf: &mut [u8])
    requires { (26 ≤ length buf.old) × (legal nineteen_codec m ≡ true) }
    ensures { buf.new ≡ sets buf.old 10 (encode nineteen_cells (halt_values m)) }
{
    let code = m.code;
    let event = m.event;
    let state = m.state;
    put_bytes(&code, buf, 10);
    digits::fields::write(halt_time(event) as u64, 3, buf, 16).unwrap();
    digits::fields::write(resume_time(event) as u64, 3, buf, 19).unwrap();
    buf[22] = sending_byte(state);
}

// Writes a halt as a frame at the start of the buffer.
pub fn write(m: Halt, buf: &mut [u8]) -> Result<usize, WriteError>
    ensures { (result ≡ write_answer (legal nineteen_codec m) (frame_of nineteen_codec m) buf.old) × (buf.new ≡ written_over (legal nineteen_codec m) (frame_of nineteen_codec m) buf.old) }
{
    if !is_legal(m) {
        return Err(WriteError::Illegal);
    }
    if buf.len() < 26 {
        return Err(WriteError::NoRoom);
    }
    put_body(m, buf);
    stock_frame::closing::close(buf, 19, 1, m.seq, 26)
}
