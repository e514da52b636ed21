// What closes a frame: 27, the header, the check byte and 0D 0A around a body that stands at its place.
ghost use Rattle.std.specs.Prelude.{◌≡◌, ◌^◌, ◌≤◌, ◌<◌, [], length};
ghost use Rattle.std.proofs.lemmas.List.Edits.{sets};
ghost use Rattle.frame.specs.Writing.{head_bytes};
ghost use Rattle.derivatives_frame.specs.Outline.{header};
ghost use Rattle.derivatives_frame.specs.Closing.{head_numbers, close_answer, closed_over};

use answers::WriteError;
use digits::fields::write;
use words::xor::xor_of;

// The largest numbers that a time or a frame's number, and a version, can be.
const MOST_EIGHT: u32 = 99_999_999;

const MOST_VERSION: u8 = 99;

// Writes the header behind 27, of a frame whose body has n bytes. It takes its numbers one by one, as `close` is given them: a struct
// made for this one call is no plainer.
fn write_head(buf: &mut [u8], market: u8, kind: u8, sent: u32, seq: u32, version: u8, n: usize)
    requires { (14 ≤ length buf.old) × (sent < 10 ^ 8) × (seq < 10 ^ 8) × (version < 100) × (n < 10 ^ 4) }
    ensures { buf.new ≡ sets buf.old 1 (head_bytes header (head_numbers market kind sent seq version) [] n) }
{
    buf[1] = market;
    buf[2] = kind;
    write(sent as u64, 4, buf, 3).unwrap();
    write(seq as u64, 4, buf, 7).unwrap();
    write(version as u64, 1, buf, 11).unwrap();
    write(n as u64, 2, buf, 12).unwrap();
}

// Closes the frame of n bytes at the start of the buffer, whose body stands at its place there.
pub fn close(
    buf: &mut [u8],
    market: u8,
    kind: u8,
    sent: u32,
    seq: u32,
    version: u8,
    n: usize,
) -> Result<usize, WriteError>
    ensures { (result ≡ close_answer sent seq version n buf.old) × (buf.new ≡ closed_over market kind sent seq version n buf.old) }
{
    if sent > MOST_EIGHT || seq > MOST_EIGHT || version > MOST_VERSION || n < 17 || n > 1024 {
        return Err(WriteError::Illegal);
    }
    if buf.len() < n {
        return Err(WriteError::NoRoom);
    }
    buf[0] = 27;
    write_head(buf, market, kind, sent, seq, version, n - 17);
    let x = xor_of(&buf[1..n - 3]);
    buf[n - 3] = x;
    buf[n - 2] = 13;
    buf[n - 1] = 10;
    Ok(n)
}
