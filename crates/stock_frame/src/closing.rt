// What closes a frame: 27, the header, the check byte and 0D 0A around a body that stands at its place.
ghost use Rattle.std.specs.Prelude.{◌≡◌, ◌^◌, ◌≤◌, ◌<◌, length};
ghost use Rattle.std.proofs.lemmas.List.Edits.{sets};
ghost use Rattle.layout.specs.Cells.{encode};
ghost use Rattle.stock_frame.specs.Outline.{head_cells};
ghost use Rattle.stock_frame.specs.Writing.{head_values, close_answer, closed_over};

use answers::WriteError;
use digits::fields::write;
use words::xor::xor_of;

// The largest numbers that a format or a version, and a frame's number, can be.
const MOST_KIND: u8 = 99;

const MOST_SEQ: u32 = 99_999_999;

// Writes the header behind 27. It takes its numbers one by one, as `close` is given them: a struct made for this one call is no plainer.
fn write_head(buf: &mut [u8], format: u8, version: u8, seq: u32, n: usize)
    requires { (10 ≤ length buf.old) × (format < 100) × (version < 100) × (seq < 10 ^ 8) × (n < 10 ^ 4) }
    ensures { buf.new ≡ sets buf.old 1 (encode head_cells (head_values n format version seq)) }
{
    write(n as u64, 2, buf, 1).unwrap();
    write(1, 1, buf, 3).unwrap();
    write(format as u64, 1, buf, 4).unwrap();
    write(version as u64, 1, buf, 5).unwrap();
    write(seq as u64, 4, buf, 6).unwrap();
}

// Closes the frame of n bytes at the start of the buffer, whose body stands at its place there.
pub fn close(
    buf: &mut [u8],
    format: u8,
    version: u8,
    seq: u32,
    n: usize,
) -> Result<usize, WriteError>
    ensures { (result ≡ close_answer format version seq n buf.old) × (buf.new ≡ closed_over format version seq n buf.old) }
{
    if format > MOST_KIND || version > MOST_KIND || seq > MOST_SEQ || n < 14 || n > 1024 {
        return Err(WriteError::Illegal);
    }
    if buf.len() < n {
        return Err(WriteError::NoRoom);
    }
    buf[0] = 27;
    write_head(buf, format, version, seq, n);
    let x = xor_of(&buf[1..n - 3]);
    buf[n - 3] = x;
    buf[n - 2] = 13;
    buf[n - 1] = 10;
    Ok(n)
}
