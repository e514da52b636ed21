// Index values written as a frame.
ghost use Rattle.std.specs.Prelude.{◌≡◌, true, ◌+◌, ◌≤◌, length, eqb};
ghost use Rattle.std.proofs.lemmas.List.Edits.{sets};
ghost use Rattle.layout.specs.Cells.{encode};
ghost use Rattle.std.specs.List.{list_all};
ghost use Rattle.frame.specs.Codec.{legal, frame_of};
ghost use Rattle.frame.specs.Writing.{write_answer, written_over};
ghost use Rattle.derivatives_index.specs.Index.{index_cells, index_values, index_codec};

use crate::index::Index;
use crate::rules::{is_contract, is_known, is_status, is_time, version_of};
use amounts::Thousandths;
use answers::WriteError;
use codes_times::code_right;
use derivatives_frame::closing::close;
use digits::fields::write as write_digits;
use layout::put_bytes;

// The largest number of a frame.
const MOST_SEQ: u32 = 99_999_999;

// Whether bytes are all zero.
fn is_clear(s: &[u8]) -> bool
    ensures { result ≡ list_all (eqb 0) s.now }
{
    s.iter().all(|b| *b == 0)
}

// Whether an index value breaks no rule.
fn is_legal(m: Index) -> bool
    ensures { result ≡ legal index_codec m }
{
    let contract = m.contract;
    let value = m.value;
    let n = m.length;
    if !is_contract(n) {
        return false;
    }
    if !is_clear(&contract[n..]) {
        return false;
    }
    if m.seq > MOST_SEQ {
        return false;
    }
    if value.0 > Thousandths::MOST {
        return false;
    }
    if !is_known(m.market, m.kind) {
        return false;
    }
    if !is_time(m.sent) {
        return false;
    }
    if !is_time(m.time) {
        return false;
    }
    if !code_right(&contract[..n]) {
        return false;
    }
    is_status(m.kind, m.status)
}

// Puts the body of an index value at its place.
fn put_body(m: Index, buf: &mut [u8])
    requires { (26 + m.length ≤ length buf.old) × (legal index_codec m ≡ true) }
    ensures { buf.new ≡ sets buf.old 14 (encode (index_cells m.length) (index_values m)) }
{
    let contract = m.contract;
    let value = m.value;
    let n = m.length;
    put_bytes(&contract[..n], buf, 14);
    write_digits(m.time as u64, 4, buf, 14 + n).unwrap();
    write_digits(value.0 as u64, 4, buf, 18 + n).unwrap();
    buf[22 + n] = m.status;
}

// Writes an index value as a frame at the start of the buffer.
pub fn write(m: Index, buf: &mut [u8]) -> Result<usize, WriteError>
    ensures { (result ≡ write_answer (legal index_codec m) (frame_of index_codec m) buf.old) × (buf.new ≡ written_over (legal index_codec m) (frame_of index_codec m) buf.old) }
{
    if !is_legal(m) {
        return Err(WriteError::Illegal);
    }
    let n = m.length;
    if buf.len() < 26 + n {
        return Err(WriteError::NoRoom);
    }
    put_body(m, buf);
    let version = version_of(m.kind);
    close(buf, m.market, m.kind, m.sent, m.seq, version, 26 + n)
}
