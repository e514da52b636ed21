// Calls for C and Rust: halts read and written. A code, and an event as four numbers.
#![tactic(auto)]

ghost use Rattle.std.specs.Prelude.{◌≡◌, drop};
ghost use Rattle.stock_reading.specs.Reading.{halt_at};
ghost use Rattle.c_outcomes.specs.Outcomes.{read_outcome};
ghost use Rattle.c_outcomes.specs.Lent.{lent};
ghost use Rattle.c_halts.specs.Halts.{halt_numbers, halt_from, halt_outcome, halt_bytes};

mod numbers;

use crate::numbers::{halt_numbers, halt_of, tells_halt};
use answers::WriteError;
use c_outcomes::{is_of, of_answer, of_written};
use stock_reading::reading::read_halt;

// The answer, and a halt's code, and its event, number, resume and state.
pub fn trivsome_read_halt_numbers(
    line: &[u8],
    at: usize,
    code: &mut [u8; 6],
    event: &mut [u32; 4],
) -> u64
    ensures value { result ≡ read_outcome (halt_at (drop at line.now)).answer }
    ensures code_after { code.new ≡ lent 19 (halt_at (drop at line.now)).answer (halt_at (drop at line.now)).halt.code code.old }
    ensures event_after { event.new ≡ lent 19 (halt_at (drop at line.now)).answer (halt_numbers (halt_at (drop at line.now)).halt) event.old }
{
    let r = read_halt(line, at);
    let answer = r.answer;
    if !is_of(answer, 19) {
        return of_answer(answer);
    }
    let halt = r.halt;
    let bytes = halt.code;
    *code = bytes;
    *event = halt_numbers(halt);
    of_answer(answer)
}

// A halt of such numbers written at the start of a buffer: 0 with the length, 14 or 15; numbers of no event are 14.
pub fn trivsome_write_halt_numbers(
    seq: u32,
    code: &[u8; 6],
    event: &[u32; 4],
    buf: &mut [u8],
) -> u64
    ensures value { result ≡ halt_outcome event.now (halt_from seq code.now event.now) buf.old }
    ensures buf_after { buf.new ≡ halt_bytes event.now (halt_from seq code.now event.now) buf.old }
{
    if !tells_halt(event) {
        return of_written(Err(WriteError::Illegal));
    }
    let halt = halt_of(seq, code, event);
    of_written(stock_halts_write::write(halt, buf))
}
