// Reads standard input as a closed line and prints why each refused frame and each run of skipped bytes is no message, a JSON
// object a line; with derivatives-2015 behind its name it reads a line of the derivatives exchange. Input of any length, in constant
// memory.
#![tactic(auto)]

mod fields;
mod index;
mod objects;
mod reasons;
mod runs;

use line_feed::asked::asked_for;
use line_feed::feed::{Failure, LARGE, tell};
use line_feed::input::Input;
use line_feed::moves::Moves;
use line_feed::output::Output;
use lines::exchanges::Exchange;
use runs::Run;
use std::io::{Read, Write};
use std::process::ExitCode;

// Puts the objects of a whole line of an exchange.
fn put_line<R: Read, W: Write>(
    input: &mut Input<'_, R>,
    output: &mut Output<'_, W>,
    exchange: Exchange,
) -> Result<(), Failure> {
    let mut moves = Moves::fresh(exchange);
    let mut run = Run::fresh();
    for _ in 0..u64::MAX {
        let Some(moved) = moves.next(input, output)? else {
            moves.feed.to = run.put_last(output.out, moves.feed.to, exchange);
            return moves.feed.written(output);
        };
        match run.put_moved(output.out, moves.feed.to, exchange, input.buf, moved) {
            Ok(to) => {
                moves.feed.to = to;
            }
            Err(failure) => return Err(moves.feed.failed(output, failure)),
        }
    }
    Err(Failure::Read)
}

fn tell_why(rt: &HostRuntime, exchange: Exchange) -> ExitCode {
    // The five programs over a line begin so: one call would take the work as a closure, and have to ask that it may be called.
    let mut buf = [0u8; LARGE];
    let mut out = [0u8; LARGE];
    let mut input = Input {
        stream: &mut rt.stdin(),
        buf: &mut buf,
    };
    let mut output = Output {
        stream: &mut rt.stdout(),
        out: &mut out,
    };
    let done = put_line(&mut input, &mut output, exchange);
    tell(&mut rt.stderr(), b"refusals", done)
}

fn main(rt: HostRuntime) -> ExitCode {
    match asked_for(&rt) {
        Some(exchange) => tell_why(&rt, exchange),
        None => tell(&mut rt.stderr(), b"refusals", Err(Failure::Argument)),
    }
}
