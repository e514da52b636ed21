// Reads standard input as a closed line and prints the message of each accepted frame, a JSON object a line; with derivatives-2015
// behind its name it reads a line of the derivatives exchange. Bids and asks are null where a quote does not show its levels. Input of
// any length, in constant memory.
#![tactic(auto)]

mod index;
mod message;
mod objects;

use index::put_index_line;
use line_feed::asked::asked_for;
use line_feed::feed::{Failure, LARGE, tell};
use line_feed::frames::Frames;
use line_feed::input::Input;
use line_feed::output::Output;
use lines::exchanges::Exchange;
use objects::put_framed;
use std::io::{Read, Write};
use std::process::ExitCode;

// Puts the objects of a whole line of the stock exchange. That of the derivatives exchange has a loop of its own: it pulls moves.
fn put_line<R: Read, W: Write>(
    input: &mut Input<'_, R>,
    output: &mut Output<'_, W>,
) -> Result<(), Failure> {
    let mut frames = Frames::fresh();
    for _ in 0..u64::MAX {
        let Some(framed) = frames.next(input, output)? else {
            return frames.feed.written(output);
        };
        // an array, so that its length is known where text is put: without it good frames take 5 in 100 instructions more
        let Some(out) = output.out.first_chunk_mut::<LARGE>() else {
            return Err(Failure::Cut);
        };
        frames.feed.to = put_framed(out, frames.feed.to, input.buf, framed);
    }
    Err(Failure::Read)
}

// The same of a line of an exchange, in the caller's code: there the streams' fields need no memory.
#[inline(always)]
fn put_messages<R: Read, W: Write>(
    input: &mut Input<'_, R>,
    output: &mut Output<'_, W>,
    exchange: Exchange,
) -> Result<(), Failure> {
    match exchange {
        Exchange::Stock => put_line(input, output),
        Exchange::Derivatives => put_index_line(input, output),
    }
}

fn show(rt: &HostRuntime, exchange: Exchange) -> ExitCode {
    // The five programs over a line begin so: one call would take the work as a closure, and have to ask that it may be called.
    let mut buf = [0u8; LARGE];
    let mut out = [0u8; LARGE];
    let mut input = Input {
        stream: &mut rt.stdin(),
        buf: &mut buf,
    };
    let mut output = Output {
        stream: &mut rt.stdout(),
        out: &mut out,
    };
    let done = put_messages(&mut input, &mut output, exchange);
    tell(&mut rt.stderr(), b"messages", done)
}

fn main(rt: HostRuntime) -> ExitCode {
    match asked_for(&rt) {
        Some(exchange) => show(&rt, exchange),
        None => tell(&mut rt.stderr(), b"messages", Err(Failure::Argument)),
    }
}
