// Reads standard input as a closed line and prints its listing, what became of every byte; with derivatives-2015 behind its name it reads a
// line of the derivatives exchange. A row for each frame, one for each run of skipped bytes, and the total of accepted, refused and
// skipped bytes. Input of any length, in constant memory.
#![tactic(auto)]

mod rows;

use line_feed::asked::asked_for;
use line_feed::feed::{Failure, LARGE, tell};
use line_feed::input::Input;
use line_feed::output::Output;
use line_feed::rows::Rows;
use lines::exchanges::Exchange;
use rows::{put_header, put_row, put_total};
use std::io::{Read, Write};
use std::process::ExitCode;
use walk::tally::Tally;

// Puts the listing of a whole line of an exchange.
fn put_line<R: Read, W: Write>(
    input: &mut Input<'_, R>,
    output: &mut Output<'_, W>,
    exchange: Exchange,
) -> Result<(), Failure> {
    let mut rows = Rows::fresh(exchange);
    let mut total = Tally::empty();
    rows.feed.to = put_header(output.out, 0);
    for _ in 0..u64::MAX {
        let Some(row) = rows.next(input, output)? else {
            rows.feed.to = put_total(output.out, rows.feed.to, total);
            return rows.feed.written(output);
        };
        total = total.counted(row.answer, row.bytes);
        rows.feed.to = put_row(output.out, rows.feed.to, exchange, row);
    }
    Err(Failure::Read)
}

fn list(rt: &HostRuntime, exchange: Exchange) -> ExitCode {
    // The five programs over a line begin so: one call would take the work as a closure, and have to ask that it may be called.
    let mut buf = [0u8; LARGE];
    let mut out = [0u8; LARGE];
    let mut input = Input {
        stream: &mut rt.stdin(),
        buf: &mut buf,
    };
    let mut output = Output {
        stream: &mut rt.stdout(),
        out: &mut out,
    };
    let done = put_line(&mut input, &mut output, exchange);
    tell(&mut rt.stderr(), b"listing", done)
}

fn main(rt: HostRuntime) -> ExitCode {
    match asked_for(&rt) {
        Some(exchange) => list(&rt, exchange),
        None => tell(&mut rt.stderr(), b"listing", Err(Failure::Argument)),
    }
}
