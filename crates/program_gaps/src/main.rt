// Reads standard input as a closed line and prints which numbers of format six are missing, a JSON object a line; with give-up
// behind its name it gives up the lowest missing run where there would be a 65th. Each missing run, lowest first, each answer
// that refused arrivals, and the figures. Input of any length, in constant memory.
#![tactic(auto)]

mod arrivals;
mod asked;
mod report;

use arrivals::Day;
use asked::gives_up;
use line_feed::feed::{Failure, LARGE, say, tell};
use line_feed::frames::Frames;
use line_feed::input::Input;
use line_feed::output::Output;
use report::put_report;
use std::io::{Read, Write};
use std::process::ExitCode;

// Hears a whole line, then puts its report. Nothing is put before all of it is heard.
fn put_line<R: Read, W: Write>(
    input: &mut Input<'_, R>,
    output: &mut Output<'_, W>,
    gives_up: bool,
) -> Result<(), Failure> {
    let mut day = Day::fresh(gives_up);
    let mut frames = Frames::fresh();
    for _ in 0..u64::MAX {
        let Some(framed) = frames.next(input, output)? else {
            frames.feed.to = put_report(output.out, &day);
            return frames.feed.written(output);
        };
        day.hear(input.buf, framed);
    }
    Err(Failure::Read)
}

fn report_gaps(rt: &HostRuntime, gives_up: bool) -> ExitCode {
    // The five programs over a line begin so: one call would take the work as a closure, and have to ask that it may be called.
    let mut buf = [0u8; LARGE];
    let mut out = [0u8; LARGE];
    let mut input = Input {
        stream: &mut rt.stdin(),
        buf: &mut buf,
    };
    let mut output = Output {
        stream: &mut rt.stdout(),
        out: &mut out,
    };
    let done = put_line(&mut input, &mut output, gives_up);
    tell(&mut rt.stderr(), b"gaps", done)
}

fn main(rt: HostRuntime) -> ExitCode {
    match gives_up(&rt) {
        Some(gives_up) => report_gaps(&rt, gives_up),
        None => say(&mut rt.stderr(), b"gaps: the only argument is give-up\n"),
    }
}
