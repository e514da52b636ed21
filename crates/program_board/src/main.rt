// Reads standard input as a closed line and prints the last quotes and trades of the first 256 stocks that come, a JSON object a
// line; the market has more. The rows of a board, in the order in which their stocks first came, and behind them how many messages
// found no row. Input of any length, in constant memory.
#![tactic(auto)]

mod board;
mod rows;

use board::Board;
use line_feed::asked::is_given;
use line_feed::feed::{Failure, LARGE, say, tell};
use line_feed::frames::Frames;
use line_feed::input::Input;
use line_feed::output::Output;
use rows::put_rows;
use std::io::{Read, Write};
use std::process::ExitCode;
use stock_texts::counts::put_refused;

// Hands a whole line to a board, then puts the board and how many messages it refused. Nothing is put before all is heard.
fn put_line<R: Read, W: Write>(
    input: &mut Input<'_, R>,
    output: &mut Output<'_, W>,
) -> Result<(), Failure> {
    let mut board = Board::clear();
    let mut frames = Frames::fresh();
    for _ in 0..u64::MAX {
        let Some(framed) = frames.next(input, output)? else {
            put_rows(output, &board, &mut frames.feed)?;
            frames.feed.to = put_refused(output.out, frames.feed.to, 52, board.refused);
            return frames.feed.written(output);
        };
        board.hear(input.buf, framed);
    }
    Err(Failure::Read)
}

fn report_board(rt: &HostRuntime) -> ExitCode {
    // The five programs over a line begin so: one call would take the work as a closure, and have to ask that it may be called.
    let mut buf = [0u8; LARGE];
    let mut out = [0u8; LARGE];
    let mut input = Input {
        stream: &mut rt.stdin(),
        buf: &mut buf,
    };
    let mut output = Output {
        stream: &mut rt.stdout(),
        out: &mut out,
    };
    let done = put_line(&mut input, &mut output);
    tell(&mut rt.stderr(), b"board", done)
}

// It reads a line of the stock exchange, and none of another that an argument may name.
fn main(rt: HostRuntime) -> ExitCode {
    if is_given(&rt, 1) {
        say(&mut rt.stderr(), b"board: takes no argument\n")
    } else {
        report_board(&rt)
    }
}
