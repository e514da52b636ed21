// Reads frames, each behind two bytes of its length, and prints a line for each: its message, or the answer that refuses it.
// The input is the exchange's own worked examples, which tests/worked/make.py makes, or another of 65,536 bytes at most.
#![tactic(auto)]

mod forms;
mod lines;
mod streams;

use answers::Answer;
use printing::{put, put_all, put_number};
use std::io::{Read, Write};
use std::process::ExitCode;
use stock_reading::reading::{read, read_halt, read_notice, read_prices, read_quote};
use streams::{Failure, LARGE, MOST, MUCH, read_all, written};

// The message of an accepted frame.
fn put_message(frame: &[u8], format: u8, out: &mut [u8], at: usize) -> usize {
    match format {
        5 => lines::put_notice(out, at, &read_notice(frame, 0).notice),
        6 => lines::put_quote(out, at, &read_quote(frame, 0).quote),
        12 => lines::put_prices(out, at, &read_prices(frame, 0).prices),
        _ => lines::put_halt(out, at, &read_halt(frame, 0).halt),
    }
}

fn put_answer(out: &mut [u8], at: usize, n: u8) -> usize {
    let at = put_all(out, at, b"answer ");
    put_number(out, at, n as u64)
}

// What the reader says of a frame.
fn put_reading(frame: &[u8], out: &mut [u8], at: usize) -> usize {
    match read(frame, 0) {
        Answer::Accepted(f) => put_message(frame, f.format, out, at),
        Answer::NoFrame(n, _) => put_answer(out, at, n),
        Answer::Refused(n, length, _) => {
            let at = put_answer(out, at, n);
            let at = put_all(out, at, b" length ");
            put_number(out, at, length as u64)
        }
    }
}

// A line for each record, of two bytes of its length, high first, and a frame; the last may be cut short.
fn put_records<W: Write>(output: &mut W, input: &[u8], out: &mut [u8]) -> Result<(), Failure> {
    let mut to = 0;
    let mut rest = input;
    while let [high, low, behind @ ..] = rest {
        let length = u16::from_be_bytes([*high, *low]) as usize;
        let (frame, later) = behind.split_at(length.min(behind.len()));
        to = put_reading(frame, out, to);
        to = put(out, to, b'\n');
        if MUCH <= to {
            written(output, out, to)?;
            to = 0;
        }
        rest = later;
    }
    written(output, out, to)
}

// Prints what standard input is, unless it is too much.
fn print<R: Read, W: Write>(stream: &mut R, output: &mut W) -> Result<(), Failure> {
    let mut input = [0u8; 65_537];
    let mut out = [0u8; LARGE];
    let n = read_all(stream, &mut input)?;
    if MOST < n {
        return Err(Failure::Long);
    }
    match input.get(..n) {
        Some(bytes) => put_records(output, bytes, &mut out),
        None => Ok(()),
    }
}

fn main(rt: HostRuntime) -> ExitCode {
    let Err(failure) = print(&mut rt.stdin(), &mut rt.stdout()) else {
        return ExitCode::SUCCESS;
    };
    // in one write, so that no other text comes between
    let said: &[u8] = match failure {
        Failure::Read => b"worked: cannot read standard input\n",
        Failure::Long => b"worked: more than 65,536 bytes\n",
        Failure::Write => b"worked: cannot write standard output\n",
    };
    let _ = rt.stderr().write_all(said);
    ExitCode::FAILURE
}
