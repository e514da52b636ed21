// Reads lines, 65,536 bytes at most. A number on a line arrives, and its answer is printed; a line with a g in it, as in give-up,
// gives the lowest run up. At an empty line and at the end stands what the ledger tells, and it is cleared. Numbers with spaces
// between are the ends of a record of their own, which is lent to every call; behind a slash stand its floor and how many numbers
// were given up. tests/numbers/make.py makes the input.
#![tactic(auto)]

mod lines;
mod streams;

use ledger::{Ledger, PLACES, clear};
use ledger_arrivals::arrive;
use ledger_give_up::give_up;
use lines::{put_arrival, put_give_up, put_ledger, put_lent};
use std::io::{Read, Write};
use std::process::ExitCode;
use streams::{Failure, LARGE, MOST, MUCH, read_all, written};

// Where a number of a record stands.
#[derive(Clone, Copy, Debug, PartialEq, Eq)]
enum Place {
    // among the ends; nothing stands behind the last one without a slash
    End(usize),
    // behind the slash
    Floor,
    // and behind that, how many numbers were given up
    Given,
    // nothing stands behind it
    Behind,
}

impl Place {
    // The place behind this one.
    fn next(self) -> Place {
        match self {
            Place::End(i) if i < PLACES => Place::End(i + 1),
            Place::End(_) => self,
            Place::Floor => Place::Given,
            Place::Given | Place::Behind => Place::Behind,
        }
    }
}

// The ledger, and the line so far: whether it gives up, a record and the place of its next number, then a number, if it has a
// digit.
#[derive(Clone, Copy)]
struct State {
    ledger: Ledger,
    gives_up: bool,
    record: Ledger,
    place: Place,
    number: Option<u32>,
    // how many bytes of text wait in the output buffer
    to: usize,
}

// A new line.
fn line(ledger: Ledger, to: usize) -> State {
    State {
        ledger,
        gives_up: false,
        record: clear(),
        place: Place::End(0),
        number: None,
        to,
    }
}

// A record with a number at its place.
fn with_number(record: Ledger, place: Place, n: u32) -> Ledger {
    let mut record = record;
    match place {
        Place::End(i) if i < PLACES => record.ends[i] = n,
        Place::Floor => record.floor = n,
        Place::Given => record.given = n,
        Place::End(_) | Place::Behind => {}
    }
    record
}

// The number so far, if there is one, is one of a record.
fn end_number(state: State) -> State {
    let Some(n) = state.number else {
        return state;
    };
    let mut state = state;
    state.record = with_number(state.record, state.place, n);
    state.place = state.place.next();
    state.number = None;
    state
}

// The next number of the record is its floor.
fn end_ends(state: State) -> State {
    let mut state = end_number(state);
    state.place = Place::Floor;
    state
}

// A line that gives up.
fn end_give_up(out: &mut [u8], state: State) -> State {
    let gave_up = give_up(state.ledger);
    let to = put_give_up(out, state.to, gave_up.answer);
    line(gave_up.ledger, to)
}

fn end_line(out: &mut [u8], state: State) -> State {
    if state.gives_up {
        return end_give_up(out, state);
    }
    if state.place != Place::End(0) {
        let ended = end_number(state);
        let to = put_lent(out, state.to, ended.record);
        return line(state.ledger, to);
    }
    let Some(n) = state.number else {
        let to = put_ledger(out, state.to, state.ledger);
        return line(clear(), to);
    };
    let arrived = arrive(state.ledger, n);
    let to = put_arrival(out, state.to, n, arrived.answer);
    line(arrived.ledger, to)
}

// A digit more, up to nine of them.
fn add_digit(state: State, digit: u8) -> State {
    let n = state.number.unwrap_or(0);
    if n >= 100_000_000 {
        return state;
    }
    let mut state = state;
    state.number = Some(n * 10 + u32::from(digit));
    state
}

fn take_byte(out: &mut [u8], state: State, b: u8) -> State {
    match b {
        b'\n' => end_line(out, state),
        b' ' => end_number(state),
        b'/' => end_ends(state),
        b'g' => {
            let mut state = state;
            state.gives_up = true;
            state
        }
        b'0'..=b'9' => add_digit(state, b - b'0'),
        _ => state,
    }
}

// Prints what the lines tell.
fn take_all<W: Write>(output: &mut W, input: &[u8], out: &mut [u8]) -> Result<(), Failure> {
    let mut state = line(clear(), 0);
    for &b in input {
        state = take_byte(out, state, b);
        if MUCH <= state.to {
            written(output, out, state.to)?;
            state.to = 0;
        }
    }
    let to = put_ledger(out, state.to, state.ledger);
    written(output, out, to)
}

// Takes standard input, unless it is too much.
fn print<R: Read, W: Write>(stream: &mut R, output: &mut W) -> Result<(), Failure> {
    let mut input = [0u8; 65_537];
    let mut out = [0u8; LARGE];
    let n = read_all(stream, &mut input)?;
    if MOST < n {
        return Err(Failure::Long);
    }
    match input.get(..n) {
        Some(bytes) => take_all(output, bytes, &mut out),
        None => Ok(()),
    }
}

fn main(rt: HostRuntime) -> ExitCode {
    let Err(failure) = print(&mut rt.stdin(), &mut rt.stdout()) else {
        return ExitCode::SUCCESS;
    };
    // in one write, so that no other text comes between
    let said: &[u8] = match failure {
        Failure::Read => b"numbers: cannot read standard input\n",
        Failure::Long => b"numbers: more than 65,536 bytes\n",
        Failure::Write => b"numbers: cannot write standard output\n",
    };
    let _ = rt.stderr().write_all(said);
    ExitCode::FAILURE
}
