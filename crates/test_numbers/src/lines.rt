// The lines of what the ledger tells. Each function puts text into a lent buffer and answers the place behind what it put.
use ledger::{Arrival, Ledger, LedgerError, Run};
use ledger_arrivals::arrive;
use ledger_figures::{floor, given_up, heard, highest, missing, run, runs};
use ledger_give_up::give_up;
use printing::{put, put_all, put_number};

// A number behind a space.
fn put_spaced(out: &mut [u8], at: usize, n: u32) -> usize {
    let at = put(out, at, b' ');
    put_number(out, at, u64::from(n))
}

// The number of a refusal behind a space.
fn put_refused(out: &mut [u8], at: usize, e: LedgerError) -> usize {
    put_spaced(out, at, u32::from(e.number()))
}

fn put_answer(out: &mut [u8], at: usize, answer: Result<Arrival, LedgerError>) -> usize {
    let at = match answer {
        Ok(Arrival::New) => put_all(out, at, b" new"),
        Ok(Arrival::Repeat) => put_all(out, at, b" repeat"),
        Err(e) => put_refused(out, at, e),
    };
    put(out, at, b'\n')
}

// What the arrival of a number is answered.
pub(crate) fn put_arrival(
    out: &mut [u8],
    at: usize,
    n: u32,
    answer: Result<Arrival, LedgerError>,
) -> usize {
    let at = put_number(out, at, u64::from(n));
    put_answer(out, at, answer)
}

fn put_figure(out: &mut [u8], at: usize, name: &[u8], figure: Result<u32, LedgerError>) -> usize {
    let at = put_all(out, at, name);
    match figure {
        Ok(n) => put_spaced(out, at, n),
        Err(e) => put_refused(out, at, e),
    }
}

fn put_found(out: &mut [u8], at: usize, found: Result<Run, LedgerError>) -> usize {
    match found {
        Ok(run) => {
            let at = put_spaced(out, at, run.first);
            let at = put(out, at, b'-');
            put_number(out, at, u64::from(run.last))
        }
        Err(e) => put_refused(out, at, e),
    }
}

// The run that was given up, or why there is none.
pub(crate) fn put_give_up(out: &mut [u8], at: usize, answer: Result<Run, LedgerError>) -> usize {
    let at = put_all(out, at, b"give-up");
    let at = put_found(out, at, answer);
    put(out, at, b'\n')
}

fn put_run(out: &mut [u8], at: usize, place: u32, found: Result<Run, LedgerError>) -> usize {
    let at = put_all(out, at, b"run");
    let at = put_spaced(out, at, place);
    let at = put_found(out, at, found);
    put(out, at, b'\n')
}

// Every run, and that there is none behind the last.
fn put_runs(out: &mut [u8], at: usize, ledger: Ledger) -> usize {
    let mut to = at;
    for place in 0..=runs(ledger).unwrap_or(0) {
        to = put_run(out, to, place, run(ledger, place));
    }
    to
}

// The floor and how many numbers were given up, at the end of a line.
fn put_floor(out: &mut [u8], at: usize, ledger: Ledger) -> usize {
    let at = put_figure(out, at, b" floor", floor(ledger));
    let at = put_figure(out, at, b" given-up", given_up(ledger));
    put(out, at, b'\n')
}

pub(crate) fn put_ledger(out: &mut [u8], at: usize, ledger: Ledger) -> usize {
    let at = put_figure(out, at, b"highest", highest(ledger));
    let at = put_figure(out, at, b" heard", heard(ledger));
    let at = put_figure(out, at, b" missing", missing(ledger));
    let at = put_figure(out, at, b" runs", runs(ledger));
    let at = put_floor(out, at, ledger);
    put_runs(out, at, ledger)
}

// What the calls answer to a record, the arrival of 3 and giving up first.
pub(crate) fn put_lent(out: &mut [u8], at: usize, record: Ledger) -> usize {
    let arrived = arrive(record, 3);
    let at = put_all(out, at, b"lent");
    let at = put_answer(out, at, arrived.answer);
    let gave_up = give_up(record);
    let at = put_all(out, at, b"lent ");
    let at = put_give_up(out, at, gave_up.answer);
    put_ledger(out, at, record)
}
