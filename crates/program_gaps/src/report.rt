// The report as text, a JSON object a line: some 4,000 bytes, so that it fits the output buffer whole.
use crate::arrivals::Day;
use ledger::{Ledger, LedgerError, Run};
use ledger_figures::{floor, given_up, heard, highest, missing, run};
use printing::put_all;
use stock_texts::counts::{put_count, put_refused};

// The most missing runs that a ledger holds.
const RUNS: u32 = 64;

// How many numbers there are from one to another.
fn count(first: u32, last: u32) -> u64 {
    match last.checked_sub(first) {
        Some(more) => more as u64 + 1,
        None => 0,
    }
}

// The object of a run, if there is one.
fn put_run(out: &mut [u8], at: usize, r: Result<Run, LedgerError>) -> usize {
    match r {
        Ok(Run { first, last }) => {
            let at = put_count(out, at, b"{\"first\":", first as u64);
            let at = put_count(out, at, b",\"last\":", last as u64);
            let at = put_count(out, at, b",\"count\":", count(first, last));
            put_all(out, at, b"}\n")
        }
        Err(_) => at,
    }
}

// The objects of all runs, lowest first.
fn put_runs(out: &mut [u8], at: usize, l: Ledger) -> usize {
    let mut to = at;
    for i in 0..RUNS {
        to = put_run(out, to, run(l, i));
    }
    to
}

// A key and a figure. A ledger that a day leaves has every figure.
fn put_figure(out: &mut [u8], at: usize, key: &[u8], f: Result<u32, LedgerError>) -> usize {
    match f {
        Ok(n) => put_count(out, at, key, n as u64),
        Err(_) => at,
    }
}

// The object of the figures.
fn put_figures(out: &mut [u8], at: usize, l: Ledger) -> usize {
    let at = put_figure(out, at, b"{\"highest\":", highest(l));
    let at = put_figure(out, at, b",\"heard\":", heard(l));
    let at = put_figure(out, at, b",\"missing\":", missing(l));
    let at = put_figure(out, at, b",\"floor\":", floor(l));
    let at = put_figure(out, at, b",\"given_up\":", given_up(l));
    put_all(out, at, b"}\n")
}

// The whole report, and how many bytes it takes.
pub(crate) fn put_report(out: &mut [u8], d: &Day) -> usize {
    let at = put_runs(out, 0, d.ledger);
    let at = put_refused(out, at, 21, d.unnumbered);
    let at = put_refused(out, at, 22, d.unheld);
    let at = put_refused(out, at, 25, d.late);
    put_figures(out, at, d.ledger)
}
