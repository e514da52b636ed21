// Reads nothing and prints the number of the two packed digits of each byte, 16 rows of 16, with 255 where one of them is bad.
#![tactic(auto)]

mod rows;

use rows::put_table;
use std::env::{Env, FillError};
use std::io::Write;
use std::process::ExitCode;

// The bytes of the text.
const TEXT: usize = 1024;

// Says a text on standard error, and answers the exit status of a program that had something to say there, said or not. This and
// `is_given` are those of `line_feed`, on which a program that reads no line does not rest.
fn say<W: Write>(err: &mut W, text: &[u8]) -> ExitCode {
    let _ = err.write_all(text);
    ExitCode::FAILURE
}

fn print_table<W: Write, E: Write>(output: &mut W, err: &mut E) -> ExitCode {
    let mut out = [0u8; TEXT];
    let to = put_table(&mut out, 0);
    match output.write_all(&out[..to]) {
        Ok(()) => ExitCode::SUCCESS,
        Err(_) => say(err, b"table: cannot write standard output\n"),
    }
}

// Whether there is an argument behind the program's name.
fn is_given<E: Env>(env: &E) -> bool {
    !matches!(env.arg(1, &mut []), Err(FillError::NotPresent))
}

fn main(rt: HostRuntime) -> ExitCode {
    if is_given(&rt) {
        say(&mut rt.stderr(), b"table: takes no argument\n")
    } else {
        print_table(&mut rt.stdout(), &mut rt.stderr())
    }
}
