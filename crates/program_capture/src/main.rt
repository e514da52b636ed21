// Keeps up to 64,512 bytes of standard input in a FILE that survives a power loss (append FILE), prints what such a file holds
// (show FILE) or whether it is sound (verify FILE). capture --help says what the operating system has to keep for that. What is
// found after any of an append's stores, and after all, is proved over memory (laws_capture); that a file is written so is not.
#![tactic(auto)]

mod appending;
mod asked;
mod files;
mod help;
mod showing;
mod telling;

use appending::append_to;
use asked::{Asked, argument, asked_for};
use help::print_help;
use showing::{show, verify};
use std::process::ExitCode;
use telling::{Failure, tell};

// Does what is asked for with the file of a name.
fn run(rt: &HostRuntime, asked: Asked, name: &[u8]) -> Result<(), Failure> {
    match asked {
        Asked::Append => append_to(rt, name),
        Asked::Show => show(rt, name),
        Asked::Verify => verify(rt, name),
        Asked::Nameless => Err(Failure::Nameless),
        Asked::Help => print_help(&mut rt.stdout()),
        Asked::Unknown => Err(Failure::Usage),
    }
}

fn main(rt: HostRuntime) -> ExitCode {
    let mut name = [0u8; 4096];
    let n = argument(&rt, 2, &mut name);
    match run(&rt, asked_for(&rt, n), &name[..n]) {
        Ok(()) => ExitCode::SUCCESS,
        Err(failure) => {
            tell(&mut rt.stderr(), failure, &name[..n]);
            ExitCode::FAILURE
        }
    }
}
