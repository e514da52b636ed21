// What a file holds.
ghost use Rattle.std.specs.Prelude.{◌≤◌, length, IfOk};

use crate::files::{ROOM, fill, open_to_read};
use crate::telling::{Act, Failure, Named, tell};
use capture::Unsound;
use capture::reading::{finished, payload_at};
use printing::{put_all, put_number};
use std::io::Write;

// The bytes of the output buffer.
const LARGE: usize = 65_536;

// Prints a text that was put into a buffer.
fn print<W: Write>(output: &mut W, out: &[u8], to: usize) -> Result<(), Failure> {
    match out.get(..to) {
        Some(text) => output.write_all(text).map_err(|_| Failure::Output),
        None => Err(Failure::Output),
    }
}

// The bytes of a payload; none of a place at which no block is finished.
fn payload(capture: &[u8], place: usize) -> Option<&[u8]> {
    let part = payload_at(capture, place).ok()?;
    capture.get(part.start..)?.get(..part.length)
}

// The payloads of so many blocks.
fn put_payloads(out: &mut [u8], capture: &[u8], blocks: usize) -> usize {
    let mut to = 0;
    for place in 1..=blocks {
        if let Some(bytes) = payload(capture, place) {
            to = put_all(out, to, bytes);
        }
    }
    to
}

fn put_count(out: &mut [u8], at: usize, key: &[u8], n: usize) -> usize {
    let at = put_all(out, at, key);
    put_number(out, at, n as u64)
}

// Puts how many blocks are finished and how many bytes they have, which are counted by being put there first.
fn put_figures(out: &mut [u8], capture: &[u8], blocks: usize) -> usize {
    let bytes = put_payloads(out, capture, blocks);
    let to = put_count(out, 0, b"{\"finished\":", blocks);
    let to = put_count(out, to, b",\"bytes\":", bytes);
    put_all(out, to, b"}\n")
}

// Puts 33 with the place of the bad block, or 34.
fn put_unsound(out: &mut [u8], unsound: Unsound) -> usize {
    let to = put_count(out, 0, b"{\"answer\":", usize::from(unsound.number()));
    let to = match unsound {
        Unsound::WrongSize => to,
        Unsound::BadBlock(place) => put_count(out, to, b",\"place\":", place),
    };
    put_all(out, to, b"}\n")
}

// How many bytes a file has, which are read.
fn read_file(rt: &HostRuntime, name: &[u8], memory: &mut [u8]) -> Result<usize, Failure>
    ensures { IfOk result (λ n. n ≤ length memory.new) }
{
    let mut file = open_to_read(rt, name).map_err(|why| Failure::Call(
        Act::Open,
        Named::File,
        why,
    ))?;
    fill(&mut file, memory)
        .whole()
        .map_err(|why| Failure::Call(Act::Read, Named::File, why))
}

// Prints the bytes of all finished blocks.
pub(crate) fn show(rt: &HostRuntime, name: &[u8]) -> Result<(), Failure> {
    let mut memory = [0u8; ROOM];
    let mut out = [0u8; LARGE];
    let n = read_file(rt, name, &mut memory)?;
    let capture = &memory[..n];
    let to = put_payloads(&mut out, capture, finished(capture)?);
    print(&mut rt.stdout(), &out, to)
}

// Prints how many blocks are finished and how many bytes they have, or what is wrong, which is said too.
pub(crate) fn verify(rt: &HostRuntime, name: &[u8]) -> Result<(), Failure> {
    let mut memory = [0u8; ROOM];
    let mut out = [0u8; LARGE];
    let n = read_file(rt, name, &mut memory)?;
    let capture = &memory[..n];
    match finished(capture) {
        Ok(blocks) => {
            let to = put_figures(&mut out, capture, blocks);
            print(&mut rt.stdout(), &out, to)
        }
        Err(unsound) => {
            let to = put_unsound(&mut out, unsound);
            if let Err(failure) = print(&mut rt.stdout(), &out, to) {
                tell(&mut rt.stderr(), failure, name);
            }
            Err(Failure::Unsound(unsound))
        }
    }
}
