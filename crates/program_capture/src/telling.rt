// What failed, and what is said of it on standard error, in one line.
ghost use Rattle.std.specs.Prelude.{◌≤◌, length};

use capture::Unsound;
use printing::{put_all, put_number};
use std::io;
use std::io::{Cursor, Write};
use std::str::from_utf8;

// The files that the program works with.
#[derive(Clone, Copy)]
pub(crate) enum Named {
    File,
    // the file while it is made, by the other name of this number
    Other(usize),
    // the folder of the file
    Folder,
}

// What is done with a file.
#[derive(Clone, Copy)]
pub(crate) enum Act {
    Open,
    Read,
    Write,
    Sync,
    Make,
}

impl Act {
    fn verb(self) -> &'static [u8] {
        match self {
            Act::Open => b"open",
            Act::Read => b"read",
            Act::Write => b"write",
            Act::Sync => b"sync",
            Act::Make => b"make",
        }
    }
}

// Why the program does not do all that it was asked for.
#[derive(Clone, Copy)]
pub(crate) enum Failure {
    // the file is no sound capture
    Unsound(Unsound),
    // 32, once so many bytes were taken
    Full(usize),
    // standard input could not be read on, once so many bytes were taken
    Input(usize),
    // standard output could not be written
    Output,
    // what could not be done with a file, and why
    Call(Act, Named, io::Error),
    // a block could not be written, once so many bytes were taken, and why
    Unwritten(usize, io::Error),
    // a file that is opened to be written must not stand in for a standard stream that is closed
    Closed,
    // the file could not be made under another name
    NamesTaken,
    // the name is empty or longer than its buffer
    Nameless,
    // other words, too few or too many
    Usage,
    // what was said already
    Told,
}

impl From<Unsound> for Failure {
    fn from(why: Unsound) -> Failure {
        Failure::Unsound(why)
    }
}

// How many bytes of a name are the folder's.
fn folder_bytes(name: &[u8]) -> usize
    ensures { result ≤ length name.now }
{
    for i in (0..name.len()).rev() {
        if name[i] == b'/' {
            return i + 1;
        }
    }
    0
}

// The folder of the file of a name.
pub(crate) fn folder_of(name: &[u8]) -> &[u8] {
    let n = folder_bytes(name);
    if n == 0 {
        return b".";
    }
    &name[..n]
}

// The other name of a number, which the first has none behind it.
pub(crate) fn put_other(out: &mut [u8], at: usize, name: &[u8], n: usize) -> usize {
    let at = put_all(out, at, name);
    let at = put_all(out, at, b".new");
    if n == 0 {
        return at;
    }
    put_number(out, at, n as u64)
}

// Why a call of the operating system failed, without the number that std puts behind it.
fn without_number(words: &str) -> &str {
    match words.rsplit_once(" (os error ") {
        Some((why, _)) => why,
        None => words,
    }
}

// How many bytes were written at the start of a buffer.
fn written(position: u64, room: &[u8]) -> usize
    ensures { result ≤ length room.now }
{
    let most = room.len();
    usize::try_from(position).unwrap_or(most).min(most)
}

// A line, as far as it is put together: there is room for the longest name and for what is said of it.
#[derive(Drop)]
struct Line {
    text: [u8; 4224],
    to: usize,
}

impl Line {
    fn put(&mut self, text: &[u8]) {
        self.to = put_all(&mut self.text, self.to, text);
    }

    fn put_count(&mut self, n: usize) {
        self.to = put_number(&mut self.text, self.to, n as u64);
    }

    // How many bytes were taken.
    fn put_taken(&mut self, taken: usize) {
        self.put_count(taken);
        self.put(b" bytes were taken");
    }

    fn put_named(&mut self, which: Named, name: &[u8]) {
        match which {
            Named::File => self.put(name),
            Named::Other(n) => self.to = put_other(&mut self.text, self.to, name, n),
            Named::Folder => self.put(folder_of(name)),
        }
    }

    // Why something failed.
    fn put_why(&mut self, why: io::Error) {
        self.put(b": ");
        let mut words = Cursor::new([0u8; 320]);
        let _ = write!(words, "{why}");
        let position = words.position();
        let text = words.into_inner();
        let n = written(position, &text);
        if let Ok(words) = from_utf8(&text[..n]) {
            self.put(without_number(words).as_bytes());
        }
    }

    // What failed, where the file has this name.
    fn put_failure(&mut self, failure: Failure, name: &[u8]) {
        match failure {
            Failure::Unsound(Unsound::BadBlock(place)) => {
                self.put(b"capture: block ");
                self.put_count(place);
                self.put(b" of ");
                self.put(name);
                self.put(b" is bad");
            }
            Failure::Unsound(Unsound::WrongSize) => {
                self.put(b"capture: ");
                self.put(name);
                self.put(b" is not 65,536 bytes long");
            }
            Failure::Full(taken) => {
                self.put(b"capture: ");
                self.put(name);
                self.put(b" is full: ");
                self.put_taken(taken);
            }
            Failure::Input(taken) => {
                self.put(b"capture: cannot read standard input: ");
                self.put_taken(taken);
            }
            Failure::Output => self.put(b"capture: cannot write standard output"),
            Failure::Call(act, which, why) => {
                self.put(b"capture: cannot ");
                self.put(act.verb());
                self.put(b" ");
                self.put_named(which, name);
                self.put_why(why);
            }
            Failure::Unwritten(taken, why) => {
                self.put(b"capture: cannot write ");
                self.put(name);
                self.put(b", ");
                self.put_taken(taken);
                self.put_why(why);
            }
            Failure::Closed => self.put(b"capture: standard input, output or error is closed"),
            Failure::NamesTaken => {
                self.put(b"capture: cannot make ");
                self.put(name);
                self.put(b": with .new to .new99 behind its name there are files already");
            }
            Failure::Nameless => {
                self.put(b"capture: the name of FILE is empty, or longer than 4,096 bytes");
            }
            Failure::Usage => {
                self.put(b"usage: capture append FILE | show FILE | verify FILE | --help");
            }
            Failure::Told => {}
        }
    }
}

// Says on standard error what failed, if it can be said.
pub(crate) fn tell<W: Write>(err: &mut W, failure: Failure, name: &[u8]) {
    if matches!(failure, Failure::Told) {
        return;
    }
    let mut line = Line {
        text: [0; 4224],
        to: 0,
    };
    line.put_failure(failure, name);
    line.put(b"\n");
    if let Some(text) = line.text.get(..line.to) {
        let _ = err.write_all(text);
    }
}
