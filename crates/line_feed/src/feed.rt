// A line that is being read, and the text about it that waits to be written.
ghost use Rattle.std.specs.Prelude.{◌≡◌, is_ok, if◌then◌else◌};
ghost use Rattle.std.specs.Process.{exit_status};
ghost use Rattle.line_feed.specs.Beginning.{fresh_feed};
ghost use Rattle.line_feed.specs.declared.feed.Failure.TheVariants.{Full};

use lines::exchanges::Exchange;
use std::fmt;
use std::io::Write;
use std::process::ExitCode;
use walk::rows::RowsError;

// The bytes of a program's input buffer, and of its output buffer.
pub const LARGE: usize = 65_536;

// What failed.
#[derive(Clone, Copy, Debug, PartialEq, Eq)]
pub enum Failure {
    // standard input could not be read
    Read,
    // standard output took no more
    Write,
    // a text was put that the output buffer has no room for
    Cut,
    // an argument that the program does not take
    Argument,
    // 16: the place would pass the largest number
    Full,
}

impl fmt::Display for Failure {
    fn fmt<W: fmt::Write>(&self, f: &mut fmt::Formatter<W>) -> fmt::Result {
        match self {
            Failure::Read => write!(f, "cannot read standard input"),
            Failure::Write => write!(f, "cannot write standard output"),
            Failure::Cut => write!(f, "a text has no room in the buffer"),
            Failure::Argument => write!(f, "the only argument is derivatives-2015"),
            Failure::Full => write!(f, "answer 16: the line is too long to count"),
        }
    }
}

impl From<RowsError> for Failure {
    ghost from_gives = { λ _ e. e ≡ Full };

    fn from(_e: RowsError) -> Failure {
        Failure::Full
    }
}

#[derive(Clone, Copy)]
pub struct Feed {
    // the bytes in hand that are not done with: from a place of the input buffer up to an end
    pub at: usize,
    pub end: usize,
    // how many bytes of text wait in the output buffer: a part of the state, so that the contract of `fresh` says that none do at first
    pub to: usize,
    // the last piece was shorter than the room for it, so the line may pause here
    pub short: bool,
    // no more bytes will come
    pub closed: bool,
    // whose line it is
    pub exchange: Exchange,
    // what failed, if anything did: then nothing more is pulled
    pub failure: Option<Failure>,
}

impl Feed {
    // At the beginning of a line of an exchange.
    pub(crate) fn fresh(exchange: Exchange) -> Feed
        ensures { result ≡ fresh_feed exchange }
    {
        Feed {
            at: 0,
            end: 0,
            to: 0,
            short: false,
            closed: false,
            exchange,
            failure: None,
        }
    }
}

// Says a text on standard error, and answers the exit status of a program that had something to say there, said or not.
pub fn say<W: Write>(err: &mut W, text: &[u8]) -> ExitCode
    ensures { exit_status result ≡ 1 }
{
    let _ = err.write_all(text);
    ExitCode::FAILURE
}

// Says on standard error what failed in a program, if anything did, and answers the program's exit status.
pub fn tell<W: Write, F: fmt::Display + Drop>(
    err: &mut W,
    program: &[u8],
    done: Result<(), F>,
) -> ExitCode
    ensures { exit_status result ≡ (if is_ok done then 0 else 1) }
{
    let Err(failure) = done else {
        return ExitCode::SUCCESS;
    };
    say(err, program);
    say(err, b": ");
    let _ = write!(err, "{failure}");
    say(err, b"\n")
}
