// What the arguments ask for.
ghost use Rattle.std.specs.Prelude.{◌≤◌, length};

use std::env::{Env, FillError};

#[derive(Clone, Copy)]
pub(crate) enum Asked {
    Append,
    Show,
    Verify,
    // one of these, and a name that is empty or longer than its buffer
    Nameless,
    Help,
    // other words, too few or too many
    Unknown,
}

// By one word alone.
fn asked_alone(word: &[u8]) -> Asked {
    match word {
        b"--help" => Asked::Help,
        b"help" => Asked::Help,
        _ => Asked::Unknown,
    }
}

// By a word before a file's name.
fn asked_of_file(word: &[u8]) -> Asked {
    match word {
        b"append" => Asked::Append,
        b"show" => Asked::Show,
        b"verify" => Asked::Verify,
        _ => Asked::Unknown,
    }
}

// Whether there is an argument of this number, the program's own name being 0.
fn is_given<E: Env>(env: &E, i: usize) -> bool {
    !matches!(env.arg(i, &mut []), Err(FillError::NotPresent))
}

// An argument, and how many bytes it has; none if it is not there or longer than the buffer.
pub(crate) fn argument<E: Env>(env: &E, i: usize, buf: &mut [u8]) -> usize
    ensures { result ≤ length buf.new }
{
    env.arg(i, buf).unwrap_or(0)
}

// Where the name has so many bytes. A word that is longer than these is read as no bytes.
pub(crate) fn asked_for<E: Env>(env: &E, name_bytes: usize) -> Asked {
    let mut word = [0u8; 6];
    let n = argument(env, 1, &mut word);
    if !is_given(env, 1) {
        return Asked::Unknown;
    }
    if !is_given(env, 2) {
        return asked_alone(&word[..n]);
    }
    if is_given(env, 3) {
        return Asked::Unknown;
    }
    if name_bytes == 0 {
        return Asked::Nameless;
    }
    asked_of_file(&word[..n])
}
