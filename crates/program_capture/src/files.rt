// Files: read whole, made, and written so that what is written is on the disk.
ghost use Rattle.std.specs.Prelude.{◌≡◌, ◌≤◌, length, IfOk};

use crate::telling::{Act, Failure, Named, folder_of, put_other, tell};
use capture::SIZE;
use std::fs::{File, OpenOptions};
use std::io::{ErrorKind, Read, Write};
use std::os::fd::AsRawFd;
use std::os::unix::fs::FileExt;
use std::str::from_utf8;
use std::{fs, io};

// One byte more than a capture has shows that a file is longer.
pub(crate) const ROOM: usize = SIZE + 1;

// So many names are tried for a file while it is made.
const NAMES: usize = 100;

// The number of standard error, the last of the three standard streams.
const STDERR: i32 = 2;

// What was read: how many bytes, and why a read failed behind them, if one did.
#[derive(Clone, Copy)]
pub(crate) struct Filled {
    pub(crate) count: usize,
    pub(crate) failed: Option<io::Error>,
}

impl Filled {
    // How many bytes there are, where no read failed.
    pub(crate) fn whole(self) -> io::Result<usize>
        ensures { IfOk result (λ n. n ≡ self.count) }
    {
        match self.failed {
            Some(why) => Err(why),
            None => Ok(self.count),
        }
    }
}

// Reads until the buffer is full, the input ends or a read fails.
pub(crate) fn fill<R: Read>(from: &mut R, buf: &mut [u8]) -> Filled
    ensures { result.count ≤ length buf.new }
{
    let mut count = 0;
    // a read may give any number of bytes, so that no range has the turns
    while count < buf.len() {
        match from.read(&mut buf[count..]) {
            Ok(more) => {
                if more == 0 {
                    break;
                }
                count += more;
            }
            Err(why) => {
                return Filled {
                    count,
                    failed: Some(why),
                };
            }
        }
    }
    Filled {
        count,
        failed: None,
    }
}

// A name as std takes it, which has to be UTF-8.
fn path_of(name: &[u8]) -> io::Result<&str> {
    from_utf8(name).map_err(|_| io::Error::from(ErrorKind::InvalidFilename))
}

// Opens a file or a folder to be read.
pub(crate) fn open_to_read(rt: &HostRuntime, name: &[u8]) -> io::Result<File> {
    OpenOptions::new().read(true).open(rt, path_of(name)?)
}

// Opens a file that is there to be read and written where it is, its bytes left as they are.
fn open_to_update(rt: &HostRuntime, name: &[u8]) -> io::Result<File> {
    OpenOptions::new()
        .read(true)
        .write(true)
        .open(rt, path_of(name)?)
}

// Makes a file that is not there yet; no link of its name is followed.
fn create(rt: &HostRuntime, name: &[u8]) -> io::Result<File> {
    OpenOptions::new()
        .write(true)
        .create_new(true)
        .open(rt, path_of(name)?)
}

fn rename(rt: &HostRuntime, from: &[u8], to: &[u8]) -> io::Result<()> {
    fs::rename(rt, path_of(from)?, path_of(to)?)
}

fn remove(rt: &HostRuntime, name: &[u8]) -> io::Result<()> {
    fs::remove_file(rt, path_of(name)?)
}

// Writes a part of a capture at its place in the file, and waits until the disk has it.
pub(crate) fn store(file: &File, capture: &[u8], from: usize, to: usize) -> io::Result<()> {
    if capture.len() < to {
        return Err(io::Error::from(ErrorKind::InvalidInput));
    }
    if to < from {
        return Err(io::Error::from(ErrorKind::InvalidInput));
    }
    file.write_all_at(&capture[from..to], from as u64)?;
    file.sync_data()
}

// Writes a fresh capture, all zeros, into a new file of another name, waits until the disk has it, and closes the file.
fn zeros_stored(mut file: File, n: usize) -> Result<(), Failure> {
    let zeros = [0u8; SIZE];
    file.write_all(&zeros)
        .map_err(|why| Failure::Call(Act::Write, Named::Other(n), why))?;
    file.sync_all()
        .map_err(|why| Failure::Call(Act::Sync, Named::Other(n), why))
}

// Fills the file under its other name, and gives it its own once it is whole.
fn whole(rt: &HostRuntime, file: File, name: &[u8], new: &[u8], n: usize) -> Result<(), Failure> {
    zeros_stored(file, n)?;
    rename(rt, new, name).map_err(|why| Failure::Call(Act::Make, Named::File, why))
}

// Makes the file under another name; false where there is a file of that name. If it cannot be made whole, that is said, and then it is
// removed.
fn made_as(rt: &HostRuntime, name: &[u8], new: &[u8], n: usize) -> Result<bool, Failure> {
    match create(rt, new) {
        Ok(file) => {
            if let Err(failure) = whole(rt, file, name, new, n) {
                tell(&mut rt.stderr(), failure, name);
                let _ = remove(rt, new);
                return Err(Failure::Told);
            }
            Ok(true)
        }
        Err(why) if why.kind() == ErrorKind::AlreadyExists => Ok(false),
        Err(why) => Err(Failure::Call(Act::Make, Named::Other(n), why)),
    }
}

// Makes the file by the other name of this number; false where there is a file of that name. There is room for the longest name and what is
// put behind it.
fn made_by(rt: &HostRuntime, name: &[u8], n: usize) -> Result<bool, Failure> {
    let mut new = [0u8; 4104];
    let to = put_other(&mut new, 0, name, n);
    match new.get(..to) {
        Some(new) => made_as(rt, name, new, n),
        None => Err(Failure::NamesTaken),
    }
}

// Makes the file of a fresh capture, by the first other name that is free. No file of such a name is changed: it may be a capture, and one
// that another program appends to.
fn make(rt: &HostRuntime, name: &[u8]) -> Result<(), Failure> {
    for n in 0..NAMES {
        if made_by(rt, name, n)? {
            return Ok(());
        }
    }
    Err(Failure::NamesTaken)
}

fn unopened(why: io::Error) -> Failure {
    Failure::Call(Act::Open, Named::File, why)
}

// The file, made if it is not there.
fn opened(rt: &HostRuntime, name: &[u8]) -> Result<File, Failure> {
    match open_to_update(rt, name) {
        Err(why) if why.kind() == ErrorKind::NotFound => {
            make(rt, name)?;
            open_to_update(rt, name).map_err(unopened)
        }
        opened => opened.map_err(unopened),
    }
}

// The same, and no file that takes the place of a standard stream that is closed: what is said would be written into it. It is closed before
// anything is said.
pub(crate) fn open_to_append(rt: &HostRuntime, name: &[u8]) -> Result<File, Failure> {
    let file = opened(rt, name)?;
    if file.as_raw_fd() <= STDERR {
        return Err(Failure::Closed);
    }
    Ok(file)
}

// Waits until the disk has the file's name. Each run does, since the one that made the file may have been ended before it had.
pub(crate) fn name_synced(rt: &HostRuntime, name: &[u8]) -> Result<(), Failure> {
    let folder = open_to_read(rt, folder_of(name)).map_err(|why| Failure::Call(
        Act::Open,
        Named::Folder,
        why,
    ))?;
    folder
        .sync_all()
        .map_err(|why| Failure::Call(Act::Sync, Named::Folder, why))
}
