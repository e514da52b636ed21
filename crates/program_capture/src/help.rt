// How the program is used, and what it promises.
use crate::telling::Failure;
use std::io::Write;

const HELP: &[u8] = b"usage: capture append FILE | show FILE | verify FILE | --help

append FILE  Keeps standard input in FILE, behind what it holds, in blocks of 504 bytes, the last one
             shorter. FILE is made where there is none. It holds 128 blocks, 64,512 bytes: where it is
             full, standard error says how many bytes of this run were taken.
show FILE    Prints the bytes of all finished blocks in their order, and nothing else.
verify FILE  Prints how many blocks are finished and how many bytes they have; or the answer 33 and the
             place of the first bad block; or 34 where FILE is not 65,536 bytes long.

Exit status: 0 done; 1 standard error says what failed.

A power loss harms no finished block, and no other is found after it. Each block is written without
the last byte of its number, and fdatasync waits until the device has it; then that byte is written
and waited for, and the block is finished. So a block is found after a power loss only if all its
other bytes had reached the device, and the next append takes the first place that is not finished.
A new FILE is written as FILE.new, synced and renamed, and its folder is synced too. Where that name
is taken it is FILE.new1, and so on to FILE.new99: no file that is there is changed for it. A run that
is ended while it makes FILE leaves such a file of zeros, which may be removed. Ending this program by
kill is safe at any moment.

That is as good as the word of the operating system, by fdatasync. Not covered are
- a drive that says it has bytes while they are in a cache that the power loss empties,
- a drive that spoils the sector which it writes when power goes, or one beside it,
- a network file system,
- a disk that changes bytes by itself: the check of a block finds most such changes, which answer
  33, and mends none,
- a sync that fails, which is said: what the device has then is not known,
- two programs that append to one FILE at a time: no lock is taken,
- the last bytes of standard input, up to 503, until there are 504 or the input ends.
";

pub(crate) fn print_help<W: Write>(output: &mut W) -> Result<(), Failure> {
    output.write_all(HELP).map_err(|_| Failure::Output)
}
