// The table as text.
ghost use Rattle.std.specs.Prelude.{◌≡◌, [], ◌∷◌, ◌++◌};
ghost use Rattle.printing.specs.Text.{Puts};
ghost use Rattle.program_table.specs.Printed.{space_if, aligned, parting, table_text};

use digits::table::table;
use printing::{put, put_number};

// A space, or nothing.
fn put_space_if(out: &mut [u8], at: usize, wanted: bool) -> usize
    ensures { Puts (space_if wanted) at out.old result out.new }
{
    if wanted {
        return put(out, at, b' ');
    }
    at
}

// A number of at most three digits in three places.
fn put_aligned(out: &mut [u8], at: usize, n: u8) -> usize
    ensures { Puts (aligned n) at out.old result out.new }
{
    let to = put_space_if(out, at, n < 100);
    let to = put_space_if(out, to, n < 10);
    put_number(out, to, n as u64)
}

// What parts the entry of a byte from the next one.
fn parting_of(b: usize) -> u8
    ensures { result ≡ parting b }
{
    if b % 16 == 15 { b'\n' } else { b' ' }
}

// The entry of a byte.
fn put_entry(out: &mut [u8], at: usize, b: usize, entry: u8) -> usize
    ensures { Puts (aligned entry ++ (parting b ∷ [])) at out.old result out.new }
{
    let to = put_aligned(out, at, entry);
    put(out, to, parting_of(b))
}

// The whole table.
pub(crate) fn put_table(out: &mut [u8], at: usize) -> usize
    ensures { Puts table_text at out.old result out.new }
{
    let entries = table();
    let mut to = at;
    for b in 0..256 {
        to = put_entry(out, to, b, entries[b]);
    }
    to
}
