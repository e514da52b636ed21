// The board as two lists of numbers that a caller lends, heads and cells, so that the codes of all rows stand side by side:
// messages taken, rows asked for, without a copy of the board. Every call is refused with 50 first if a list has another length.
#![tactic(auto)]

ghost use Rattle.std.specs.Prelude.{◌≡◌};
ghost use Rattle.stock_board_flat.specs.Calls.{taken_answer, taken_flat, cleared_answer, cleared_flat, asked_flat, row_at_flat, in_use_flat};
ghost use Rattle.stock_board_flat.specs.Steps.{flat};

mod finding;
pub mod keeping;
mod placing;

use crate::finding::count_of;
use crate::keeping::{put_taken, row_in};
use crate::placing::{is_whole, place_asked, place_taken, place_used};
pub use stock_board::ROWS;
use stock_board::{BoardError, Row};
use stock_quotes::Quote;

// The cells of all rows of a board.
pub const CELLS: usize = 6656;

// Makes every row free.
pub fn clear(heads: &mut [u64], cells: &mut [u32]) -> Result<(), BoardError>
    ensures value { result ≡ cleared_answer (flat heads.old cells.old) }
    ensures cells_after { flat heads.new cells.new ≡ cleared_flat (flat heads.old cells.old) }
{
    if is_whole(heads, cells) {
        heads.fill(0);
        cells.fill(0);
        return Ok(());
    }
    Err(BoardError::WrongLength)
}

// Takes a message.
pub fn take(heads: &mut [u64], cells: &mut [u32], m: Quote) -> Result<(), BoardError>
    ensures value { result ≡ taken_answer (flat heads.old cells.old) m }
    ensures cells_after { flat heads.new cells.new ≡ taken_flat (flat heads.old cells.old) m }
{
    if let Some(p) = place_taken(heads, cells, m)? {
        put_taken(heads, cells, p, m);
    }
    Ok(())
}

// The row of a code.
pub fn ask(heads: &[u64], cells: &[u32], code: [u8; 6]) -> Result<Row, BoardError>
    ensures { result ≡ asked_flat (flat heads.now cells.now) code }
{
    let at = place_asked(heads, cells, code)?;
    Ok(row_in(heads, cells, at))
}

// The row at a place, the first at 0.
pub fn row_at(heads: &[u64], cells: &[u32], at: usize) -> Result<Row, BoardError>
    ensures { result ≡ row_at_flat (flat heads.now cells.now) at }
{
    let at = place_used(heads, cells, at)?;
    Ok(row_in(heads, cells, at))
}

// How many rows are in use.
pub fn in_use(heads: &[u64], cells: &[u32]) -> Result<usize, BoardError>
    ensures { result ≡ in_use_flat (flat heads.now cells.now) }
{
    if !is_whole(heads, cells) {
        return Err(BoardError::WrongLength);
    }
    Ok(heads.len() - count_of(heads, 0))
}
