// Which row a call is about, by the heads alone: its place, or the refusal that there is none.
ghost use Rattle.std.specs.Prelude.{◌≡◌};
ghost use Rattle.stock_board_flat.specs.Flat.{whole};
ghost use Rattle.stock_board_flat.specs.Calls.{asked_flat, row_at_flat};
ghost use Rattle.stock_board_flat.specs.Steps.{flat, found_of, Placed, Told};

use crate::finding::{find, is_of};
use crate::keeping::head_of;
use crate::{CELLS, ROWS};
use codes_times::{code_right, zero_code};
use stock_board::BoardError;
use stock_quotes::Quote;
use stock_quotes_write::is_legal;

// A row's place, and whether the row is taken anew.
#[derive(Clone, Copy)]
pub struct Place {
    pub at: usize,
    pub new: bool,
}

// Whether the lists are as long as a board's.
pub(crate) fn is_whole(heads: &[u64], cells: &[u32]) -> bool
    ensures { result ≡ whole (flat heads.now cells.now) }
{
    heads.len() == ROWS && cells.len() == CELLS
}

// The first row of a code, else the first free one.
fn found(heads: &[u64], code: u64) -> Option<Place>
    ensures { result ≡ found_of code heads.now }
{
    let own = find(heads, code);
    if own < ROWS {
        return Some(Place {
            at: own,
            new: false,
        });
    }
    let free = find(heads, 0);
    if free < ROWS {
        return Some(Place {
            at: free,
            new: true,
        });
    }
    None
}

// The row that a message changes, if it changes one.
pub(crate) fn place_taken(
    heads: &[u64],
    cells: &[u32],
    m: Quote,
) -> Result<Option<Place>, BoardError>
    ensures { Placed (flat heads.now cells.now) m result }
{
    if !is_whole(heads, cells) {
        return Err(BoardError::WrongLength);
    }
    if !is_legal(m) {
        return Err(BoardError::NotWritable);
    }
    let code = m.code;
    if zero_code(&code) {
        return Ok(None);
    }
    let Some(p) = found(heads, head_of(code, 0, 0)) else {
        return Err(BoardError::Full);
    };
    Ok(Some(p))
}

// The row of a code that is asked for.
pub(crate) fn place_asked(heads: &[u64], cells: &[u32], code: [u8; 6]) -> Result<usize, BoardError>
    ensures { Told (flat heads.now cells.now) result (asked_flat (flat heads.now cells.now) code) }
{
    if !is_whole(heads, cells) {
        return Err(BoardError::WrongLength);
    }
    if !code_right(&code) {
        return Err(BoardError::NoRow);
    }
    if zero_code(&code) {
        return Err(BoardError::NoRow);
    }
    let own = find(heads, head_of(code, 0, 0));
    if own < ROWS {
        return Ok(own);
    }
    Err(BoardError::NoRow)
}

// The row in use at a place.
pub(crate) fn place_used(heads: &[u64], cells: &[u32], at: usize) -> Result<usize, BoardError>
    ensures { Told (flat heads.now cells.now) result (row_at_flat (flat heads.now cells.now) at) }
{
    if !is_whole(heads, cells) {
        return Err(BoardError::WrongLength);
    }
    if at >= ROWS {
        return Err(BoardError::NoRow);
    }
    if is_of(heads[at], 0) {
        return Err(BoardError::NoRow);
    }
    Ok(at)
}
