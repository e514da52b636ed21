// The board of last quotes as a lent slice of 256 rows: calls that find and change one row, ask for one, and clear them all.
#![tactic(auto)]

ghost use Rattle.std.specs.Prelude.{◌≡◌};
ghost use Rattle.std.specs.List.{position};
ghost use Rattle.stock_board.specs.Board.{has_code, last_of_day, change_of, answer_of, changed, stock_code, asked_of, clear_answer, cleared};

use codes_times::{code_right, zero_code};
use stock_board::{BoardError, ROWS, Row};
use stock_quotes::Quote;
use stock_quotes_write::is_legal;

// The time of the day's last frame, all nines.
const LAST_TIME: u64 = 999_999_999_999;

// The code of a free row.
const FREE: [u8; 6] = [0; 6];

// The place of the first row with a code.
fn place_of(rows: &[Row], code: [u8; 6]) -> Option<usize>
    ensures { result ≡ position (has_code code) rows.now }
{
    rows.iter().position(|row| code == row.code)
}

// The day's last frame, which is of no stock.
fn last_of_day(m: Quote) -> bool
    ensures { result ≡ last_of_day m }
{
    zero_code(&m.code) && m.time == LAST_TIME
}

// A code that a stock can have.
fn stock_code(code: [u8; 6]) -> bool
    ensures { result ≡ stock_code code }
{
    code_right(&code) && !zero_code(&code)
}

// Takes a message into its stock's row, else into the first free one. The day's last is taken by none; where it refuses a message no
// row changes.
pub fn take(rows: &mut [Row], m: Quote) -> Result<(), BoardError>
    ensures { (result ≡ answer_of (change_of rows.old m)) × (rows.new ≡ changed rows.old (change_of rows.old m)) }
{
    if rows.len() != ROWS {
        return Err(BoardError::WrongLength);
    }
    if !is_legal(m) {
        return Err(BoardError::NotWritable);
    }
    if last_of_day(m) {
        return Ok(());
    }
    if let Some(at) = place_of(rows, m.code) {
        let last = rows[at];
        rows[at] = last.after(m);
        return Ok(());
    }
    let Some(at) = place_of(rows, FREE) else {
        return Err(BoardError::Full);
    };
    rows[at] = Row::free().after(m);
    Ok(())
}

// The row of a stock's code.
pub fn ask(rows: &[Row], code: [u8; 6]) -> Result<Row, BoardError>
    ensures { result ≡ asked_of rows.now code }
{
    if rows.len() != ROWS {
        return Err(BoardError::WrongLength);
    }
    if !stock_code(code) {
        return Err(BoardError::NoRow);
    }
    let Some(at) = place_of(rows, code) else {
        return Err(BoardError::NoRow);
    };
    Ok(rows[at])
}

// Frees every row of a board; rows that are not a board's stay as they are.
pub fn clear(rows: &mut [Row]) -> Result<(), BoardError>
    ensures { (result ≡ clear_answer rows.old) × (rows.new ≡ cleared rows.old) }
{
    if rows.len() == ROWS {
        rows.fill(Row::free());
        return Ok(());
    }
    Err(BoardError::WrongLength)
}
