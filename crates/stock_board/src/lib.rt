// The board of last quotes, one row to a stock: what a row holds, what a message leaves of it, and what the board's calls answer.
#![tactic(auto)]

ghost use Rattle.std.specs.Prelude.{◌≡◌};
ghost use Rattle.stock_board.specs.Rows.{free_row, last_trade, side_after, row_after};
ghost use Rattle.stock_board.specs.Board.{refusal_number};

use amounts::{Pair, Quantity};
use stock_quotes::{Levels, Quote, no_pair};

// The rows of a board.
pub const ROWS: usize = 256;

// One side of a stock's book: its levels, best first, with zeros behind them, and how many there are.
#[derive(Clone, Copy)]
pub struct Side {
    pub count: u8,
    pub levels: [Pair; 5],
}

// What a stock's own messages last said. A row with six zero bytes for its code is free.
#[derive(Clone, Copy)]
pub struct Row {
    pub code: [u8; 6],
    // HHMMSS and six digits of fraction
    pub time: u64,
    pub limit: u8,
    pub status: u8,
    pub total: Quantity,
    // the last trade that the stock's messages sent, if any did
    pub trade: Option<Pair>,
    pub bids: Side,
    pub asks: Side,
}

// Why a call on a board is refused; then no row changes.
#[derive(Clone, Copy, Debug, PartialEq, Eq)]
pub enum BoardError {
    // the message could not be written
    NotWritable,
    // the board has not as many rows as a board has
    WrongLength,
    // there is no such row
    NoRow,
    // a new stock finds no row that is free
    Full,
}

impl BoardError {
    // Its number among those of all answers.
    pub fn number(self) -> u8
        ensures { result ≡ refusal_number self }
    {
        match self {
            BoardError::NotWritable => 14,
            BoardError::WrongLength => 50,
            BoardError::NoRow => 51,
            BoardError::Full => 52,
        }
    }
}

// The last trade behind a message: the one that it sends, else the one before.
pub fn trade_after(last: Option<Pair>, sent: Pair, reveal: u8) -> Option<Pair>
    ensures { result ≡ last_trade last sent reveal }
{
    if reveal / 128 % 2 == 0 {
        return last;
    }
    Some(sent)
}

// A side behind a message: the one that it shows, else the one before.
fn side_after(before: Side, levels: Levels, shown: Side) -> Side
    ensures { result ≡ side_after before levels shown }
{
    match levels {
        Levels::Shown => shown,
        Levels::NotShown => before,
    }
}

impl Row {
    // A free row.
    pub fn free() -> Row
        ensures { result ≡ free_row }
    {
        let side = Side {
            count: 0,
            levels: [no_pair(); 5],
        };
        Row {
            code: [0; 6],
            time: 0,
            limit: 0,
            status: 0,
            total: Quantity(0),
            trade: None,
            bids: side,
            asks: side,
        }
    }

    // The row behind a message of its stock.
    pub fn after(self, m: Quote) -> Row
        ensures { result ≡ row_after self m }
    {
        let code = m.code;
        let levels = m.bids;
        let bids = Side {
            count: m.reveal / 16 % 8,
            levels,
        };
        let levels = m.asks;
        let asks = Side {
            count: m.reveal / 2 % 8,
            levels,
        };
        Row {
            code,
            time: m.time,
            limit: m.limit,
            status: m.status,
            total: m.total,
            trade: trade_after(self.trade, m.trade, m.reveal),
            bids: side_after(self.bids, m.levels, bids),
            asks: side_after(self.asks, m.levels, asks),
        }
    }
}
