// The board as text, a JSON object a line.
use crate::board::Board;
use line_feed::feed::{Failure, Feed};
use line_feed::output::Output;
use printing::put_all;
use std::io::Write;
use stock_board::Row;
use stock_board_flat::ROWS;
use stock_texts::quotes::{put_marks, put_sides, put_trade};
use stock_texts::values::{put_code, put_time};

// The object of a row in use. None has nines for a time.
fn put_used(out: &mut [u8], at: usize, row: Row) -> usize {
    let bids = row.bids;
    let asks = row.asks;
    let at = put_code(out, at, b'{', row.code);
    let at = put_time(out, at, row.time, b"null");
    let at = put_marks(out, at, row.limit, row.status, row.total);
    let at = put_trade(out, at, row.trade);
    let at = put_sides(
        out,
        at,
        bids.levels,
        bids.count as usize,
        asks.levels,
        asks.count as usize,
    );
    put_all(out, at, b"}\n")
}

// Puts all rows in their order; written where there is little room for more.
pub(crate) fn put_rows<W: Write>(
    output: &mut Output<'_, W>,
    board: &Board,
    feed: &mut Feed,
) -> Result<(), Failure> {
    for i in 0..ROWS {
        if let Some(row) = board.row(i) {
            feed.to = put_used(output.out, feed.to, row);
            feed.relieved(output)?;
        }
    }
    Ok(())
}
