// The board that a line is handed to.
use answers::Answer;
use line_feed::frames::Framed;
use stock_board::Row;
use stock_board_flat::{CELLS, ROWS, row_at, take};
use stock_reading::reading::SIX;

#[derive(Drop)]
pub(crate) struct Board {
    heads: [u64; ROWS],
    cells: [u32; CELLS],
    // how many messages found no row
    pub(crate) refused: u64,
}

impl Board {
    // A clear board, which is all zeros.
    pub(crate) fn clear() -> Board {
        Board {
            heads: [0; ROWS],
            cells: [0; CELLS],
            refused: 0,
        }
    }

    // Hears one frame more of the bytes in hand; those of format six are messages to it. Of what was read it refuses nothing but
    // with 52: a message that was read can be written, so that it never answers 14.
    pub(crate) fn hear(&mut self, buf: &[u8], f: Framed) {
        if f.head.kind != SIX {
            return;
        }
        let Some(body) = buf.get(f.start..f.end) else {
            return;
        };
        let r = stock_quotes_read::read(body, f.head.seq);
        let Answer::Accepted(_) = r.answer else {
            return;
        };
        if take(&mut self.heads, &mut self.cells, r.quote).is_err() {
            self.refused = self.refused.saturating_add(1);
        }
    }

    // The row at a place, if it is in use.
    pub(crate) fn row(&self, i: usize) -> Option<Row> {
        row_at(&self.heads, &self.cells, i).ok()
    }
}
