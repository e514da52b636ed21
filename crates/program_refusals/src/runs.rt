// Skipped bytes next to each other, joined as the listing joins them: the first one's place and reason.
use crate::objects::{SHOWN, put_object, shown};
use answers::Answer;
use line_feed::feed::Failure;
use line_feed::moves::Moved;
use lines::exchanges::Exchange;
use printing::put_all;
use walk::rows::{Kept, Row, Told};

// The skipped bytes since the last frame.
#[derive(Clone, Copy)]
pub(crate) struct Run {
    kept: Kept,
    // the first of them, and how many are held
    first: [u8; SHOWN],
    held: usize,
}

// The object of a frame, if it is refused, whose bytes are those of a move.
fn put_frame(
    out: &mut [u8],
    at: usize,
    exchange: Exchange,
    buf: &[u8],
    row: Row,
    moved: Moved,
) -> usize {
    if let Answer::Accepted(_) = row.answer {
        return at;
    }
    match shown(buf, moved) {
        Some(bytes) => put_object(out, at, exchange, row, bytes),
        None => at,
    }
}

impl Run {
    // At the beginning of a line.
    pub(crate) fn fresh() -> Run {
        Run {
            kept: Kept::fresh(),
            first: [0; SHOWN],
            held: 0,
        }
    }

    // Holds the first of a move's bytes behind those that are held.
    fn hold(&mut self, buf: &[u8], moved: Moved) {
        if let Some(bytes) = shown(buf, moved) {
            self.held = put_all(&mut self.first, self.held, bytes);
        }
    }

    // Goes on behind a frame.
    fn restart(&mut self, kept: Kept) {
        self.kept = kept;
        self.held = 0;
    }

    // The object of the skipped bytes, with the row that they are told in.
    fn put_skipped(&self, out: &mut [u8], at: usize, exchange: Exchange, skipped: Row) -> usize {
        match self.first.get(..self.held) {
            Some(bytes) => put_object(out, at, exchange, skipped, bytes),
            None => at,
        }
    }

    // Goes on by one move more, and puts what is known then: a frame that is refused, and the skipped bytes before any frame.
    pub(crate) fn put_moved(
        &mut self,
        out: &mut [u8],
        at: usize,
        exchange: Exchange,
        buf: &[u8],
        moved: Moved,
    ) -> Result<usize, Failure> {
        match self.kept.told(moved.row.answer, moved.row.bytes)? {
            Told::Nothing(kept) => {
                self.kept = kept;
                self.hold(buf, moved);
                Ok(at)
            }
            Told::One(row, kept) => {
                self.restart(kept);
                Ok(put_frame(out, at, exchange, buf, row, moved))
            }
            Told::Two(skipped, row, kept) => {
                let at = self.put_skipped(out, at, exchange, skipped);
                self.restart(kept);
                Ok(put_frame(out, at, exchange, buf, row, moved))
            }
        }
    }

    // The object of the skipped bytes at a line's end, if there are any.
    pub(crate) fn put_last(&self, out: &mut [u8], at: usize, exchange: Exchange) -> usize {
        let skipped = self.kept.skipped;
        if skipped.bytes == 0 {
            return at;
        }
        self.put_skipped(out, at, exchange, skipped)
    }
}
