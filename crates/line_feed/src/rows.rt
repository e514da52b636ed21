// The rows of a line, one at a time.
ghost use Rattle.std.specs.Prelude.{◌≡◌, length};
ghost use Rattle.line_feed.specs.Beginning.{fresh_rows};

use crate::feed::{Failure, Feed};
use crate::input::Input;
use crate::output::Output;
use crate::pull::{Pull, next};
use lines::exchanges::Exchange;
use lines::pieces::next_rows;
use std::io::{Read, Write};
use walk::rows::{Kept, Next, Row};

#[derive(Clone, Copy)]
pub struct Rows {
    pub feed: Feed,
    // what the walk keeps from the pieces before
    pub kept: Kept,
    // a row that is known and not handed out yet
    pub later: Option<Row>,
}

impl Rows {
    // At the beginning of a line of an exchange.
    pub fn fresh(exchange: Exchange) -> Rows
        ensures { result ≡ fresh_rows exchange }
    {
        let feed = Feed::fresh(exchange);
        let kept = Kept::fresh();
        Rows {
            feed,
            kept,
            later: None,
        }
    }

    // The next row of a line, none at its end, or what failed.
    pub fn next<R: Read, W: Write>(
        &mut self,
        input: &mut Input<'_, R>,
        output: &mut Output<'_, W>,
    ) -> Result<Option<Row>, Failure>
        ensures same_input { input.new.stream.ghost_name ≡ input.old.stream.ghost_name }
        ensures same_buffer { input.new.buf.ghost_name ≡ input.old.buf.ghost_name }
        ensures same_length { length input.new.buf.now ≡ length input.old.buf.now }
        ensures same_stream { output.new.stream.ghost_name ≡ output.old.stream.ghost_name }
        ensures same_place { output.new.out.ghost_name ≡ output.old.out.ghost_name }
        ensures same_text { output.new.out.now ≡ output.old.out.now }
    {
        next(self, input, output)
    }
}

impl Pull for Rows {
    type Item = Row;

    fn feed(&mut self) -> &mut Feed {
        &mut self.feed
    }

    fn in_hand(&mut self, buf: &[u8]) -> Result<Option<Row>, Failure> {
        if let Some(row) = self.later.take() {
            return Ok(Some(row));
        }
        let Feed {
            at,
            end,
            closed,
            exchange,
            ..
        } = self.feed;
        let Some(bytes) = buf.get(..end) else {
            return Ok(None);
        };
        match next_rows(exchange, bytes, at, self.kept, closed)? {
            Next::OneRow(row, kept, at) => {
                self.kept = kept;
                self.feed.at = at;
                Ok(Some(row))
            }
            Next::TwoRows(skipped, row, kept, at) => {
                self.kept = kept;
                self.feed.at = at;
                self.later = Some(row);
                Ok(Some(skipped))
            }
            Next::Stopped(kept, at) => {
                self.kept = kept;
                self.feed.at = at;
                Ok(None)
            }
        }
    }

    // The row of the skipped bytes.
    fn left_over(&mut self) -> Option<Row> {
        let skipped = self.kept.skipped;
        if skipped.bytes == 0 {
            return None;
        }
        self.kept.skipped = Kept::fresh().skipped;
        Some(skipped)
    }
}
