// The moves of a line, one at a time, with their bytes.
ghost use Rattle.std.specs.Prelude.{◌≡◌, length};
ghost use Rattle.line_feed.specs.Beginning.{fresh_moves};

use crate::feed::{Failure, Feed};
use crate::input::Input;
use crate::output::Output;
use crate::pull::{Pull, next};
use lines::exchanges::Exchange;
use lines::pieces::stretch_at;
use std::io::{Read, Write};
use walk::rows::Row;

#[derive(Clone, Copy)]
pub struct Moves {
    pub feed: Feed,
    // where on the whole line the bytes in hand that are not done with begin
    pub place: u64,
}

// A move, at its place on the whole line, and where its bytes stand in the input buffer. Of skipped bytes it may be several: all
// that are in hand before the next 27.
#[derive(Clone, Copy)]
pub struct Moved {
    pub row: Row,
    pub from: usize,
    pub to: usize,
}

impl Moves {
    // At the beginning of a line of an exchange.
    pub fn fresh(exchange: Exchange) -> Moves
        ensures { result ≡ fresh_moves exchange }
    {
        let feed = Feed::fresh(exchange);
        Moves { feed, place: 0 }
    }

    // The next move of a line, none at its end, or what failed.
    pub fn next<R: Read, W: Write>(
        &mut self,
        input: &mut Input<'_, R>,
        output: &mut Output<'_, W>,
    ) -> Result<Option<Moved>, Failure>
        ensures same_input { input.new.stream.ghost_name ≡ input.old.stream.ghost_name }
        ensures same_buffer { input.new.buf.ghost_name ≡ input.old.buf.ghost_name }
        ensures same_length { length input.new.buf.now ≡ length input.old.buf.now }
        ensures same_stream { output.new.stream.ghost_name ≡ output.old.stream.ghost_name }
        ensures same_place { output.new.out.ghost_name ≡ output.old.out.ghost_name }
        ensures same_text { output.new.out.now ≡ output.old.out.now }
    {
        next(self, input, output)
    }
}

impl Pull for Moves {
    type Item = Moved;

    fn feed(&mut self) -> &mut Feed {
        &mut self.feed
    }

    // The walk moves past some bytes, or stops if there are none.
    fn in_hand(&mut self, buf: &[u8]) -> Result<Option<Moved>, Failure> {
        let Feed {
            at: from,
            end,
            closed,
            exchange,
            ..
        } = self.feed;
        let Some(hand) = buf.get(..end) else {
            return Ok(None);
        };
        if end <= from {
            return Ok(None);
        }
        let stretch = stretch_at(exchange, hand, from, closed);
        if stretch.bytes == 0 {
            return Ok(None);
        }
        let at = self.place;
        let bytes = stretch.bytes as u64;
        let place = at.checked_add(bytes).ok_or(Failure::Full)?;
        let to = from.saturating_add(stretch.bytes).min(end);
        self.place = place;
        self.feed.at = to;
        let row = Row {
            at,
            bytes,
            answer: stretch.answer,
        };
        Ok(Some(Moved { row, from, to }))
    }

    fn left_over(&mut self) -> Option<Moved> {
        None
    }
}
