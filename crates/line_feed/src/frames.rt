// The frames of a line of the stock exchange whose outlines are whole, one at a time, their bodies not yet read.
ghost use Rattle.std.specs.Prelude.{◌≡◌, length};
ghost use Rattle.line_feed.specs.Beginning.{fresh_frames};

use crate::feed::{Failure, Feed};
use crate::input::Input;
use crate::output::Output;
use crate::pull::{Pull, next};
use lines::exchanges::Exchange;
use std::io::{Read, Write};
use stock_frame::head::Head;
use stock_lines::frames::{Ahead, next_frame as ahead};

#[derive(Clone, Copy)]
pub struct Frames {
    pub feed: Feed,
    // where on the whole line the bytes in hand that are not done with begin
    pub place: u64,
}

// A frame: its header, its place on the whole line, and where its bytes and its body stand in the input buffer.
#[derive(Clone, Copy)]
pub struct Framed {
    pub head: Head,
    pub place: u64,
    // the frame's bytes
    pub from: usize,
    pub to: usize,
    // its body
    pub start: usize,
    pub end: usize,
}

impl Frames {
    // At the beginning of a line of the stock exchange.
    pub fn fresh() -> Frames
        ensures { result ≡ fresh_frames }
    {
        let feed = Feed::fresh(Exchange::Stock);
        Frames { feed, place: 0 }
    }

    // The next frame of a line, none at its end, or what failed.
    pub fn next<R: Read, W: Write>(
        &mut self,
        input: &mut Input<'_, R>,
        output: &mut Output<'_, W>,
    ) -> Result<Option<Framed>, Failure>
        ensures same_input { input.new.stream.ghost_name ≡ input.old.stream.ghost_name }
        ensures same_buffer { input.new.buf.ghost_name ≡ input.old.buf.ghost_name }
        ensures same_length { length input.new.buf.now ≡ length input.old.buf.now }
        ensures same_stream { output.new.stream.ghost_name ≡ output.old.stream.ghost_name }
        ensures same_place { output.new.out.ghost_name ≡ output.old.out.ghost_name }
        ensures same_text { output.new.out.now ≡ output.old.out.now }
    {
        next(self, input, output)
    }

    // The place on the whole line of a place of the input buffer at or behind the bytes that are done with.
    fn place_of(&self, to: usize) -> Result<u64, Failure> {
        let skipped = to.saturating_sub(self.feed.at);
        self.place.checked_add(skipped as u64).ok_or(Failure::Full)
    }

    // The frame with a header that begins at a place.
    fn found(&mut self, head: Head, from: usize) -> Result<Framed, Failure> {
        let place = self.place_of(from)?;
        let behind = place.checked_add(head.length as u64).ok_or(Failure::Full)?;
        let to = from.saturating_add(head.length).min(self.feed.end);
        self.place = behind;
        self.feed.at = to;
        Ok(Framed {
            head,
            place,
            from,
            to,
            start: from.saturating_add(10).min(to),
            end: to.saturating_sub(3),
        })
    }
}

impl Pull for Frames {
    type Item = Framed;

    fn feed(&mut self) -> &mut Feed {
        &mut self.feed
    }

    fn in_hand(&mut self, buf: &[u8]) -> Result<Option<Framed>, Failure> {
        let Feed {
            at,
            end,
            closed,
            ..
        } = self.feed;
        let Some(hand) = buf.get(..end) else {
            return Ok(None);
        };
        match ahead(hand, at, closed) {
            Ahead::Frame(head, from) => Ok(Some(self.found(head, from)?)),
            Ahead::Nothing(to) => {
                self.place = self.place_of(to)?;
                self.feed.at = to;
                Ok(None)
            }
        }
    }

    fn left_over(&mut self) -> Option<Framed> {
        None
    }
}
