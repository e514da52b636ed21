// Format six, live quotes: the message, what its reveal byte shows, and the rules that reading and writing share.
#![tactic(auto)]

ghost use Rattle.std.specs.Prelude.{◌≡◌, ◌+◌, ◌*◌};
ghost use Rattle.stock_quotes.specs.Reveal.{levels_of, levels_bit, revealed, levels_right};
ghost use Rattle.stock_quotes.specs.Quotes.{body_length, quote_timed, no_pair, no_quote};

use amounts::{Pair, Price, Quantity};
use answers::Answer;

// What a frame says of the levels of both sides: that they are those which it lists, none too; or nothing, only the trade is sent.
#[derive(Clone, Copy)]
pub enum Levels {
    Shown,
    NotShown,
}

// A stock's quote. Its own reveal byte says which of the trade, the bids and the asks are used; the others are zero.
#[derive(Clone, Copy)]
pub struct Quote {
    pub seq: u32,
    pub code: [u8; 6],
    // HHMMSS and six digits of fraction; all nines in the day's last frame
    pub time: u64,
    pub reveal: u8,
    pub limit: u8,
    pub status: u8,
    pub total: Quantity,
    pub trade: Pair,
    // as bit 0 of the reveal byte says
    pub levels: Levels,
    // best first
    pub bids: [Pair; 5],
    pub asks: [Pair; 5],
}

// What reading a body finds; the quote is the empty one where the answer is a refusal.
// It is no `Result`: beside a frame of another kind, which is accepted, stands the empty one too.
#[derive(Clone, Copy)]
pub struct QuoteReading {
    pub answer: Answer,
    pub quote: Quote,
}

// What a reveal byte shows: how many trades, 0 or 1, how many levels of each side, and whether levels are shown at all.
#[derive(Clone, Copy)]
pub struct Reveal {
    pub trades: usize,
    pub bids: usize,
    pub asks: usize,
    pub levels: Levels,
}

impl Levels {
    // What bit 0 of a reveal byte says. This and the next are no `From`: the promises name them.
    pub fn from_byte(byte: u8) -> Levels
        ensures { result ≡ levels_of byte }
    {
        if byte % 2 == 0 {
            Levels::Shown
        } else {
            Levels::NotShown
        }
    }

    // The bit that says so.
    pub fn bit(self) -> u8
        ensures { result ≡ levels_bit self }
    {
        match self {
            Levels::Shown => 0,
            Levels::NotShown => 1,
        }
    }
}

impl Reveal {
    // The most levels of a side.
    pub const MOST_LEVELS: usize = 5;

    // What the bits of the byte say.
    pub fn from_byte(byte: u8) -> Reveal
        ensures { result ≡ revealed byte }
    {
        Reveal {
            trades: (byte / 128 % 2) as usize,
            bids: (byte / 16 % 8) as usize,
            asks: (byte / 2 % 8) as usize,
            levels: Levels::from_byte(byte),
        }
    }

    // Check 10: no side has more levels than it may, nor any where levels are not shown.
    #[tactic(auto, unfolding(crate::specs::Reveal::levels_right))]
    pub fn levels_right(self) -> bool
        ensures { result ≡ levels_right self }
    {
        if self.bids > Reveal::MOST_LEVELS || self.asks > Reveal::MOST_LEVELS {
            return false;
        }
        match self.levels {
            Levels::Shown => true,
            Levels::NotShown => self.bids + self.asks == 0,
        }
    }
}

// The bytes before a body's pairs, and those of a pair.
const FIXED: usize = 19;

const PAIR: usize = 9;

// A time's first four digits count with eight behind them; of the eight, six are fractions of a second.
const BEHIND: u64 = 100_000_000;

const FRACTIONS: u32 = 1_000_000;

// All nines in the six digits of HHMMSS, and in a time's twelve.
const MOST_SECOND: u64 = 999_999;

const MOST_TIME: u64 = 999_999_999_999;

// Check 9: the length of the body that a reveal byte dictates.
pub fn body_length(reveal: u8) -> usize
    ensures { result ≡ body_length reveal }
{
    let shown = Reveal::from_byte(reveal);
    FIXED + PAIR * (shown.trades + (shown.bids + shown.asks))
}

// The pair of an unused place.
pub fn no_pair() -> Pair
    ensures { result ≡ no_pair }
{
    Pair {
        price: Price(0),
        quantity: Quantity(0),
    }
}

// The empty quote, which stands beside a refusal.
pub fn empty() -> Quote
    ensures { result ≡ no_quote }
{
    let none = no_pair();
    Quote {
        seq: 0,
        code: [0; 6],
        time: 0,
        reveal: 0,
        limit: 0,
        status: 0,
        total: Quantity(0),
        trade: none,
        levels: Levels::Shown,
        bids: [none; 5],
        asks: [none; 5],
    }
}

// Check 12 of a time by its parts, HHMM and SSffffff: all nines exactly with the code `000000`, else a time of day.
pub fn timed(code: &[u8], first: u32, last: u32) -> bool
    ensures { result ≡ quote_timed code.now (first * 100000000 + last) }
{
    if codes_times::zero_code(code) {
        return first as u64 * BEHIND + last as u64 == MOST_TIME;
    }
    let second = first as u64 * 100 + (last / FRACTIONS) as u64;
    second <= MOST_SECOND && codes_times::time_of_day(second as u32)
}
