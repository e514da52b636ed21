// A tally of a line's bytes, by value.
ghost use Rattle.std.specs.Prelude.{◌≡◌};
ghost use Rattle.walk.specs.Tally.{figures_only, no_bytes, has_room, moved_on, capped, row_figures};

use answers::Answer;

#[derive(Clone, Copy)]
pub struct Tally {
    // bytes in accepted frames
    pub accepted: u64,
    // bytes in refused frames
    pub refused: u64,
    pub skipped: u64,
    // bytes of the last walk that wait for more
    pub waiting: u64,
}

// A tally behind a walk: 0 and moved on, or 16 and as it came. No Result: `trivsome_walk` and `trivsome_derivatives_walk` answer the number and
// hand the tally back in both cases.
#[derive(Clone, Copy)]
pub struct Tallied {
    pub tally: Tally,
    pub answer: u8,
}

// Figures with nothing that waits.
fn figures(accepted: u64, refused: u64, skipped: u64) -> Tally
    ensures { result ≡ figures_only accepted refused skipped }
{
    Tally {
        accepted,
        refused,
        skipped,
        waiting: 0,
    }
}

impl Tally {
    // A tally of no bytes.
    pub fn empty() -> Tally
        ensures { result ≡ no_bytes }
    {
        figures(0, 0, 0)
    }

    // Whether a line of n bytes can be walked: where not, the walk is refused with 16.
    pub fn has_room(self, n: u64) -> bool
        ensures { result ≡ has_room self n }
    {
        let most = u64::MAX - n;
        self.accepted <= most && self.refused <= most && self.skipped <= most
    }

    // Moved on by the figures of a walk.
    pub fn plus(self, w: Tally) -> Tally
        ensures { result ≡ capped (moved_on self w) }
    {
        Tally {
            accepted: self.accepted.saturating_add(w.accepted),
            refused: self.refused.saturating_add(w.refused),
            skipped: self.skipped.saturating_add(w.skipped),
            waiting: w.waiting,
        }
    }

    // Moved on by one row.
    pub fn counted(self, answer: Answer, bytes: u64) -> Tally
        ensures { result ≡ capped (moved_on self (row_figures answer bytes)) }
    {
        let row = match answer.number() {
            0 => figures(bytes, 0, 0),
            6.. => figures(0, bytes, 0),
            _ => figures(0, 0, bytes),
        };
        self.plus(row)
    }
}
