// The frames of format six as arrivals in a ledger.
use answers::Answer;
use ledger::{Arrival, Ledger, LedgerError, clear};
use ledger_arrivals::arrive_lent;
use ledger_give_up::give_up_lent;
use line_feed::frames::Framed;
use stock_reading::reading::SIX;

// A day so far.
#[derive(Clone, Copy)]
pub(crate) struct Day {
    // whether the lowest run is given up for an arrival that is answered 22
    gives_up: bool,
    pub(crate) ledger: Ledger,
    // how many arrivals were refused with 21: no number that is counted
    pub(crate) unnumbered: u64,
    // with 22: there would be more runs than the ledger holds
    pub(crate) unheld: u64,
    // with 25: not above the floor
    pub(crate) late: u64,
}

impl Day {
    // At a day's beginning.
    pub(crate) fn fresh(gives_up: bool) -> Day {
        Day {
            gives_up,
            ledger: clear(),
            unnumbered: 0,
            unheld: 0,
            late: 0,
        }
    }

    fn arrive(&mut self, n: u32) -> Result<Arrival, LedgerError> {
        arrive_lent(
            &mut self.ledger.ends,
            self.ledger.floor,
            self.ledger.given,
            n,
        )
    }

    // Hears one number more. Where the lowest run is given up for it, it arrives again: then there is room for it, unless it is one of
    // that run and is answered 25. The ledger of a day is never refused with 20.
    fn hear_number(&mut self, n: u32) {
        let mut arrival = self.arrive(n);
        if let Err(LedgerError::TooManyRuns) = arrival
            && self.gives_up
        {
            let l = &mut self.ledger;
            let _ = give_up_lent(&mut l.ends, &mut l.floor, &mut l.given);
            arrival = self.arrive(n);
        }
        match arrival {
            Err(LedgerError::OutOfRange) => {
                self.unnumbered = self.unnumbered.saturating_add(1);
            }
            Err(LedgerError::TooManyRuns) => {
                self.unheld = self.unheld.saturating_add(1);
            }
            Err(LedgerError::NotAboveFloor) => {
                self.late = self.late.saturating_add(1);
            }
            _ => {}
        }
    }

    // Hears one frame more of the bytes in hand; those of format six have numbers. The day's last one counts too.
    pub(crate) fn hear(&mut self, buf: &[u8], f: Framed) {
        if f.head.kind != SIX {
            return;
        }
        let Some(body) = buf.get(f.start..f.end) else {
            return;
        };
        if let Answer::Accepted(f) = stock_quotes_read::read(body, f.head.seq).answer {
            self.hear_number(f.seq);
        }
    }
}
