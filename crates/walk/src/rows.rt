// Rows while a line comes in pieces: skipped bytes are kept until what follows them is known.
ghost use Rattle.std.specs.Prelude.{◌≡◌, ◌+◌, ◌≤◌};
ghost use Rattle.walk.specs.Tally.{largest};
ghost use Rattle.walk.specs.Told.{no_row, fresh, joined_row, framed_row, told_of};

use answers::Answer;

// A move of a walk, or skipped bytes next to each other with the first one's reason.
#[derive(Clone, Copy)]
pub struct Row {
    pub at: u64,
    pub bytes: u64,
    pub answer: Answer,
}

// What a walk keeps from the pieces before: its place, and the skipped bytes that no row has told yet, none if there are 0. No `Option`: whether
// the numbers can hold a move is asked of those 0 as of any.
#[derive(Clone, Copy)]
pub struct Kept {
    pub at: u64,
    pub skipped: Row,
}

// What one move more gives.
#[derive(Clone, Copy)]
pub enum Told {
    // no row yet
    Nothing(Kept),
    // the move's own row
    One(Row, Kept),
    // the row of the kept skipped bytes, then the move's own
    Two(Row, Row, Kept),
}

// What some moves give next, with the place on the line behind them.
#[derive(Clone, Copy)]
pub enum Next {
    OneRow(Row, Kept, usize),
    TwoRows(Row, Row, Kept, usize),
    // no row: the walk stopped here
    Stopped(Kept, usize),
}

// Why there are no rows.
#[derive(Clone, Copy)]
pub enum RowsError {
    // 16: the place would pass the largest number
    Full,
}

// No skipped bytes.
fn no_row() -> Row
    ensures { result ≡ no_row }
{
    Row {
        at: 0,
        bytes: 0,
        answer: Answer::NoFrame(1, None),
    }
}

impl Kept {
    // At a line's beginning.
    pub fn fresh() -> Kept
        ensures { result ≡ fresh }
    {
        Kept {
            at: 0,
            skipped: no_row(),
        }
    }

    // With one move more: what was said at its place, and the bytes that it takes.
    #[tactic(auto, unfolding(crate::specs::Told::told_of))]
    pub fn told(self, answer: Answer, bytes: u64) -> Result<Told, RowsError>
        ensures { result ≡ told_of self answer bytes }
    {
        let Kept { at, skipped } = self;
        let most = u64::MAX - bytes;
        if most < at || most < skipped.bytes {
            return Err(RowsError::Full);
        }
        let row = Row { at, bytes, answer };
        match answer.number() {
            0 | 6.. => Ok(framed(skipped, row, at + bytes)),
            _ => Ok(Told::Nothing(Kept {
                at: at + bytes,
                skipped: joined(skipped, row),
            })),
        }
    }
}

// Skipped bytes, and one more behind them.
fn joined(skipped: Row, row: Row) -> Row
    requires { skipped.bytes + row.bytes ≤ largest }
    ensures { result ≡ joined_row skipped row }
{
    if skipped.bytes == 0 {
        return row;
    }
    Row {
        at: skipped.at,
        bytes: skipped.bytes + row.bytes,
        answer: skipped.answer,
    }
}

// The rows that a frame closes.
fn framed(skipped: Row, row: Row, at: u64) -> Told
    ensures { result ≡ framed_row skipped row at }
{
    let kept = Kept {
        at,
        skipped: no_row(),
    };
    if skipped.bytes == 0 {
        return Told::One(row, kept);
    }
    Told::Two(skipped, row, kept)
}
