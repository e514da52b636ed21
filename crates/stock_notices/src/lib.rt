// Format five: notices.
#![tactic(auto)]

ghost use Rattle.std.specs.Prelude.{◌≡◌, [], ◌∷◌, replicate};
ghost use Rattle.stock_notices.specs.Notices.{no_notice, room, five_ruled};

use answers::Answer;

// A notice of a category with the first `length` bytes of the text; the others are zero.
#[derive(Clone, Copy)]
pub struct Notice {
    pub seq: u32,
    pub category: u8,
    pub length: usize,
    pub text: [u8; 60],
}

// What reading a body finds; the notice is the empty one where the answer is a refusal. It is no `Result`: beside a
// frame of another kind, which is accepted, stands the empty one too.
#[derive(Clone, Copy)]
pub struct NoticeReading {
    pub answer: Answer,
    pub notice: Notice,
}

// The empty notice, which stands beside a refusal.
pub fn empty() -> Notice
    ensures { result ≡ no_notice }
{
    Notice {
        seq: 0,
        category: 0,
        length: 0,
        text: [0; 60],
    }
}

// Whether a category is one of the four.
pub fn known(category: u8) -> bool
    ensures { result ≡ five_ruled (category ∷ []) }
{
    matches!(category, 0 | 9 | 90 | 99)
}
