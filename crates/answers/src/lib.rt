// What reading and writing answer.
#![tactic(auto)]

ghost use Rattle.std.specs.Prelude.{◌≡◌};
ghost use Rattle.answers.specs.Answers.{answer_number, answer_length, answer_place};

// An accepted frame: its whole length in bytes, its format and its number. In this order they lie where a refusal has its length and
// its place, so that an answer is handed on in whole registers.
#[derive(Clone, Copy)]
pub struct Frame {
    pub length: usize,
    pub format: u8,
    pub seq: u32,
}

// What a reading says. The numbers stay numbers: who takes an answer takes one of any number, which an enum of the causes would narrow.
#[derive(Clone, Copy)]
pub enum Answer {
    // 0
    Accepted(Frame),
    // 1 to 5: no whole frame stands here; beside 3 the place of the first bad digit, where one is the cause
    NoFrame(u8, Option<u32>),
    // 6 to 13, with the length: a whole frame that breaks a rule; beside 6 and 11 the place of the first bad digit
    Refused(u8, usize, Option<u32>),
}

impl Answer {
    // The answer number.
    pub fn number(self) -> u8
        ensures { result ≡ answer_number self }
    {
        match self {
            Answer::Accepted(_) => 0,
            Answer::NoFrame(n, _) => n,
            Answer::Refused(n, _, _) => n,
        }
    }

    // The length of the whole frame that it speaks of, 0 where it speaks of none.
    pub fn length(self) -> usize
        ensures { result ≡ answer_length self }
    {
        match self {
            Answer::Accepted(f) => f.length,
            Answer::NoFrame(_, _) => 0,
            Answer::Refused(_, l, _) => l,
        }
    }

    // Where the first bad digit is, in halves from the frame's first byte, if it speaks of one.
    pub fn place(self) -> Option<u32>
        ensures { result ≡ answer_place self }
    {
        match self {
            Answer::Accepted(_) => None,
            Answer::NoFrame(_, p) => p,
            Answer::Refused(_, _, p) => p,
        }
    }
}

// Why a message is not written; else the answer is 0, with the frame's length.
#[derive(Clone, Copy)]
pub enum WriteError {
    // 14: the message breaks a rule
    Illegal,
    // 15: the buffer is too short
    NoRoom,
}
