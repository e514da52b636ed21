// The stock exchange's line: its reading, with and without the messages, what a walk over it promises, and its frames one after another.
// `lines` walks it.
#![tactic(auto)]

pub mod frames;
