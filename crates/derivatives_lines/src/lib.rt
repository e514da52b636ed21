// The derivatives exchange's line: its reading, with and without the index values, and what a walk over it promises. There is no code here:
// `lines` walks it.
#![tactic(auto)]
