// Reading any frame on a line: the outline, then the format that its header names.
#![tactic(auto)]

pub mod reading;
