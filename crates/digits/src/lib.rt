// Packed digits: numbers read out of lent bytes and written into them. Nothing here knows of frames.
#![tactic(auto)]

pub mod fields;
pub mod halves;
pub mod table;
