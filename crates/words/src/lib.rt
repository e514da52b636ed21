// Several bytes taken at once as one number: their packed digits, and the exclusive-or of bytes. Nothing here knows of frames.
#![tactic(auto)]

pub mod blocks;
mod loads;
pub mod xor;
