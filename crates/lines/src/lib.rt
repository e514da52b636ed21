// Walking a line of either exchange: move by move, in figures, and in rows while it comes in pieces.
#![tactic(auto)]

pub mod exchanges;
pub mod figures;
pub mod moves;
pub mod pieces;
pub mod tally;
