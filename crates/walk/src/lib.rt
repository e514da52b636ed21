// Walking a line, whatever reading it takes: what an answer does to the place, to the tally and to the rows.
#![tactic(auto)]

pub mod past;
pub mod rows;
pub mod stretch;
pub mod tally;
