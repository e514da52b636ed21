// The derivatives exchange's common frame, as it was in 2015: where a frame begins and ends on a line, and what closes it. It knows no kind's body.
#![tactic(auto)]

pub mod closing;
pub mod head;
pub mod outline;
mod places;
