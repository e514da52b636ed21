// The stock exchange's common frame: where a frame begins and ends on a line, what closes it, and where its bad digits are. It knows no format's body.
#![tactic(auto)]

pub mod closing;
pub mod head;
pub mod outline;
pub mod places;
