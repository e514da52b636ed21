// The derivatives exchange's index values: I060, the value of an underlying, and I064, its trial match and state.
#![tactic(auto)]

pub mod index;
pub mod reading;
mod rules;
pub mod writing;
