// What more than one program prints, as JSON. Each call puts its text into a lent buffer from a place on, and answers the place
// behind it; what finds no room is left out.
#![tactic(auto)]

pub mod counts;
pub mod hex;
pub mod quotes;
pub mod values;
