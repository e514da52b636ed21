// What every program does around a line: standard input in pieces with what waits kept in front, the next row, frame or move handed
// out one at a time, text written in large pieces, and failures told. What is read cannot be in a contract; the calls that walk
// the bytes in hand are `next_rows` and `stretch_at` of `lines::pieces` and `stock_lines::frames::next_frame`.
#![tactic(auto)]

pub mod asked;
pub mod feed;
pub mod frames;
pub mod input;
pub mod moves;
pub mod output;
mod pull;
pub mod rows;
