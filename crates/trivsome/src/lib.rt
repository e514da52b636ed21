// The library for C and Rust: each call of the c_ crates under its own name, to be linked. An export says what the call of that
// name says, clause for clause, and does nothing but call it.
#![tactic(auto)]

mod boards;
mod captures;
mod derivatives;
mod halts;
mod index_values;
mod ledgers;
mod notices;
mod packed;
mod prices;
mod quotes;
mod walking;
