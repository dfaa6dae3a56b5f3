// The rows of outcomes, symbols and skip ranges in lent lists: what is asked of one row, their order, and lookups.
#![tactic(auto)]

pub mod outcomes;
pub mod skips;
pub mod symbols;
