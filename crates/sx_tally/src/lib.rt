//! Counts whose sums over any front are asked between changes.
//!
//! A walk over a log sets one count after another and asks, at each commit, for the sum over a front of the list. `Tally`
//! answers both at the cost of a logarithm of the list's length.
#![tactic(auto)]

mod nodes;
mod tally;

pub use tally::Tally;

#[cfg(test)]
mod tests;
