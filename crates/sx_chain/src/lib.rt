//! The newest item of a number below a bound: page frames linked by index.
//!
//! A write-ahead log holds a page many times. The page that a reader sees is the last frame of that page below the
//! reader's mark ("Database File Format", section "Reader Algorithm"). `Chains` finds it without a search of the log:
//! each item names the item before it that has the same number, and one further back, so that the way to a bound is short
//! however often the log holds the page.
#![tactic(auto)]

mod chains;
mod heads;
mod node;

pub use chains::{Chains, build};

#[cfg(test)]
mod tests;
