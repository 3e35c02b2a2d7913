//! The rows of a tree: the rowid, and the columns' values without copying, or why they can't be shown.
//!
//! Many cells of damaged evidence may name one chain of overflow pages, also one that goes round. How many pages follow one
//! another is kept for each page that was looked at, so that no other cell goes along a chain again.
#![tactic(auto)]

mod lengths;
mod payload;
mod row;
mod trail;

pub use lengths::ChainLengths;
pub use row::{Row, RowFault, read_row};

#[cfg(test)]
mod tests;
