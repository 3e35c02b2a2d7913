//! The text of `timeline`: the database, its write-ahead log, its journal, and a line for each moment.
#![tactic(auto)]

mod tally;
mod timeline;

pub use tally::{Tally, count_classes};
pub use timeline::TimelineLines;

#[cfg(test)]
mod tests;
