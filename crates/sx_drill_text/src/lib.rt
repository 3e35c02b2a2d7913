//! The text of `drill`.
#![tactic(auto)]

mod drill_lines;

pub use drill_lines::{DrillCounts, DrillLines};

#[cfg(test)]
mod tests;
