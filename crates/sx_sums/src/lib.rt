//! What the pages of a moment were labelled with, by their ranks, and the sums of it while pages come, go and change.
#![tactic(auto)]

mod entry;
mod moments;
mod sums;

pub use entry::Labelled;
pub use moments::{PageTotals, moment_totals};
pub use sums::Sums;

#[cfg(test)]
mod tests;
