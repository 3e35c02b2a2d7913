//! What older generations left: runs of frames that stand in a write-ahead log beside its valid ones, and records behind
//! the zeroed header of a rollback journal that confirm one another.
#![tactic(auto)]

mod confirming;
mod continuing;
mod groups;
mod laws;
mod listing;
mod neighbours;
mod nonces;
mod runs;

pub use confirming::confirmed;
pub use groups::{Confirmed, Group};
pub use laws::streaks_by_rules;
pub use listing::older;
pub use runs::{Older, Run};

#[cfg(test)]
mod tests;
