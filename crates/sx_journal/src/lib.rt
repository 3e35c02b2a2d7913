//! The rollback journal: its state, its segments and its records, each with its class.
//!
//! A journal keeps pages as they were before a transaction changed them ("Database File Format", section "The Rollback
//! Journal"). It is read once, from front to back.
#![tactic(auto)]

mod entries;
mod entry;
mod header;
mod index;
mod segment;
mod state;
mod walk;

pub use entry::Entry;
pub use index::{JournalIndex, read_journal, records_lie_in_file};
pub use segment::{Segment, segments_by_readings};
pub use state::JournalState;

#[cfg(test)]
mod tests;
