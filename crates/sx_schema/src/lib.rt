//! The schema of a moment: the entries that stand in the tree at page 1.
#![tactic(auto)]

mod entry;
mod gathering;
mod listing;

pub use entry::Entry;
pub use gathering::schema;
pub use listing::Schema;

#[cfg(test)]
mod tests;
