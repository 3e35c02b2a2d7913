//! What a tree holds under one rowid: the rows with that rowid, and how many faults the tree has; and what is kept of it, and of
//! the schema, from one moment to the next.
#![tactic(auto)]

mod found;
mod gathering;
mod law;
mod leaf;
mod listing;
mod marks;
mod schemas;
mod setting;
mod steady;
mod still;
mod views;
mod walk;

pub use found::Found;
pub use gathering::history;
pub use law::{answers_by_views, schema_by_views};
pub use listing::History;
pub use schemas::SchemaWalk;
pub use sx_row::RowFault;
pub use walk::HistoryWalk;

#[cfg(test)]
mod tests;
