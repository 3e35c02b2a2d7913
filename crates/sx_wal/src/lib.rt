//! The write-ahead log: its state, its frames and its commits.
#![tactic(auto)]

mod checksum;
mod index;
mod laws;
mod log;
mod read;
mod slot;
mod state;
#[cfg(test)]
mod tests;

pub use checksum::{sums, sums_continue};
pub use index::WalIndex;
pub use laws::{commits_stand, slots_stand};
pub use read::read_wal;
pub use slot::Slot;
pub use state::WalState;
