//! What the texts of all commands share: lines and how they are written, and the words that several of them print.
#![tactic(auto)]

mod label_word;
mod names;
mod writing;

pub use label_word::put_label;
pub use names::{class_name, journal_state_name, part_name, put_moment, wal_state_name};
pub use writing::{Lines, Unwritten, write_lines, write_piece};

#[cfg(test)]
mod tests;
