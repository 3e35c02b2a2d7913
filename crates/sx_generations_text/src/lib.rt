//! The text of `generations`: runs of older frames in the write-ahead log, and confirmed records of a zeroed journal.
#![tactic(auto)]

mod generations;
mod generations_line;
mod texts;

pub use generations::GenerationsLines;

#[cfg(test)]
mod tests;
