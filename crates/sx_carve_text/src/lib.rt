//! The text of `carve`: a line for each candidate, and how many there are; and the same with completed candidates.
#![tactic(auto)]

mod candidate_line;
mod carve;
mod spilled;
mod whole_line;

pub use carve::CarveLines;
pub use spilled::SpillLines;

#[cfg(test)]
mod tests;
