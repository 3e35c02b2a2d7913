//! The text of `explain`: a byte of one of the files, the thing that it is part of, and what it is at a moment.
#![tactic(auto)]

mod explain;
mod place_text;

pub use explain::ExplainLines;

#[cfg(test)]
mod tests;
