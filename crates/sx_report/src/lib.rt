//! What a report tells of a case, and its text: one line of JSON.
#![tactic(auto)]

mod digest;
mod facts;
mod text;
mod values;

pub use digest::digest_text;
pub use facts::{CaseFacts, FileFacts, JournalFacts, MomentFacts, WalFacts};
pub use text::case_json;

#[cfg(test)]
mod tests;
