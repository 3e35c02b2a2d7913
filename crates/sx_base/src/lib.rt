//! What every crate of the examiner shares: places in the evidence, moments, classes and labels of bytes, roles of pages,
//! the pages of a moment and their layout, and a count of steps.
//!
//! Its `specs/` hold the definitions that several crates cite: bytes and words, named files, causes of faults, held pages,
//! pointer maps, first and last places. Its `proofs/` hold lemmas on ranges, on first and last places, and on held pages
//! for those who implement and those who walk `Pages`.
#![tactic(auto)]

mod evidence;
mod label;
mod layout;
mod moment;
mod pages;
mod role;
mod sheets;
mod steps;

pub use evidence::{Failed, Part, Place, Span};
pub use label::Label;
pub use layout::{Layout, lock_page};
pub use moment::{Class, Moment};
pub use pages::{PageViews, Pages};
pub use role::Role;
pub use sheets::Sheets;
pub use steps::Steps;

#[cfg(test)]
mod tests;
