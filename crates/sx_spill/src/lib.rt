//! Candidates whose payload goes on in overflow pages that still stand: the whole payload, where nothing owns these pages.
//!
//! Many candidates may name one chain of pages, also one that goes round. How many distinct pages follow one another is kept
//! for each page that was looked at, so that no other candidate goes along a chain again.
#![tactic(auto)]

mod law;
mod spill;
mod trail;
mod unused;

pub use law::completed_both_ways;
pub use spill::Spill;
