//! Which bytes of page images are owned, kept as runs, and where freeblocks begin.
#![tactic(auto)]

mod owned;
mod places;
mod run;
mod unowned;

pub use owned::OwnedRuns;
pub use unowned::Unowned;

#[cfg(test)]
mod tests;
