//! Which bytes of page images are owned under some moments, and where freeblocks begin.
#![tactic(auto)]

mod headed;
mod known;
mod moment;
mod page;
mod pages;
mod passing;
mod ranks;
mod relabel;
mod scene;
mod sweeping;
mod totals;

pub use sweeping::{sweep, sweep_all};
pub use totals::{MomentTotals, Swept};

#[cfg(test)]
mod tests;
