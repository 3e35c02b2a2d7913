//! What refers to each page of a moment.
#![tactic(auto)]

mod pages;
mod targets;

pub use pages::{give_named, give_roots, references};
pub use sx_closure::{Pair, RefTable, Source, Target};
pub use targets::give_targets;

#[cfg(test)]
mod tests;
