//! What refers to each page, followed from one moment to the next.
#![tactic(auto)]

mod anew;
mod exchange;
mod gather;
mod missing;
mod once;
mod renew;
mod renumber;
mod steady;
mod step;
mod walk;
mod wide;

pub use walk::RefWalk;

#[cfg(test)]
mod tests;
