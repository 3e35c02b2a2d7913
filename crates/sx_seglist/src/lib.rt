//! What is claimed of each byte of a page: a list of segments that claims split and join.
#![tactic(auto)]

mod claimed;
mod links;
mod list;
mod segment;
mod walk;

pub use claimed::Claimed;
pub use list::SegList;
pub use walk::Segments;

#[cfg(test)]
mod tests;
