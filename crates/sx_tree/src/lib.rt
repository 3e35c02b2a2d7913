//! The rows of a b-tree, in order: each once, with a fault in the place of what can't be walked.
//!
//! A damaged tree may name a page twice, or itself. So the pages of the tree are found first, each page that is named more
//! than once is a fault wherever it is named, and the walk opens each other page once.
#![tactic(auto)]

mod finding;
mod item;
mod law;
mod opening;
mod parts;
mod rows;
mod table;

pub use item::{RowItem, TreeFault};
pub use law::{children_are_targets, pages_are_least, rows_are_finite};
pub use rows::Rows;

#[cfg(test)]
mod tests;
