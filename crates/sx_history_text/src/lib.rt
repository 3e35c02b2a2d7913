//! The text of `history`: what a moment holds under a rowid, row by row, or why there are no rows.
#![tactic(auto)]

mod lack;
mod moment_lines;
mod row_lines;
mod schemas;
mod swept_trees;
mod texts;
mod trees;

pub use lack::Lack;
pub use moment_lines::MomentLines;
pub use row_lines::RowLines;
pub use trees::TreeHistories;

#[cfg(test)]
mod tests;
