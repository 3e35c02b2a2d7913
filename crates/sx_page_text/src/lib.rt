//! The text of `page`: where the view of a page begins, and the view read as a page of a b-tree.
#![tactic(auto)]

mod node_lines;
mod node_text;
mod page;
mod page_body;

pub use page::PageLines;

#[cfg(test)]
mod tests;
