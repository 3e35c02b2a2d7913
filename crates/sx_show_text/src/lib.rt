//! The text of `show`: a table's columns, its rows and what stands in their place.
#![tactic(auto)]

mod columns;
mod items;
mod show;
mod show_line;
mod values;

pub use columns::Columns;
pub use items::put_item;
pub use show::ShowLines;

#[cfg(test)]
mod tests;
