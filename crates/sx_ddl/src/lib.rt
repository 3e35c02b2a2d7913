//! The text of a table: its columns, the column that stands for the rowid, and whether it has rowids.
#![tactic(auto)]

mod alias;
mod column;
mod item;
mod items;
mod keyword;
mod kinds;
mod names;
mod options;
mod piece;
mod refused;
mod shape;
mod statement;
mod token;
mod tokens;

pub use refused::DdlRefused;
pub use shape::{Shape, read_table};

#[cfg(test)]
mod tests;
