//! The shapes of the tables of a schema, for the forms of candidates.
#![tactic(auto)]

mod entry;
mod set;
mod shapes;

pub use shapes::table_shapes;

#[cfg(test)]
mod tests;
