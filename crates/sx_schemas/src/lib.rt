//! The schema, at one moment of a case after the other.
#![tactic(auto)]

mod reading;

pub use reading::{SchemaHere, walk_schema};

#[cfg(test)]
mod tests;
