//! The evidence of a drill: a database and a write-ahead log, made from a seed.
#![tactic(auto)]

mod draws;
mod frames;
mod made;
mod pages;
mod pieces;
#[cfg(test)]
mod tests;

pub use made::{Made, make_case};
