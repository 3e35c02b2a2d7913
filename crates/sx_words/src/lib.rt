//! The words of the command line, read as a request.
#![tactic(auto)]

mod command;
mod key;
mod number;
mod reading;
mod request;
mod settings;

pub use reading::read_words;
pub use request::{Drill, Question, Request, Usage, When, Which};

#[cfg(test)]
mod tests;
