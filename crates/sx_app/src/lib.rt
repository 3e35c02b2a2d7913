//! The examiner's top call: from the words and the files of a store to the text that a sink takes.
#![tactic(auto)]

mod carving;
mod commands;
mod completeness;
mod database;
mod drills;
mod evidence;
mod examination;
mod finish;
mod generations;
mod histories;
mod labels;
mod loaded;
mod moments;
mod refusals;
mod refused;
mod reports;
mod sought;
mod tables;

pub use completeness::answers_are_complete;
pub use examination::examine;
pub use refused::{Refused, status};

#[cfg(test)]
mod tests;
