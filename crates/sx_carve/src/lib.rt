//! The candidates of page images: spans that nothing owns and that read as what a deleted row left.
#![tactic(auto)]

mod candidate;
mod candidates;
mod laws;
mod run;
mod scan;

pub use candidate::Candidate;
pub use candidates::Candidates;
pub use laws::{
    candidates_are_first_forms, candidates_follow_from_what_is_told, freed_cells_have_candidates,
};

#[cfg(test)]
mod tests;
