//! Candidate forms: what of a freed cell still stands.
#![tactic(auto)]

mod acceptance;
mod choice;
mod clip;
mod columns;
mod form;
mod front;
mod full;
mod laws;
mod opened;
mod reading;
mod shape;
mod shorts;
mod shown;
mod starts;

pub use acceptance::{Ctx, accept, is_ruled_out};
pub use columns::Columns;
pub use form::Form;
pub use laws::{
    accepted_both_ways, freed_cells_are_found, full_both_ways, lost_both_ways, tail_both_ways,
    types_both_ways, zeros_begin_nothing,
};
pub use reading::Reading;
pub use shape::ShapeKey;
pub use shown::Shown;
pub use starts::next_start;

#[cfg(test)]
mod tests;
