//! What each byte of a page is at a moment: its label, the maximal runs of one label, and how many bytes are owned, slack
//! or faulty.
#![tactic(auto)]

mod key;
mod keyed;
mod laws;
mod map;
mod page;
mod runs;
mod shelf;
mod stretch;

pub use key::{PageKey, Standing, page_key};
pub use keyed::keyed_map;
pub use laws::{
    bytes_are_in_one_item, places_by_chains, runs_by_rules, stretches_by_rules,
    totals_by_present_pages,
};
pub use map::{PageMap, Totals};
pub use page::page_map;
pub use runs::Runs;
pub use shelf::Maps;
pub use stretch::{Stretch, Stretches};

#[cfg(test)]
mod tests;
