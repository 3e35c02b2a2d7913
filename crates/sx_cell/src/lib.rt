//! The cells of b-tree pages: where each part of one stands, and how much of its payload.
#![tactic(auto)]

mod cell;
mod fields;
mod local;
mod reading;

pub use cell::{Cell, CellFault, Kind};
pub use local::{LINK_LEN, LONGEST_PAYLOAD, local_len, need_of};
pub use reading::{cells_both_ways, cells_lie_in_page, read_cell};

#[cfg(test)]
mod tests;
