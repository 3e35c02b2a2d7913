//! The database header: which files have an accepted one, and what it says.
#![tactic(auto)]

mod header;

pub use header::{Header, HeaderFault, read_header};
