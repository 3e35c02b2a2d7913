//! The payload of a cell, piece by piece: its local part and then its overflow pages, without a copy.
//!
//! A payload that doesn't fit its cell goes on in a chain of overflow pages, each of which names the next ("Cell Payload
//! Overflow Pages").
#![tactic(auto)]

mod chain;
mod law;
mod payload;
mod refusal;

pub use chain::chain_len;
pub use law::{chains_by_length, pieces_make_the_payload};
pub use payload::{Payload, as_local};
pub use refusal::{PayloadRefused, ShortChain};

#[cfg(test)]
mod tests;
