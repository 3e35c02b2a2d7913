//! B-tree pages: their header, their cells, their freeblocks, what of the page each of these claims, and the pages that
//! they name.
#![tactic(auto)]

mod claims;
mod freeblocks;
mod node;
mod targets;

pub use claims::Claims;
pub use freeblocks::{Freeblocks, freeblocks_by_rules};
pub use node::{Node, NodeFault, read_node};
pub use targets::{NodeTarget, Targets};

#[cfg(test)]
mod tests;
