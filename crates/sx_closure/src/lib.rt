//! Which pages refer to which: the pairs that are reached from roots, and for each page its references.
#![tactic(auto)]

mod chain;
mod closure;
mod links;
mod pair;
mod rank;
mod receiver;
mod table;
mod tally;

pub use closure::close;
pub use links::Links;
pub use pair::{Pair, Source, Target};
pub use rank::rank_of;
pub use receiver::{Kept, Receiver, give_all};
pub use table::RefTable;
pub use tally::Tally;
