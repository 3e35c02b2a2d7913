//! The references between pages as sums, followed from one graph to another.
#![tactic(auto)]

mod falling;
mod followed;
mod law;
mod names;
mod rising;
mod sums;

pub use followed::{Followed, begin, follow};
pub use law::{sums_are_references, wider_sums_are_references};
pub use names::Names;
pub use sums::Sums;
