//! The moments of the evidence, and the pages of each as borrowed views.
#![tactic(auto)]

mod case;
mod changes;
mod counts;
mod evidence;
mod file_pages;
mod first_image;
mod first_images;
mod gathering;
mod heads;
mod marks;
mod newest_slot;
mod origin;
mod pages;
mod ranked;
mod ranks;
mod snapshot;
mod sources;
mod sweep;
mod turning;
mod turns;
mod views;

pub use case::Case;
pub use evidence::Evidence;
pub use snapshot::Snapshot;
pub use sweep::Sweep;

#[cfg(test)]
mod tests;
