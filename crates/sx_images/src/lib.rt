//! The page images of the evidence, and the physical place of each of its bytes.
//!
//! A page image is one whole page that stands somewhere in the three files: a page of the database, the page of a frame of
//! the log, or that of a record of the journal. The images are numbered from 0, in order of file and offset.
#![tactic(auto)]

mod image;
mod lengths;
mod physical;
mod places;
mod read;
mod stretch;
mod table;

pub use image::Image;
pub use lengths::Lengths;
pub use physical::Physical;
pub use read::images;
pub use table::ImageTable;

#[cfg(test)]
mod tests;
