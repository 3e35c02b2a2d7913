//! The outside of the examiner: where evidence is read, and where an answer is written.
//!
//! A [`Store`] holds named files and a [`Sink`] takes bytes. [`load`] reads a whole file and [`put_all`] writes a
//! whole piece.
#![tactic(auto)]

mod disk;
mod retry;
mod shelf;
mod sink;
mod store;
mod stream;
mod tray;
mod trip;
mod whole_file;
mod whole_piece;

pub use disk::DiskStore;
pub use shelf::{Shelf, names_differ};
pub use sink::Sink;
pub use store::Store;
pub use stream::StreamSink;
pub use tray::Tray;
pub use trip::Trip;
pub use whole_file::{GREATEST_FILE, LoadRefused, load};
pub use whole_piece::put_all;

#[cfg(test)]
mod tests;
