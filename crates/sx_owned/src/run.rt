//! Runs of places that follow one another.

/// A run of places, at least one.
#[derive(Clone, Copy, Debug, PartialEq, Eq)]
pub struct Run {
    /// The first place.
    pub start: u32,
    /// The place behind the last one.
    pub end: u32,
}
