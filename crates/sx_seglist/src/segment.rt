//! A segment of the bytes of a page.
use crate::claimed::Claimed;

/// The index of the end mark: a segment without a byte that begins at the page's length.
pub(crate) const END: usize = 1;

/// A run of bytes of which the same is claimed. It ends where the next one begins.
#[derive(Clone, Copy)]
pub struct Segment {
    /// The offset of its first byte, in bytes from the start of the page.
    pub start: u32,
    /// The index of the segment behind it, in the vector of all segments.
    pub next: usize,
    /// What is claimed of its bytes.
    pub claimed: Claimed,
}
