//! A page and the first of its images.

/// A page, and the first of the images of it in a log or a journal.
#[derive(Clone, Copy, Debug, PartialEq, Eq)]
pub struct FirstImage {
    /// The number of the page.
    pub page: u32,
    /// The number of its first image, from 0.
    pub first: u32,
}
