//! A page image.

use sx_base::{Class, Part};

/// One whole page that stands somewhere in the three files.
#[derive(Clone, Copy, Debug, PartialEq, Eq)]
pub struct Image {
    /// Where the page begins, in bytes from the start of its file.
    pub offset: u64,
    /// The number of the page, as its frame or record stores it; in the database file the page's own, from 1.
    pub page: u32,
    /// The file.
    pub part: Part,
    /// What the image is: File in the database, else the class of its frame or record.
    pub class: Class,
}
