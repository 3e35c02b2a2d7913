//! The records of a journal that stand one after the other.

/// A run of records of a journal, behind one header's sector.
#[derive(Clone, Copy)]
pub struct Stretch {
    /// Where the header's sector begins, in bytes from the start of the file.
    pub head: u64,
    /// How many records stand before it.
    pub first: u32,
    /// How many records it has.
    pub entries: u32,
}
