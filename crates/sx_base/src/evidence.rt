//! Where something stands in the evidence.

/// One of the three files that an examination reads.
#[derive(Clone, Copy, Debug, PartialEq, Eq)]
pub enum Part {
    /// The database file.
    Database,
    /// The write-ahead log, `<database>-wal`.
    Wal,
    /// The rollback journal, `<database>-journal`.
    Journal,
}

/// A place in the evidence.
#[derive(Clone, Copy, Debug, PartialEq, Eq)]
pub struct Place {
    /// The file.
    pub part: Part,
    /// The offset in bytes from the start of that file.
    pub offset: u64,
}

/// A run of bytes within one page.
#[derive(Clone, Copy, Debug, PartialEq, Eq)]
pub struct Span {
    /// The offset of its first byte, in bytes from the start of the page.
    pub start: u32,
    /// Its length in bytes.
    pub len: u32,
}

/// The outside failed: a start, a read or a write.
///
/// Whoever answers it has raised its own count of faults in the same call.
#[derive(Clone, Copy, Debug, PartialEq, Eq)]
pub struct Failed;
