//! The bytes of the three files.

/// The bytes of a database and of what lies beside it, borrowed. Each file has fewer than 4,294,967,296 bytes.
#[derive(Clone, Copy)]
pub struct Evidence<'a> {
    /// The database file.
    pub database: &'a [u8],
    /// The write-ahead log, where there is one.
    pub wal: Option<&'a [u8]>,
    /// The rollback journal, where there is one.
    pub journal: Option<&'a [u8]>,
}
