//! What kind of file the journal is.

/// The state of a journal: the first that applies, in the order of the variants ("The Rollback Journal").
#[derive(Clone, Copy, Debug, PartialEq, Eq)]
pub enum JournalState {
    /// There is no journal.
    Absent,
    /// It has fewer than 28 bytes.
    Short,
    /// It begins with a header of the database's page size, whose sector size is a power of two from 32 to 65536.
    Live,
    /// Its first 28 bytes are zero: a transaction ended and overwrote the header.
    Zeroed,
    /// Anything else.
    Alien,
}
