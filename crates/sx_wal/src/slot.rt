//! A slot of a write-ahead log.

use sx_base::Class;

/// The place of a whole frame in a write-ahead log, and what it says ("WAL File Format").
#[derive(Clone, Copy, Debug, PartialEq, Eq)]
pub struct Slot {
    /// The number of the page that the frame holds, as stored; 0 in a frame that can't be valid.
    pub page: u32,
    /// The size of the database in pages after the commit that the frame is, or 0 where it is none.
    pub commit_size: u32,
    /// Where the frame's page begins, in bytes from the start of the log.
    pub offset: u64,
    /// Committed, Pending, Foreign or Broken.
    pub class: Class,
}
