//! The physical place of a byte.

/// What a byte of a file is part of.
///
/// The last number of each is the byte's offset in that thing, in bytes from its start. Frames, segments, records and
/// images are numbered from 0, in the order of their file; images through all three files.
#[derive(Clone, Copy, Debug, PartialEq, Eq)]
pub enum Physical {
    /// The page image of this number.
    Image(u32, u32),
    /// The header of the write-ahead log, its first 32 bytes ("WAL File Format").
    WalHeader(u32),
    /// The 24 bytes of the header of this frame ("WAL File Format").
    FrameHead(u32, u32),
    /// The 28 bytes of the header of this segment of a live journal ("The Rollback Journal").
    JournalHead(u32, u32),
    /// The 4 bytes of the page number of this record of a journal ("The Rollback Journal").
    EntryHead(u32, u32),
    /// The 4 bytes of the checksum of this record of a journal ("The Rollback Journal").
    EntrySum(u32, u32),
    /// The padding of a journal: the rest of a header's sector, and what stands between records and the next header.
    Pad,
    /// None of these.
    Loose,
}
