//! The states that the evidence still holds, and what a page image is in them.

/// One state of the database that the evidence still holds.
#[derive(Clone, Copy, Debug, PartialEq, Eq)]
pub enum Moment {
    /// The state that a live rollback journal gives back.
    Journal,
    /// The database file without its write-ahead log.
    File,
    /// The state after the commit of this number in the log's valid run. Commits count from 1.
    Commit(u32),
}

/// What a page image is, a whole page that stands somewhere in the three files.
///
/// The middle four are images in frames of the write-ahead log ("WAL File Format"), the last four are images in
/// records of a rollback journal ("The Rollback Journal").
#[derive(Clone, Copy, Debug, PartialEq, Eq)]
pub enum Class {
    /// A page of the database file.
    File,
    /// A valid frame, at or below the last commit.
    Committed,
    /// A valid frame past the last commit.
    Pending,
    /// A frame that isn't valid, with other salts than the log's header.
    Foreign,
    /// A frame that isn't valid, with the salts of the log's header.
    Broken,
    /// A journal record before the first that doesn't fit.
    Good,
    /// The first journal record that doesn't fit.
    Bad,
    /// A journal record after the first that doesn't fit.
    After,
    /// A record of a journal whose header is zeroed, which can't be tested.
    Unchecked,
}
