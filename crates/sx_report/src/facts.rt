//! What a report tells of a case.

use sx_base::Moment;
use sx_journal::JournalState;
use sx_wal::WalState;

/// What a report tells of a file.
#[derive(Debug, PartialEq, Eq, Drop)]
pub struct FileFacts {
    /// Its length.
    pub bytes: u64,
    /// The SHA-256 of its bytes, in hexadecimal.
    pub sha256: String,
}

/// What a report tells of a moment.
#[derive(Clone, Copy, Debug, PartialEq, Eq)]
pub struct MomentFacts {
    pub at: Moment,
    /// How many pages it claims.
    pub pages: u32,
    /// How many of them have a view.
    pub held: u32,
    /// How many of these are uncertain.
    pub uncertain: u32,
    /// How many bytes of its pages the database uses.
    pub owned: u64,
    /// How many it leaves unused.
    pub slack: u64,
    /// How many of which a fault hides what they are.
    pub fault: u64,
    /// How many links lead to what is no page that the evidence holds.
    pub dead: u64,
}

/// What a report tells of a write-ahead log.
#[derive(Debug, PartialEq, Eq, Drop)]
pub struct WalFacts {
    pub file: FileFacts,
    pub state: WalState,
    /// How many whole frames it has, and of each class how many.
    pub frames: u32,
    pub committed: u32,
    pub pending: u32,
    pub foreign: u32,
    pub broken: u32,
}

/// What a report tells of a rollback journal.
#[derive(Debug, PartialEq, Eq, Drop)]
pub struct JournalFacts {
    pub file: FileFacts,
    pub state: JournalState,
    /// How many records it has, and how many good ones.
    pub records: u32,
    pub good: u32,
}

/// What a report tells of a case.
#[derive(Debug, PartialEq, Eq, Drop)]
pub struct CaseFacts {
    /// The page size and the usable size of the file's header, in bytes.
    pub page_size: u32,
    pub usable: u32,
    pub database: FileFacts,
    /// The write-ahead log, where there is one.
    pub wal: Option<WalFacts>,
    /// The rollback journal, where there is one.
    pub journal: Option<JournalFacts>,
    /// Each moment, in order.
    pub moments: Vec<MomentFacts>,
    /// How many candidates there are under all moments.
    pub candidates: u64,
}
