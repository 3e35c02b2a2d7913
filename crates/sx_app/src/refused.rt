//! Why the examiner doesn't answer with what was asked for, and the exit status of each end.
ghost use Rattle.std.specs.Prelude.{◌≡◌};
ghost use Rattle.sx_app.specs.Owed.{refused_by};
ghost use Rattle.sx_app.specs.Refusals.{status_of};
ghost use Rattle.sx_app.specs.declared.refused.Refused.TheVariants.{Memory};

use std::alloc::{AllocError, AllocFailed};
use sx_base::{Moment, Part};
use sx_header::HeaderFault;
use sx_lines::Unwritten;
use thiserror::Error;

/// Why an examination doesn't answer with what was asked for.
///
/// The comment on each says when it comes. Where two could come, the one that stands first in this order does:
/// the words, the database, its header, the write-ahead log, the journal, the moment, the table, the byte.
#[derive(Clone, Copy, Debug, PartialEq, Eq, Error)]
pub enum Refused {
    /// The words are outside the grammar.
    #[error("the words are outside the grammar")]
    Usage,
    /// The store has no file of the database's name.
    #[error("no database")]
    NoDatabase,
    /// The database's header isn't accepted; the first test that fails.
    #[error("the database's header isn't accepted")]
    BadHeader(HeaderFault),
    /// That file has more than 1,073,741,824 bytes.
    #[error("a file is too large")]
    TooLarge(Part),
    /// The words name no moment of the evidence. It carries the number of commits.
    #[error("no such moment")]
    NoMoment(u32),
    /// Page 1 of that moment is no accepted header of the database's page size.
    #[error("page 1 is unreadable at the moment")]
    Unreadable(Moment),
    /// The schema at the moment has no table of that name.
    #[error("no such table")]
    NoTable,
    /// The byte is at or past the end of the part. It carries the part's length in bytes, 0 for an absent part.
    #[error("the part has fewer bytes")]
    NoByte(u64),
    /// The store failed. Nothing was written.
    #[error("a read failed")]
    ReadFault,
    /// The sink failed. A front of the answer's text was written.
    #[error("a write failed")]
    WriteFault,
    /// There wasn't memory enough. A front of the answer's text was written.
    #[error("out of memory")]
    Memory,
    /// The table's root page is no page number.
    #[error("the table has no tree")]
    NoTree,
}

impl From<AllocError> for Refused {
    ghost from_gives = { λ _ refused. refused ≡ Memory };

    fn from(_: AllocError) -> Self {
        Refused::Memory
    }
}

impl From<Unwritten> for Refused {
    ghost from_gives = { λ unwritten refused. refused ≡ refused_by unwritten };

    fn from(unwritten: Unwritten) -> Self {
        match unwritten {
            Unwritten::WriteFault => Refused::WriteFault,
            Unwritten::Memory => Refused::Memory,
        }
    }
}

/// The exit status of an examination's end: 0 for an answer, and a number of its own for each refusal.
pub fn status(outcome: &Result<(), Refused>) -> u8
    ensures { result ≡ status_of outcome.now }
{
    match outcome {
        Ok(()) => 0,
        Err(Refused::Usage) => 1,
        Err(Refused::NoDatabase) => 2,
        Err(Refused::BadHeader(_)) => 3,
        Err(Refused::TooLarge(_)) => 4,
        Err(Refused::NoMoment(_)) => 5,
        Err(Refused::Unreadable(_)) => 6,
        Err(Refused::NoTable) => 7,
        Err(Refused::NoByte(_)) => 8,
        Err(Refused::ReadFault) => 9,
        Err(Refused::WriteFault) => 10,
        Err(Refused::Memory) => 11,
        Err(Refused::NoTree) => 12,
    }
}
