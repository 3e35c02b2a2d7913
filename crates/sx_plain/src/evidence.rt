//! The files of a database.
ghost use Rattle.std.specs.Prelude.{◌≡◌, ◌<◌, ◌^◌, length, IsTrue};
ghost use Rattle.std.specs.Option.{option_copied, ForSome};

use std::alloc::{AllocError, Global};
use sx_edge::{Store, load};

/// The database, and the two files beside it where they are there, each of fewer than 2^32 bytes.
#[derive(Drop)]
pub struct Files {
    database: Vec<u8>,
    wal: Option<Vec<u8>>,
    journal: Option<Vec<u8>>,
    ghost database_small: { length database.items < 2 ^ 32 },
    ghost wal_small: { ForSome wal (λ bytes. length bytes.items < 2 ^ 32) },
    ghost journal_small: { ForSome journal (λ bytes. length bytes.items < 2 ^ 32) },
}

impl Files {
    /// The bytes of the database.
    pub fn database(&self) -> &[u8]
        ensures { length result.now < 2 ^ 32 }
    {
        self.database.as_slice()
    }

    /// The bytes of the write-ahead log, where there is one.
    pub fn wal(&self) -> Option<&[u8]>
        ensures { ForSome result (λ bytes. length bytes.now < 2 ^ 32) }
    {
        match &self.wal {
            Some(bytes) => Some(bytes.as_slice()),
            None => None,
        }
    }

    /// The bytes of the journal, where there is one.
    pub fn journal(&self) -> Option<&[u8]>
        ensures { ForSome result (λ bytes. length bytes.now < 2 ^ 32) }
    {
        match &self.journal {
            Some(bytes) => Some(bytes.as_slice()),
            None => None,
        }
    }
}

/// The files of a database of that name; `None` where one can't be read, is too large, or there is no database.
pub fn load_files<S: Store>(
    alloc: Global,
    store: &mut S,
    name: &str,
) -> Result<Option<Files>, AllocError> {
    let Ok(Some(database)) = load(alloc, store, name) else {
        return Ok(None);
    };
    let log = format!(in alloc; "{name}-wal")?;
    let Ok(wal) = load(alloc, store, log.as_str()) else {
        return Ok(None);
    };
    let rollback = format!(in alloc; "{name}-journal")?;
    let Ok(journal) = load(alloc, store, rollback.as_str()) else {
        return Ok(None);
    };
    Ok(Some(Files {
        database,
        wal,
        journal,
    }))
}
