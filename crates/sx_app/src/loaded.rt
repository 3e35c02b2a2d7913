//! Evidence as it was loaded.
ghost use Rattle.std.specs.Prelude.{◌≡◌, ◌≤◌, length};
ghost use Rattle.std.specs.Option.{option_copied, ForSome};
ghost use Rattle.sx_edge.specs.declared.whole_file.TheConstants.{GREATEST_FILE};

use crate::database::Database;

/// The evidence of a database's name, read whole.
#[derive(Drop)]
pub struct Loaded {
    /// The database, with its header.
    pub database: Database,
    /// What lies beside it.
    pub beside: Companions,
}

/// The files that may lie beside a database, each read whole where it is there: at most 1 GiB.
#[derive(Drop)]
pub struct Companions {
    /// All bytes of the write-ahead log.
    pub wal: Option<Vec<u8>>,
    /// All bytes of the rollback journal.
    pub journal: Option<Vec<u8>>,
    ghost wal_small: { ForSome wal (λ bytes. length bytes.items ≤ GREATEST_FILE) },
    ghost journal_small: { ForSome journal (λ bytes. length bytes.items ≤ GREATEST_FILE) },
}

impl Companions {
    ghost use Rattle.sx_app.specs.Loaded.{bytes_by};

    /// The bytes of the write-ahead log, where there is one.
    pub fn wal_bytes(&self) -> Option<&[u8]>
        ensures bytes { option_copied result ≡ bytes_by self.now.wal }
        ensures small { ForSome result (λ file. length file.now ≤ GREATEST_FILE) }
    {
        match &self.wal {
            Some(bytes) => Some(bytes.as_slice()),
            None => None,
        }
    }

    /// The bytes of the rollback journal, where there is one.
    pub fn journal_bytes(&self) -> Option<&[u8]>
        ensures bytes { option_copied result ≡ bytes_by self.now.journal }
        ensures small { ForSome result (λ file. length file.now ≤ GREATEST_FILE) }
    {
        match &self.journal {
            Some(bytes) => Some(bytes.as_slice()),
            None => None,
        }
    }
}
