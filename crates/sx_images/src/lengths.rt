//! The lengths of the three files.
ghost use Rattle.std.specs.Prelude.{◌≡◌};
ghost use Rattle.sx_images.specs.Images.{length_of};

use sx_base::Part;

/// The lengths of the three files in bytes.
#[derive(Clone, Copy, Debug, PartialEq, Eq)]
pub struct Lengths {
    /// The database file.
    pub database: u64,
    /// The write-ahead log, where there is one.
    pub wal: Option<u64>,
    /// The rollback journal, where there is one.
    pub journal: Option<u64>,
}

impl Lengths {
    /// The length of one file in bytes: 0 where it is absent.
    pub fn of(&self, part: Part) -> u64
        ensures { result ≡ length_of self.now part }
    {
        match part {
            Part::Database => self.database,
            Part::Wal => self.wal.unwrap_or(0),
            Part::Journal => self.journal.unwrap_or(0),
        }
    }
}
