//! Where a page image stands.
ghost use Rattle.std.specs.Prelude.{◌≡◌, length};
ghost use Rattle.sx_moment.specs.Views.{bytes_of, place_of};
ghost use Rattle.sx_moment.specs.Images.{Stands};

use crate::sources::Sources;
use sx_base::{Part, Place};

/// Where the bytes of a view stand: in the file, or in an image of the page.
#[derive(Clone, Copy, Debug, PartialEq, Eq)]
pub enum Origin {
    /// The page's own place in the database file.
    Database,
    /// The slot of this number in the write-ahead log, from 0.
    Slot(u32),
    /// The record of this number in the journal, from 0.
    Record(u32),
}

impl<'a> Sources<'a> {
    /// The bytes of a page that stand at an origin.
    pub fn bytes(&self, origin: Origin, no: u32) -> &'a [u8]
        requires { Stands self.now no origin }
        ensures bytes { result.now ≡ bytes_of self.now no origin }
        ensures whole { length result.now ≡ self.now.header.page_size }
    {
        match origin {
            Origin::Database => self.file_page(no),
            Origin::Slot(i) => self.slot_page(i),
            Origin::Record(i) => self.record_page(i),
        }
    }

    /// The place where they begin.
    pub fn place(&self, origin: Origin, no: u32) -> Place
        requires { Stands self.now no origin }
        ensures { result ≡ place_of self.now no origin }
    {
        match origin {
            Origin::Database => Place {
                part: Part::Database,
                offset: (u64::from(no) - 1) * u64::from(self.header().page_size),
            },
            Origin::Slot(i) => Place {
                part: Part::Wal,
                offset: self.slot(i).offset,
            },
            Origin::Record(i) => Place {
                part: Part::Journal,
                offset: self.record(i).offset,
            },
        }
    }
}
