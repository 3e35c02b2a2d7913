//! A list of records that knows how many of them are Good.
ghost use Rattle.std.specs.Prelude.{◌≡◌, ℕ, ◌+◌, ◌^◌, ◌<◌, ◌==◌, [], ◌∷◌, ◌++◌, length, slice_get, OnOk};
ghost use Rattle.sx_journal.specs.Entries.{good_count};

use crate::entry::Entry;
use std::alloc::{AllocError, Global};
use std::marker::Model;
use sx_base::Class;

/// Records in the order of the file, fewer than 2^32.
#[derive(Drop)]
pub struct Entries {
    items: Vec<Entry>,
    good: u32,
}

impl Model for Entries {
    ghost use Rattle.std.specs.Prelude.{List};
    ghost use Rattle.sx_journal.specs.declared.entry.Entry.{Entry};
    ghost use Rattle.sx_journal.specs.Grading.{IsCounted};

    ghost Value = { List Entry };

    ghost view = { λ entries. entries.items.items };

    ghost invariant = { λ entries. IsCounted entries.items.items entries.good };
}

impl Entries {
    pub fn new(alloc: Global) -> Self
        ensures { result ≡ [] }
    {
        Entries {
            items: Vec::new(alloc),
            good: 0,
        }
    }

    pub fn len(&self) -> u32
        ensures { result ≡ length self.now }
    {
        self.items.len() as u32
    }

    /// How many are Good.
    pub fn good(&self) -> u32
        ensures { result ≡ good_count self.now }
    {
        self.good
    }

    /// Whether each is Good.
    pub fn all_good(&self) -> bool
        ensures { result ≡ (good_count self.now == length self.now) }
    {
        self.good as usize == self.items.len()
    }

    pub fn get(&self, i: u32) -> Entry
        requires { i < length self.now }
        ensures { slice_get self.now i ≡ Some result }
    {
        self.items[i as usize]
    }

    pub fn push(&mut self, entry: Entry) -> Result<(), AllocError>
        requires { length self.old + 1 < 2 ^ 32 }
        ensures { OnOk result (self.new ≡ self.old ++ entry ∷ []) }
    {
        self.items.push(entry)?;
        if entry.class == Class::Good {
            self.good += 1;
        }
        Ok(())
    }
}
