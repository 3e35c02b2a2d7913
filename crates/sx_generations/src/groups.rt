//! The groups of records of a zeroed journal that confirm one another.
ghost use Rattle.std.specs.Prelude.{◌≡◌, ◌<◌, Some, length, slice_get};

use std::marker::Model;

/// A group of records behind a zeroed header: a maximal list of at least two neighbours that give the same nonce ("The
/// Rollback Journal").
#[derive(Clone, Copy, Debug, PartialEq, Eq)]
pub struct Group {
    /// Its first record.
    pub first: u32,
    /// How many records it has, 2 at least.
    pub entries: u32,
    /// The number that their checksums began with.
    pub nonce: u32,
}

/// The groups of a journal in the order of the file.
#[derive(Drop)]
pub struct Confirmed {
    pub(crate) groups: Vec<Group>,
}

impl Model for Confirmed {
    ghost use Rattle.std.specs.Prelude.{List, length, ◌^◌, ◌<◌};
    ghost use Rattle.sx_generations.specs.declared.groups.Group.{Group};

    ghost Value = { List Group };

    ghost view = { λ confirmed. confirmed.groups.items };

    ghost invariant = { λ confirmed. length confirmed.groups.items < 2 ^ 32 };
}

impl Confirmed {
    /// How many groups there are.
    pub fn groups(&self) -> u32
        ensures { result ≡ length self.now }
    {
        self.groups.len() as u32
    }

    /// Group `i`, from 0, in the order of the file.
    pub fn group(&self, i: u32) -> Group
        requires { i < length self.now }
        ensures { slice_get self.now i ≡ Some result }
    {
        self.groups[i as usize]
    }
}
