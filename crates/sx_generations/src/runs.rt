//! The runs of older generations in a write-ahead log.
ghost use Rattle.std.specs.Prelude.{◌≡◌, ◌<◌, Some, length, slice_get, slice_index, option_map};
ghost use Rattle.sx_generations.specs.Listing.{commits_at};

use std::marker::Model;

/// A run of frames of an older generation: a maximal list of at least two neighbouring slots, each continuing the one
/// before ("Checksum Algorithm").
#[derive(Clone, Copy, Debug, PartialEq, Eq)]
pub struct Run {
    /// Its first slot.
    pub first: u32,
    /// How many slots it has, 2 at least.
    pub slots: u32,
    /// The first of the two salts of its frames.
    pub salt1: u32,
    /// The second of the two salts of its frames.
    pub salt2: u32,
    /// How many commits it has.
    pub commits: u32,
}

/// A run, and how many commits the runs before it have.
#[derive(Clone, Copy)]
pub struct Listed {
    pub run: Run,
    pub before: usize,
}

/// The runs of a log in the order of the file, each with the slots of its commits.
#[derive(Drop)]
pub struct Older {
    pub(crate) runs: Vec<Listed>,
    pub(crate) commits: Vec<u32>,
}

impl Model for Older {
    ghost use Rattle.std.specs.Prelude.{ℕ, List, map};
    ghost use Rattle.sx_generations.specs.declared.runs.Run.{Run};
    ghost use Rattle.sx_generations.specs.Listing.{shown, AreListed};

    ghost Value = { List (Run × List ℕ) };

    ghost view = { λ older. map (shown older.commits.items) older.runs.items };

    ghost invariant = { λ older. AreListed older.runs.items older.commits.items };
}

impl Older {
    /// How many runs there are.
    pub fn runs(&self) -> u32
        ensures { result ≡ length self.now }
    {
        self.runs.len() as u32
    }

    /// Run `i`, from 0, in the order of the file.
    pub fn run(&self, i: u32) -> Run
        requires { i < length self.now }
        ensures run { option_map (λ run. run.0) (slice_get self.now i) ≡ Some result }
        ensures commits { result.commits ≡ length (commits_at self.now i) }
    {
        self.runs[i as usize].run
    }

    /// The slot of commit `k` of run `i`, both from 0.
    pub fn commit(&self, i: u32, k: u32) -> u32
        requires run { i < length self.now }
        requires commit { k < length (commits_at self.now i) }
        ensures { result ≡ slice_index (commits_at self.now i) k }
    {
        self.commits[self.runs[i as usize].before + k as usize]
    }
}
