//! What the words ask for.
ghost use Rattle.std.specs.Prelude.{◌≤◌};

use sx_base::{Moment, Place};

/// What the words ask for.
#[derive(Clone, Copy, Debug, PartialEq, Eq)]
pub enum Request<'w> {
    /// `<db> ..`: a question about the evidence of a database's name. The names of its companions follow from it.
    Evidence { db: &'w str, question: Question<'w> },
    /// `drill seed=N leaves=N commits=N`: evidence that is made from a seed, which needs no file.
    Drill(Drill),
}

/// How the evidence of a drill is made.
#[derive(Clone, Copy, Debug, PartialEq, Eq)]
pub struct Drill {
    /// The number that its draws begin with.
    pub seed: u64,
    /// How many leaves its table has: 1 to 400.
    pub leaves: u32,
    /// How many commits its log has: at most 1000.
    pub commits: u32,
    ghost least: { 1 ≤ leaves },
    ghost most: { leaves ≤ 400 },
    ghost few: { commits ≤ 1000 },
}

/// A question about the evidence of a database's name.
#[derive(Clone, Copy, Debug, PartialEq, Eq)]
pub enum Question<'w> {
    /// `timeline`: the states that the evidence still holds.
    Timeline,
    /// `show table=T [at=M]`: the rows of a table at some time.
    Show { table: &'w str, at: When },
    /// `map [at=M]`: what each byte of each page is at some time.
    Map { at: When },
    /// `page no=N [at=M]`: page `no`, from 1, at some time.
    Page { no: u32, at: When },
    /// `carve [at=M|all] [spill=yes|no]`: what of deleted rows still stands, where nothing uses the bytes at some times, and
    /// whether it is completed by overflow pages.
    Carve { at: Which, spill: bool },
    /// `explain part=P byte=N [at=M]`: what a byte of one of the files is, and what at some time.
    Explain { place: Place, at: When },
    /// `generations`: what older generations left in the log, and records behind a zeroed header of the journal.
    Generations,
    /// `history table=T rowid=N`: what each moment holds under a table's name and a rowid.
    History { table: &'w str, rowid: i64 },
    /// `report`: the files, their states and totals of each moment, for other programs.
    Report,
}

/// When: which states of the database a command looks at.
#[derive(Clone, Copy, Debug, PartialEq, Eq)]
pub enum When {
    /// At the last moment: the last commit, or the database file where there is none.
    Last,
    /// At this moment.
    At(Moment),
}

/// Which: the states of the database that a command looks at together.
#[derive(Clone, Copy, Debug, PartialEq, Eq)]
pub enum Which {
    /// All that the evidence holds.
    All,
    /// One of them.
    One(When),
}

/// The words are outside the grammar.
#[derive(Clone, Copy, Debug, PartialEq, Eq)]
pub struct Usage;
