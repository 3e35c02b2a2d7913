//! What all moments of a case tell together.

use sx_owned::OwnedRuns;

/// How many bytes of all pages of a moment are in each of the three groups of labels, and how many dead links it has.
#[derive(Clone, Copy, Debug, PartialEq, Eq)]
pub struct MomentTotals {
    /// What the database uses.
    pub owned: u64,
    /// What it leaves unused.
    pub slack: u64,
    /// What can't be said.
    pub fault: u64,
    /// How many references lead to no page that has a view.
    pub dead: u64,
}

/// What is owned under all moments of a case, and the totals of each.
#[derive(Drop)]
pub struct Swept {
    /// Which bytes of the images are owned, and where freeblocks begin.
    pub owned: OwnedRuns,
    /// The totals of each moment, in the order of [`sx_moment::Case::moment`]; None where it has no header.
    pub totals: Vec<Option<MomentTotals>>,
}
