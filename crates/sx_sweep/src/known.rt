//! What is known of the pages while moments are gone over.

use sx_owned::OwnedRuns;
use sx_sums::Sums;

/// What the pages of the moments so far own, and with what each page was labelled last.
#[derive(Drop)]
pub struct Known {
    pub owned: OwnedRuns,
    pub sums: Sums,
    /// Whether there are several moments, so that it pays to follow the references from the first on.
    pub several: bool,
}
