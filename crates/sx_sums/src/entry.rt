//! What a page was labelled with.

use sx_base::Place;
use sx_prov::{PageKey, Totals};

/// With what a page was labelled.
#[derive(Clone, Copy, Debug, PartialEq, Eq)]
pub struct Labelled {
    /// Where its view begins.
    pub place: Place,
    /// What of the moment decided its labels.
    pub key: PageKey,
    /// How many of its bytes are in each group of labels.
    pub totals: Totals,
}

/// What is kept of the page of a rank.
#[derive(Clone, Copy, Debug, PartialEq, Eq)]
pub struct Entry {
    /// With what it was labelled last, if it was.
    pub last: Option<Labelled>,
    /// Whether it has a view at the moment.
    pub shown: bool,
}
