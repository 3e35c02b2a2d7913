//! A row that was found by its rowid.

use sx_row::RowFault;

/// A row with the rowid that is looked for.
#[derive(Clone, Copy, Debug, PartialEq, Eq)]
pub struct Found {
    /// The number of its page, from 1.
    pub page: u32,
    /// The index of its cell in the cell pointer array, from 0.
    pub cell: u32,
    /// Why its columns can't be shown, where they can't.
    pub fault: Option<RowFault>,
}
