//! What a walk of a tree comes upon.

/// Why the rows of a page, or of a cell, can't be shown: the first that applies, in the order of the variants.
#[derive(Clone, Copy, Debug, PartialEq, Eq)]
pub enum TreeFault {
    /// The page has no view at that moment.
    Absent,
    /// The page is named more than once: by cells and pages of the tree, or as its root besides.
    DoubleClaim,
    /// The page's first byte says no kind of b-tree page ("B-tree Pages").
    BadNode,
    /// The page's cell pointer array ends past the usable bytes.
    BadArray,
    /// The page is one of an index and the root one of a table, or the other way round.
    OtherKind,
    /// The cell can't be read.
    BadCell,
}

/// A row of a tree, or what stands in the place of rows.
#[derive(Clone, Copy, Debug, PartialEq, Eq)]
pub enum RowItem {
    /// A row: a cell of a page.
    Row {
        /// The number of the page, from 1.
        page: u32,
        /// The index of the cell in the cell pointer array, from 0.
        cell: u32,
    },
    /// A fault of a page, or of a cell.
    Fault {
        /// What is wrong.
        kind: TreeFault,
        /// The number of the page: any number of 4 bytes, as the tree has it, where that page is absent.
        page: u32,
        /// The index of the cell for [`TreeFault::BadCell`], and else 0.
        cell: u32,
    },
}
