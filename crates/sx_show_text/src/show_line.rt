//! How far a text has come.

/// The next line of `show`.
#[derive(Clone, Copy)]
pub enum ShowLine {
    /// The columns.
    Columns,
    /// The item that is next on the walk, or the last line where there is none.
    Items,
    /// None.
    End,
}

/// How many rows and faults were printed.
#[derive(Clone, Copy)]
pub struct Counts {
    pub rows: u64,
    pub faults: u64,
}
