//! What a cell is.
ghost use Rattle.std.specs.Prelude.{◌≡◌, ◌≤◌};
ghost use Rattle.sx_cell.specs.Kinds.{is_table, is_inner, has_child};
ghost use Rattle.sx_cell.specs.Local.{spilled, need_of};

use crate::local::need_of;

/// The kind of a b-tree page and of each of its cells ("B-tree Pages").
#[derive(Clone, Copy, Debug, PartialEq, Eq)]
pub enum Kind {
    /// A leaf of a table b-tree: its cells are rows.
    TableLeaf,
    /// An interior page of a table b-tree: its cells are a child and a key.
    TableInner,
    /// A leaf of an index b-tree.
    IndexLeaf,
    /// An interior page of an index b-tree: its cells have a child besides.
    IndexInner,
}

impl Kind {
    /// Whether it is a page of a table, and not of an index.
    pub fn is_table(self) -> bool
        ensures { result ≡ is_table self }
    {
        match self {
            Kind::TableLeaf | Kind::TableInner => true,
            Kind::IndexLeaf | Kind::IndexInner => false,
        }
    }

    /// Whether it is an interior page, and not a leaf.
    pub fn is_inner(self) -> bool
        ensures { result ≡ is_inner self }
    {
        match self {
            Kind::TableInner | Kind::IndexInner => true,
            Kind::TableLeaf | Kind::IndexLeaf => false,
        }
    }

    /// Whether its cells have a left child: those of interior pages do.
    pub fn has_child(self) -> bool
        ensures { result ≡ has_child self }
    {
        self.is_inner()
    }
}

/// Where the parts of a cell stand and what they say ("B-tree Pages"). Places are in bytes from the start of the page.
#[derive(Clone, Copy, Debug, PartialEq, Eq)]
pub struct Cell {
    /// Where the cell begins.
    pub at: u32,
    /// How many bytes it owns: those of its fields, but at least 4.
    pub len: u32,
    /// The page number of the left child: on interior pages.
    pub child: Option<u32>,
    /// The rowid of a row of a table, or the key of an interior cell of a table.
    pub rowid: Option<i64>,
    /// The length of the payload in bytes, from 0 to 2147483647: 0 for interior cells of a table, which have none.
    pub payload: u64,
    /// Where the local part of the payload begins: behind the other fields where there is none.
    pub local_at: u32,
    /// The length of the local part in bytes ("Cell Payload Overflow Pages").
    pub local: u32,
    /// The page number of the first overflow page: exactly where the payload is longer than its local part.
    pub overflow: Option<u32>,
}

impl Cell {
    /// How many bytes of the payload stand on overflow pages: those past its local part.
    pub fn spilled(&self) -> u64
        ensures { result ≡ spilled self.now }
    {
        self.payload.saturating_sub(u64::from(self.local))
    }

    /// How many overflow pages these bytes need, on pages with so many usable bytes, 480 or more ("Cell Payload Overflow
    /// Pages").
    pub fn need(&self, usable: u32) -> u64
        requires { 480 ≤ usable }
        ensures value { result ≡ need_of usable (spilled self.now) }
        ensures few { result ≤ spilled self.now }
    {
        need_of(usable, self.spilled())
    }
}

/// Why there is no cell at a place: the first that is met in reading order.
#[derive(Clone, Copy, Debug, PartialEq, Eq)]
pub enum CellFault {
    /// A field, or the bytes that the cell owns, end past the usable bytes of the page.
    Outside,
    /// The length of the payload is above 2147483647. It is found right behind that length.
    TooLong,
}
