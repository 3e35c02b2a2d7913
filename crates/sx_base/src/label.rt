//! What a byte of a page is.
ghost use Rattle.std.specs.Prelude.{◌≡◌};
ghost use Rattle.sx_base.specs.Labels.{is_owning, is_fault};

/// What one byte of a page is at one moment, or the named fault that keeps it from being anything.
///
/// Each label belongs to one of three groups: the byte is owned, it is slack, or a fault hides what it is.
/// The numbers count from 0: cells in the order of the cell pointer array, freeblocks in the order of their chain.
#[derive(Clone, Copy, Debug, PartialEq, Eq)]
pub enum Label {
    /// Owned: the database header, the first 100 bytes of page 1 ("The Database Header").
    DbHeader,
    /// Owned: the lock-byte page ("The Lock-Byte Page").
    LockPage,
    /// Owned: the reserved bytes at the end of a page.
    Reserved,
    /// Owned: the header of a b-tree page ("B-tree Pages").
    NodeHeader,
    /// Owned: the cell pointer array.
    Pointers,
    /// Owned: the cell of this index.
    Cell(u32),
    /// Owned: the entries of a pointer-map page ("Pointer Map or Ptrmap Pages").
    Entries,
    /// Owned: the header and the leaf numbers of a freelist trunk page ("The Freelist").
    TrunkHead,
    /// Owned: the link of an overflow page ("Cell Payload Overflow Pages").
    Link,
    /// Owned: the payload bytes of an overflow page.
    Body,
    /// Slack: the freeblock of this number.
    Freeblock(u32),
    /// Slack: between the cell pointer array and the cell content area.
    Gap,
    /// Slack: a byte of the cell content area that nothing claims.
    Fragment,
    /// Slack: behind the entries of a pointer-map page.
    MapRest,
    /// Slack: behind the leaf numbers of a freelist trunk page.
    TrunkRest,
    /// Slack: a freelist leaf page.
    FreeLeaf,
    /// Slack: a page that nothing refers to.
    Unreached,
    /// Slack: behind the payload bytes of an overflow page.
    Tail,
    /// Fault: page 1 of the moment is no accepted header of the same page size.
    BadHead,
    /// Fault: the evidence doesn't hold the page.
    Absent,
    /// Fault: two or more references lead to the page.
    DoubleClaim,
    /// Fault: a b-tree page whose first byte is none of the four kinds.
    BadNode,
    /// Fault: a b-tree page whose cell pointer array ends past the usable size.
    BadArray,
    /// Fault: a freelist trunk page whose count of leaves doesn't fit.
    BadTrunk,
    /// Fault: an overflow page behind no cell.
    Behind,
    /// Fault: an overflow page behind the last that its cell needs.
    LongChain,
    /// Fault: two or more things on a b-tree page claim the byte.
    Overlap,
}

impl Label {
    /// Whether the byte is owned: something that the database uses stands there.
    pub fn owning(&self) -> bool
        ensures { result ≡ is_owning self.now }
    {
        match self {
            Label::DbHeader
            | Label::LockPage
            | Label::Reserved
            | Label::NodeHeader
            | Label::Pointers
            | Label::Cell(_)
            | Label::Entries
            | Label::TrunkHead
            | Label::Link
            | Label::Body => true,
            _ => false,
        }
    }

    /// Whether the label is a fault: what the byte is can't be said.
    pub fn fault(&self) -> bool
        ensures { result ≡ is_fault self.now }
    {
        match self {
            Label::BadHead
            | Label::Absent
            | Label::DoubleClaim
            | Label::BadNode
            | Label::BadArray
            | Label::BadTrunk
            | Label::Behind
            | Label::LongChain
            | Label::Overlap => true,
            _ => false,
        }
    }
}
