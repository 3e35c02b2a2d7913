//! What a page is used for.

/// What a reference to a page says that the page is.
#[derive(Clone, Copy, Debug, PartialEq, Eq)]
pub enum Role {
    /// A page of a b-tree ("B-tree Pages").
    Node,
    /// A page of a chain that holds the rest of a payload ("Cell Payload Overflow Pages").
    Overflow,
    /// A freelist trunk page ("The Freelist").
    Trunk,
    /// A freelist leaf page ("The Freelist").
    FreeLeaf,
    /// A pointer-map page ("Pointer Map or Ptrmap Pages").
    PointerMap,
}
