//! What the tree of a moment is read by.
ghost use Rattle.std.specs.Prelude.{◌≡◌, IsTrue};

/// The size of a moment in pages, how many bytes of a page are in use, and the root of the tree.
#[derive(Clone, Copy, Debug, PartialEq, Eq)]
pub(crate) struct Setting {
    pub(crate) size: u32,
    pub(crate) usable: u32,
    pub(crate) root: u32,
}

/// Whether two settings are the same.
pub(crate) fn same_setting(before: &Setting, now: &Setting) -> bool
    ensures { IsTrue result → before.now ≡ now.now }
{
    before == now
}
