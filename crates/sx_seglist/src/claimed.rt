//! What is claimed of a byte.
ghost use Rattle.std.specs.Prelude.{◌≡◌, IsTrue};
ghost use Rattle.sx_seglist.specs.Claims.{once_more};

use sx_base::Label;

/// What is claimed of a byte.
#[derive(Clone, Copy, Debug, PartialEq, Eq)]
pub enum Claimed {
    /// No claim holds it.
    None,
    /// One claim holds it, and this is that claim's label.
    One(Label),
    /// Two or more claims hold it.
    Many,
}

impl Claimed {
    /// What is claimed of the byte when a claim of this label holds it besides.
    pub(crate) fn once_more(self, label: Label) -> Claimed
        ensures { result ≡ once_more label self }
    {
        match self {
            Claimed::None => Claimed::One(label),
            Claimed::One(_) | Claimed::Many => Claimed::Many,
        }
    }

    /// Whether the same is claimed.
    pub(crate) fn is(self, other: Claimed) -> bool
        ensures same { IsTrue result → self ≡ other }
        ensures found { self ≡ other → IsTrue result }
    {
        self == other
    }
}
