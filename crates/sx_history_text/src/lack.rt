//! Why a moment has no rows under the name of a table.
ghost use Rattle.std.specs.Prelude.{◌≡◌};
ghost use Rattle.sx_history_text.specs.Histories.{lack_word};

/// Why a moment has no rows under the name of a table.
#[derive(Clone, Copy, Debug, PartialEq, Eq)]
pub enum Lack {
    /// Its page 1 is no header.
    Unreadable,
    /// Its schema has no table of that name.
    NoTable,
    /// The table's root is no page number.
    NoTree,
}

impl Lack {
    /// Its word.
    pub fn word(self) -> &'static str
        ensures { result.now ≡ lack_word self }
    {
        match self {
            Lack::Unreadable => "unreadable",
            Lack::NoTable => "no table",
            Lack::NoTree => "no tree",
        }
    }
}
