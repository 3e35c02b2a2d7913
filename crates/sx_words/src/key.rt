//! The keys of the commands.
ghost use Rattle.std.specs.Prelude.{◌≡◌};
ghost use Rattle.sx_words.specs.Words.{key_name, key_of};

/// A key that a word `key=value` sets.
#[derive(Clone, Copy, Debug, PartialEq, Eq)]
pub enum Key {
    /// The number of a page.
    No,
    /// The name of a table.
    Table,
    /// One of the three files.
    Part,
    /// The offset of a byte in its file.
    Byte,
    /// The rowid of a row.
    Rowid,
    /// The moment of the evidence.
    At,
    /// Whether candidates are completed by their overflow pages.
    Spill,
    /// The number that a drill begins with.
    Seed,
    /// How many leaves a drill's table has.
    Leaves,
    /// How many commits a drill's log has.
    Commits,
}

impl Key {
    /// The key as it is written.
    pub fn name(self) -> &'static str
        ensures { result.now ≡ key_name self }
    {
        match self {
            Key::No => "no",
            Key::Table => "table",
            Key::Part => "part",
            Key::Byte => "byte",
            Key::Rowid => "rowid",
            Key::At => "at",
            Key::Spill => "spill",
            Key::Seed => "seed",
            Key::Leaves => "leaves",
            Key::Commits => "commits",
        }
    }
}

/// What a command wants of a key.
#[derive(Clone, Copy, Debug, PartialEq, Eq)]
pub enum Wanted {
    /// That it is set, once.
    Required(Key),
    /// That it is set at most once.
    Allowed(Key),
}

impl Wanted {
    /// The key.
    pub fn key(self) -> Key
        ensures { result ≡ key_of self }
    {
        match self {
            Wanted::Required(key) | Wanted::Allowed(key) => key,
        }
    }
}
