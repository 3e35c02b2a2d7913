//! Tokens: words, quoted names and single bytes.
ghost use Rattle.std.specs.Prelude.{◌≡◌};

use crate::keyword::Keyword;

/// What a token is.
#[derive(Clone, Copy, Debug, PartialEq, Eq)]
pub enum Kind {
    /// A word, with its meaning.
    Word(Keyword),
    /// A name between quotes or brackets.
    Quoted,
    /// A byte that is none of the two.
    Mark(u8),
}

/// A token, and where it stands in the text.
#[derive(Clone, Copy, Debug, PartialEq, Eq)]
pub struct Token {
    /// The place of its first byte, from the start of the text.
    pub at: u32,
    /// Its length in bytes, with the quotes.
    pub len: u32,
    /// What it is.
    pub kind: Kind,
}

/// Where the reading of tokens ends.
#[derive(Clone, Copy, Debug, PartialEq, Eq)]
pub struct End {
    /// The place of the first byte of a quoted name without an end, or behind the text.
    pub at: u32,
    /// Whether it is behind the text.
    pub whole: bool,
}
