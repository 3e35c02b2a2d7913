//! The words that shape the text of a table.
ghost use Rattle.std.specs.Prelude.{◌≡◌, ◌↔◌, map, bytes_eq, IsTrue};
ghost use Rattle.sx_ddl.specs.Keywords.{is_spelled, keyword_of};

/// What a word means in the text of a table, whatever the case of its ASCII letters.
#[derive(Clone, Copy, Debug, PartialEq, Eq)]
pub enum Keyword {
    As,
    Check,
    Collate,
    Constraint,
    Create,
    Default,
    Desc,
    Foreign,
    Generated,
    Integer,
    Key,
    Not,
    Null,
    Primary,
    References,
    Rowid,
    Strict,
    Table,
    Unique,
    Without,
    /// A word without a meaning of its own.
    Other,
}

/// What a word means.
#[tactic(auto, unfolding(crate::specs::Keywords::keyword_of))]
pub(crate) fn keyword_of(word: &[u8]) -> Keyword
    ensures { result ≡ keyword_of word.now }
{
    if is_spelled(word, b"as") {
        Keyword::As
    } else if is_spelled(word, b"check") {
        Keyword::Check
    } else if is_spelled(word, b"collate") {
        Keyword::Collate
    } else if is_spelled(word, b"constraint") {
        Keyword::Constraint
    } else if is_spelled(word, b"create") {
        Keyword::Create
    } else if is_spelled(word, b"default") {
        Keyword::Default
    } else if is_spelled(word, b"desc") {
        Keyword::Desc
    } else if is_spelled(word, b"foreign") {
        Keyword::Foreign
    } else if is_spelled(word, b"generated") {
        Keyword::Generated
    } else if is_spelled(word, b"integer") {
        Keyword::Integer
    } else if is_spelled(word, b"key") {
        Keyword::Key
    } else if is_spelled(word, b"not") {
        Keyword::Not
    } else if is_spelled(word, b"null") {
        Keyword::Null
    } else if is_spelled(word, b"primary") {
        Keyword::Primary
    } else if is_spelled(word, b"references") {
        Keyword::References
    } else if is_spelled(word, b"rowid") {
        Keyword::Rowid
    } else if is_spelled(word, b"strict") {
        Keyword::Strict
    } else if is_spelled(word, b"table") {
        Keyword::Table
    } else if is_spelled(word, b"unique") {
        Keyword::Unique
    } else if is_spelled(word, b"without") {
        Keyword::Without
    } else {
        Keyword::Other
    }
}

/// Whether a word is spelled so, whatever the case of its ASCII letters.
#[tactic(auto, unfolding(crate::specs::Keywords::is_spelled))]
fn is_spelled(word: &[u8], name: &[u8]) -> bool
    ensures { result ≡ is_spelled word.now name.now }
{
    word.eq_ignore_ascii_case(name)
}
