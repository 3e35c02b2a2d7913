//! What tokens mean in the text of a table.
ghost use Rattle.std.specs.Prelude.{◌≡◌};
ghost use Rattle.sx_ddl.specs.Kinds.{is_mark, opens, closes, separates, ends_statement, is_word, is_name, is_create, is_table, is_integer, is_primary, is_key, is_desc, is_without, is_rowid, is_strict, is_computed, begins_constraint, ends_type};

use crate::keyword::Keyword;
use crate::token::Kind;

/// This byte by itself.
fn is_mark(byte: u8, kind: Kind) -> bool
    ensures { result ≡ is_mark byte kind }
{
    match kind {
        Kind::Mark(mark) => mark == byte,
        Kind::Word(_) | Kind::Quoted => false,
    }
}

/// An opening parenthesis.
pub(crate) fn opens(kind: Kind) -> bool
    ensures { result ≡ opens kind }
{
    is_mark(b'(', kind)
}

/// A closing parenthesis.
pub(crate) fn closes(kind: Kind) -> bool
    ensures { result ≡ closes kind }
{
    is_mark(b')', kind)
}

/// A comma.
pub(crate) fn separates(kind: Kind) -> bool
    ensures { result ≡ separates kind }
{
    is_mark(b',', kind)
}

/// A semicolon.
pub(crate) fn ends_statement(kind: Kind) -> bool
    ensures { result ≡ ends_statement kind }
{
    is_mark(b';', kind)
}

/// A word, whatever it means.
pub(crate) fn is_word(kind: Kind) -> bool
    ensures { result ≡ is_word kind }
{
    match kind {
        Kind::Word(_) => true,
        Kind::Quoted | Kind::Mark(_) => false,
    }
}

/// A name: a word or a quoted name.
pub(crate) fn is_name(kind: Kind) -> bool
    ensures { result ≡ is_name kind }
{
    match kind {
        Kind::Word(_) | Kind::Quoted => true,
        Kind::Mark(_) => false,
    }
}

/// The word CREATE.
pub(crate) fn is_create(kind: Kind) -> bool
    ensures { result ≡ is_create kind }
{
    match kind {
        Kind::Word(Keyword::Create) => true,
        _ => false,
    }
}

/// The word TABLE.
pub(crate) fn is_table(kind: Kind) -> bool
    ensures { result ≡ is_table kind }
{
    match kind {
        Kind::Word(Keyword::Table) => true,
        _ => false,
    }
}

/// The word INTEGER.
pub(crate) fn is_integer(kind: Kind) -> bool
    ensures { result ≡ is_integer kind }
{
    match kind {
        Kind::Word(Keyword::Integer) => true,
        _ => false,
    }
}

/// The word PRIMARY.
pub(crate) fn is_primary(kind: Kind) -> bool
    ensures { result ≡ is_primary kind }
{
    match kind {
        Kind::Word(Keyword::Primary) => true,
        _ => false,
    }
}

/// The word KEY.
pub(crate) fn is_key(kind: Kind) -> bool
    ensures { result ≡ is_key kind }
{
    match kind {
        Kind::Word(Keyword::Key) => true,
        _ => false,
    }
}

/// The word DESC.
pub(crate) fn is_desc(kind: Kind) -> bool
    ensures { result ≡ is_desc kind }
{
    match kind {
        Kind::Word(Keyword::Desc) => true,
        _ => false,
    }
}

/// The word WITHOUT.
pub(crate) fn is_without(kind: Kind) -> bool
    ensures { result ≡ is_without kind }
{
    match kind {
        Kind::Word(Keyword::Without) => true,
        _ => false,
    }
}

/// The word ROWID.
pub(crate) fn is_rowid(kind: Kind) -> bool
    ensures { result ≡ is_rowid kind }
{
    match kind {
        Kind::Word(Keyword::Rowid) => true,
        _ => false,
    }
}

/// The word STRICT.
pub(crate) fn is_strict(kind: Kind) -> bool
    ensures { result ≡ is_strict kind }
{
    match kind {
        Kind::Word(Keyword::Strict) => true,
        _ => false,
    }
}

/// A word that begins the expression of a generated column.
pub(crate) fn is_computed(kind: Kind) -> bool
    ensures { result ≡ is_computed kind }
{
    match kind {
        Kind::Word(Keyword::Generated | Keyword::As) => true,
        _ => false,
    }
}

/// A word that begins a table constraint.
pub(crate) fn begins_constraint(kind: Kind) -> bool
    ensures { result ≡ begins_constraint kind }
{
    match kind {
        Kind::Word(
            Keyword::Constraint
            | Keyword::Primary
            | Keyword::Unique
            | Keyword::Check
            | Keyword::Foreign,
        ) => true,
        _ => false,
    }
}

/// A word that begins a constraint of a column, behind its type.
pub(crate) fn ends_type(kind: Kind) -> bool
    ensures { result ≡ ends_type kind }
{
    match kind {
        Kind::Word(
            Keyword::Constraint
            | Keyword::Primary
            | Keyword::Not
            | Keyword::Null
            | Keyword::Unique
            | Keyword::Check
            | Keyword::Default
            | Keyword::Collate
            | Keyword::References
            | Keyword::Generated
            | Keyword::As,
        ) => true,
        _ => false,
    }
}
