//! An entry of the schema.
ghost use Rattle.std.specs.Prelude.{◌≡◌, [], unwrap_or, IfOk};
ghost use Rattle.std.specs.Option.{option_map};
ghost use Rattle.sx_record.specs.Content.{content_of};
ghost use Rattle.sx_schema.specs.Entries.{entry_of, integer_in, says_table, text_in};
ghost use Rattle.sx_schema.specs.GivenEntries.{entry_by};

use std::alloc::{AllocError, Global};
use sx_bytes::{Encoding, decode, decodes_to};
use sx_record::{Value, Values};

/// An entry of the schema: a table, an index, a view or a trigger ("Storage Of The SQL Database Schema").
#[derive(Drop)]
pub struct Entry {
    /// Whether its type is the text `table`.
    pub is_table: bool,
    /// Its name in UTF-8: empty where it isn't a text that decodes.
    pub name: Vec<u8>,
    /// The root of its tree, where that is an integer: any one that the evidence has.
    pub root: Option<i64>,
    /// Its text in UTF-8, where it is a text that decodes.
    pub sql: Option<Vec<u8>>,
}

/// The entry that columns make: none where there are fewer than five.
#[tactic(auto, unfolding(crate::specs::Entries::entry_of))]
pub(crate) fn entry_of(
    alloc: Global,
    mut columns: Values<'_>,
    encoding: Encoding,
) -> Result<Option<Entry>, AllocError>
    ensures { IfOk result (λ entry. option_map entry_by entry ≡ entry_of encoding columns.entry) }
{
    let Some(kind) = columns.next() else {
        return Ok(None);
    };
    let Some(name) = columns.next() else {
        return Ok(None);
    };
    let Some(_table) = columns.next() else {
        return Ok(None);
    };
    let Some(root) = columns.next() else {
        return Ok(None);
    };
    let Some(sql) = columns.next() else {
        return Ok(None);
    };
    Ok(Some(make_entry(alloc, encoding, kind, name, root, sql)?))
}

/// The entry that four columns make.
fn make_entry(
    alloc: Global,
    encoding: Encoding,
    kind: Value<'_>,
    name: Value<'_>,
    root: Value<'_>,
    sql: Value<'_>,
) -> Result<Entry, AllocError>
    ensures { IfOk result (λ entry. entry_by entry ≡ record { is_table = says_table (text_in encoding (content_of kind.entry)); name = unwrap_or (text_in encoding (content_of name.entry)) []; root = integer_in (content_of root.entry); sql = text_in encoding (content_of sql.entry) }) }
{
    let name = name_of(alloc, name, encoding)?;
    let sql = text_of(alloc, sql, encoding)?;
    Ok(Entry {
        is_table: says_table(kind, encoding),
        name,
        root: integer_of(root),
        sql,
    })
}

/// The text of a column decoded, and no bytes where it isn't a text that decodes.
fn name_of(alloc: Global, value: Value<'_>, encoding: Encoding) -> Result<Vec<u8>, AllocError>
    ensures { IfOk result (λ name. name.items ≡ unwrap_or (text_in encoding (content_of value.entry)) []) }
{
    match text_of(alloc, value, encoding)? {
        Some(name) => Ok(name),
        None => Ok(Vec::new(alloc)),
    }
}

/// The text of a column decoded, where it is a text that decodes.
fn text_of(
    alloc: Global,
    value: Value<'_>,
    encoding: Encoding,
) -> Result<Option<Vec<u8>>, AllocError>
    ensures { IfOk result (λ found. option_map (λ found. found.items) found ≡ text_in encoding (content_of value.entry)) }
{
    let Value::Text(bytes) = value else {
        return Ok(None);
    };
    match decode(alloc, bytes, encoding)? {
        Some(decoded) => Ok(Some(decoded)),
        None => Ok(None),
    }
}

/// The integer of a column.
fn integer_of(value: Value<'_>) -> Option<i64>
    ensures { result ≡ integer_in (content_of value.entry) }
{
    match value {
        Value::Int(number) => Some(number),
        _ => None,
    }
}

/// Whether a column is the text `table`.
#[tactic(auto, using(crate::proofs::Words::says_if))]
fn says_table(value: Value<'_>, encoding: Encoding) -> bool
    ensures { result ≡ says_table (text_in encoding (content_of value.entry)) }
{
    match value {
        Value::Text(bytes) => decodes_to(bytes, encoding, b"table"),
        _ => false,
    }
}
