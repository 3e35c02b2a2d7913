//! The line of a row.
ghost use Rattle.std.specs.Prelude.{◌≡◌, ◌++◌, ◌∷◌, [], length, map, OnOk, string_bytes};
ghost use Rattle.std.specs.Option.{option_map};
ghost use Rattle.sx_record.specs.Content.{content_of};
ghost use Rattle.sx_show_text.specs.Given.{columns_by};
ghost use Rattle.sx_lines.specs.Lines.{ended};
ghost use Rattle.sx_show_text.specs.Columns.{alias_in, alias_text, column_text, is_alias, is_null, missing_text, names_in, row_line, rowid_text, values_text};

use crate::columns::Columns;
use std::alloc::AllocError;
use sx_bytes::Encoding;
use sx_record::{Fields, Value, put_value};

/// Puts the line of a row into `line`: its rowid, its values, and a mark for each column that it doesn't have.
#[tactic(auto, unfolding(crate::specs::Columns::row_line))]
pub fn put_row_line(
    rowid: Option<i64>,
    columns: &Fields<'_>,
    shape: &Option<Columns>,
    encoding: Encoding,
    line: &mut String,
) -> Result<(), AllocError>
    ensures { OnOk result (string_bytes line.new ≡ ended (row_line encoding (option_map columns_by shape.now) rowid columns.now)) }
{
    line.clear();
    line.push_str("row ")?;
    put_rowid(rowid, line)?;
    put_values(rowid, alias_in(shape), columns, encoding, line)?;
    put_missing(shape, columns.columns(), line)?;
    line.push('\n')
}

/// The place of the column that stands for the rowid.
fn alias_in(shape: &Option<Columns>) -> Option<u32>
    ensures { result ≡ alias_in (option_map columns_by shape.now) }
{
    match shape {
        Some(shape) => shape.alias,
        None => None,
    }
}

/// Puts the rowid at the head of a row behind what `line` holds.
fn put_rowid(rowid: Option<i64>, line: &mut String) -> Result<(), AllocError>
    ensures { OnOk result (string_bytes line.new ≡ string_bytes line.old ++ rowid_text rowid) }
{
    match rowid {
        Some(rowid) => write!(line, "{rowid}"),
        None => line.push('-'),
    }
}

/// Puts the values of a row behind what `line` holds.
#[tactic(auto, using(crate::proofs::Written::values_more, crate::proofs::Written::values_end))]
fn put_values(
    rowid: Option<i64>,
    alias: Option<u32>,
    columns: &Fields<'_>,
    encoding: Encoding,
    line: &mut String,
) -> Result<(), AllocError>
    ensures { OnOk result (string_bytes line.new ≡ string_bytes line.old ++ values_text encoding rowid alias 0 columns.now) }
{
    let _count = columns.columns();
    let mut values = columns.values();
    let mut place: u32 = 0;
    while let Some(value) = values.next() {
        let for_rowid = is_alias(alias, place);
        put_column(rowid, for_rowid, value, encoding, line)?;
        place += 1;
    }
    Ok(())
}

/// Whether the column at a place is the one that stands for the rowid.
fn is_alias(alias: Option<u32>, place: u32) -> bool
    ensures { result ≡ is_alias alias place }
{
    match alias {
        Some(alias) => alias == place,
        None => false,
    }
}

/// Puts a value behind what `line` holds: where NULL stands in the column for the rowid, the rowid.
#[tactic(auto, unfolding(crate::specs::Columns::column_text))]
fn put_column(
    rowid: Option<i64>,
    for_rowid: bool,
    value: Value<'_>,
    encoding: Encoding,
    line: &mut String,
) -> Result<(), AllocError>
    ensures { OnOk result (string_bytes line.new ≡ string_bytes line.old ++ 32 ∷ column_text encoding rowid for_rowid (content_of value.entry)) }
{
    line.push(' ')?;
    if for_rowid && is_null(&value) {
        put_alias(rowid, line)
    } else {
        put_value(line, value, encoding)
    }
}

/// Whether a value is NULL.
fn is_null(value: &Value<'_>) -> bool
    ensures { result ≡ is_null (content_of value.now) }
{
    match value {
        Value::Null => true,
        _ => false,
    }
}

/// Puts the rowid in place of a value behind what `line` holds.
fn put_alias(rowid: Option<i64>, line: &mut String) -> Result<(), AllocError>
    ensures { OnOk result (string_bytes line.new ≡ string_bytes line.old ++ alias_text rowid) }
{
    match rowid {
        Some(rowid) => write!(line, "{rowid}"),
        None => line.push_str("NULL"),
    }
}

/// Puts a mark for each column behind so many behind what `line` holds.
#[tactic(auto, using(crate::proofs::Names::none_missing))]
fn put_missing(shape: &Option<Columns>, count: u32, line: &mut String) -> Result<(), AllocError>
    ensures { OnOk result (string_bytes line.new ≡ string_bytes line.old ++ missing_text (names_in (option_map columns_by shape.now)) count) }
{
    match shape {
        Some(shape) => put_marks(shape.names.as_slice(), count, line),
        None => Ok(()),
    }
}

/// Puts a mark for each name behind so many behind what `line` holds.
#[tactic(auto, using(crate::proofs::Names::marks_more, crate::proofs::Names::marks_end))]
fn put_marks(names: &[Vec<u8>], count: u32, line: &mut String) -> Result<(), AllocError>
    ensures { OnOk result (string_bytes line.new ≡ string_bytes line.old ++ missing_text (map (λ name. name.items) names.now) count) }
{
    for _place in count as usize..names.len() {
        line.push_str(" -")?;
    }
    Ok(())
}
