//! The shape of a table.
ghost use Rattle.std.specs.Prelude.{◌≡◌, ◌≤◌, length, map, IfOk};
ghost use Rattle.sx_ddl.specs.Given.{Gives};
ghost use Rattle.sx_ddl.specs.Items.{found_by, nothing};
ghost use Rattle.sx_ddl.specs.Shapes.{table_of, statement_of, completed, shape_by, shape_of, name_in, alias_of};

use crate::alias::alias_of;
use crate::column::Column;
use crate::items::Items;
use crate::names::name_in;
use crate::options::read_options;
use crate::refused::DdlRefused;
use crate::statement::read_list;
use crate::token::{End, Token};
use crate::tokens::read_tokens;
use std::alloc::{AllocError, Global};

/// The shape of a table.
#[derive(Drop)]
pub struct Shape {
    /// The columns' names in order, without quotes.
    pub names: Vec<Vec<u8>>,
    /// The place among the columns, from 0, of the one that stands for the rowid.
    pub alias: Option<u32>,
    /// Whether the table has rowids.
    pub rowid: bool,
}

/// Reads the text of a table, as the schema table keeps it ("Storage Of The SQL Database Schema").
///
/// The text is `CREATE TABLE`, a name, columns and table constraints between parentheses, then any of `WITHOUT ROWID` and
/// `STRICT` separated by commas, and at most one semicolon. `NotTable` comes where the first two tokens aren't the words
/// CREATE and TABLE; `Generated` at the word that begins a generated column's expression; `Unknown` with the place, in bytes
/// from the start of the text, of the first token that doesn't fit, of a quoted name without an end, or of the text's end.
/// The first of these in the text is answered. `Memory` comes where memory runs out, and for a text of 4,294,967,296 bytes
/// or more.
///
/// The cost is that of the text's bytes, and a logarithm of the number of keys for each column of the type INTEGER.
pub fn read_table(alloc: Global, sql: &[u8]) -> Result<Shape, DdlRefused>
    ensures { Gives (table_of sql.now) result (λ shape. shape_by shape) }
{
    if sql.len() > u32::MAX as usize {
        return Err(DdlRefused::Memory);
    }
    match read_tokens(alloc, sql) {
        Ok(read) => read_statement(alloc, sql, read.tokens.as_slice(), read.end),
        Err(_) => Err(DdlRefused::Memory),
    }
}

/// Reads the text of a table from its tokens.
fn read_statement(
    alloc: Global,
    text: &[u8],
    tokens: &[Token],
    end: End,
) -> Result<Shape, DdlRefused>
    ensures { Gives (statement_of text.now (record { tokens = tokens.now; end = end })) result (λ shape. shape_by shape) }
{
    let mut items = Items::new(alloc);
    match read_list(&mut items, tokens, end) {
        Ok(rest) => complete(alloc, text, &items, end, rest),
        Err(refused) => Err(refused),
    }
}

/// Completes the shape by the tokens behind the list.
#[tactic(auto, unfolding(crate::specs::Shapes::completed))]
fn complete(
    alloc: Global,
    text: &[u8],
    items: &Items,
    end: End,
    rest: &[Token],
) -> Result<Shape, DdlRefused>
    ensures { Gives (completed text.now end (record { found = found_by items.now; rest = rest.now })) result (λ shape. shape_by shape) }
{
    match read_options(end, rest) {
        Ok(rowid) => match shape_of(alloc, text, items, rowid) {
            Ok(shape) => Ok(shape),
            Err(_) => Err(DdlRefused::Memory),
        },
        Err(refused) => Err(refused),
    }
}

/// The shape of a table with these items.
fn shape_of(alloc: Global, text: &[u8], items: &Items, rowid: bool) -> Result<Shape, AllocError>
    ensures { IfOk result (λ shape. shape_by shape ≡ shape_of text.now (found_by items.now) rowid) }
{
    let names = names_of(alloc, text, items.columns.as_slice())?;
    let alias = alias_of(alloc, text, items, rowid)?;
    Ok(Shape {
        names,
        alias,
        rowid,
    })
}

/// The columns' names.
fn names_of(alloc: Global, text: &[u8], columns: &[Column]) -> Result<Vec<Vec<u8>>, AllocError>
    ensures { IfOk result (λ names. map (λ name. name.items) names.items ≡ map (λ column. name_in text.now column.name) columns.now) }
{
    let mut names = Vec::new(alloc);
    for column in columns {
        let name = name_in(alloc, text, column.name)?;
        names.push(name)?;
    }
    Ok(names)
}
