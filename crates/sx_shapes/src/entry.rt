//! The shape of an entry of the schema.
ghost use Rattle.std.specs.Prelude.{◌≡◌, IfOk};
ghost use Rattle.std.specs.Option.{option_map};
ghost use Rattle.sx_schema.specs.GivenEntries.{entry_by};
ghost use Rattle.sx_ddl.specs.Shapes.{shape_by};
ghost use Rattle.sx_shapes.specs.Shapes.{entry_shape, text_shape, rowid_shape, is_first};

use std::alloc::{AllocError, Global};
use sx_ddl::{DdlRefused, Shape, read_table};
use sx_grammar::ShapeKey;
use sx_schema::Entry;

/// The shape of an entry, where it is a table with rowids whose text gives one.
#[tactic(auto, unfolding(crate::specs::Shapes::entry_shape))]
pub fn entry_shape(alloc: Global, entry: &Entry) -> Result<Option<ShapeKey>, AllocError>
    ensures { IfOk result (λ shape. shape ≡ entry_shape (entry_by entry.now)) }
{
    if entry.is_table {
        text_shape(alloc, &entry.sql)
    } else {
        Ok(None)
    }
}

/// The shape that a text gives.
#[tactic(auto, unfolding(crate::specs::Shapes::text_shape))]
fn text_shape(alloc: Global, sql: &Option<Vec<u8>>) -> Result<Option<ShapeKey>, AllocError>
    ensures { IfOk result (λ shape. shape ≡ text_shape (option_map (λ sql. sql.items) sql.now)) }
{
    let Some(sql) = sql else {
        return Ok(None);
    };
    match read_table(alloc, sql.as_slice()) {
        Ok(shape) => rowid_shape(&shape),
        Err(DdlRefused::Memory) => Err(AllocError),
        Err(_) => Ok(None),
    }
}

/// The shape of a table, where it has rowids and a column. More columns than 32 bits can count are want of memory.
fn rowid_shape(shape: &Shape) -> Result<Option<ShapeKey>, AllocError>
    ensures { IfOk result (λ key. key ≡ rowid_shape (shape_by shape.now)) }
{
    let count = shape.names.len();
    if !shape.rowid || count == 0 {
        return Ok(None);
    }
    if count > u32::MAX as usize {
        return Err(AllocError);
    }
    Ok(Some(ShapeKey {
        columns: count as u32,
        alias: is_first(shape.alias),
    }))
}

/// Whether the column that stands for the rowid is the first.
fn is_first(alias: Option<u32>) -> bool
    ensures { result ≡ is_first alias }
{
    match alias {
        Some(place) => place == 0,
        None => false,
    }
}
