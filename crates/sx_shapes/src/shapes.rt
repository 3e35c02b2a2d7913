//! The shapes of a schema.
ghost use Rattle.std.specs.Prelude.{◌≡◌, IfOk, OnOk};
ghost use Rattle.sx_grammar.specs.Choice.{Rises};
ghost use Rattle.sx_schema.specs.Given.{entries_by};
ghost use Rattle.sx_schema.specs.GivenEntries.{all_by, entry_by};
ghost use Rattle.sx_shapes.specs.Shapes.{shapes_of, with_entries, with_entry, entry_shape};

use crate::entry::entry_shape;
use crate::set::add_shape;
use std::alloc::{AllocError, Global};
use sx_grammar::ShapeKey;
use sx_schema::{Entry, Schema};

/// The shapes of the tables of a schema that have rowids and whose text can be read, and of the table that holds the schema:
/// by rising columns, an alias of the rowid first, each once.
///
/// The cost is that of the entries' texts and of a look through the shapes with fewer columns for each entry. It answers
/// `AllocError` where memory runs out.
#[tactic(auto, using(crate::proofs::ShapeLemmas::shapes_rise))]
pub fn table_shapes(alloc: Global, schema: &Schema) -> Result<Vec<ShapeKey>, AllocError>
    ensures shapes { IfOk result (λ shapes. shapes.items ≡ shapes_of (entries_by schema.now)) }
    ensures rise { IfOk result (λ shapes. Rises 1 shapes.items) }
{
    let mut shapes = Vec::new(alloc);
    shapes.push(ShapeKey {
        columns: 5,
        alias: false,
    })?;
    add_entries(alloc, schema.entries(), &mut shapes)?;
    Ok(shapes)
}

/// Adds the shapes of entries.
fn add_entries(
    alloc: Global,
    entries: &[Entry],
    shapes: &mut Vec<ShapeKey>,
) -> Result<(), AllocError>
    ensures { OnOk result (shapes.new.items ≡ with_entries shapes.old.items (all_by entries.now)) }
{
    for place in 0..entries.len() {
        add_entry(alloc, &entries[place], shapes)?;
    }
    Ok(())
}

/// Adds the shape of an entry, where it has one.
fn add_entry(alloc: Global, entry: &Entry, shapes: &mut Vec<ShapeKey>) -> Result<(), AllocError>
    ensures { OnOk result (shapes.new.items ≡ with_entry shapes.old.items (entry_shape (entry_by entry.now))) }
{
    match entry_shape(alloc, entry)? {
        Some(shape) => add_shape(shapes, shape),
        None => Ok(()),
    }
}
