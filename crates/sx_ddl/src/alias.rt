//! The column that stands for the rowid.
ghost use Rattle.std.specs.Prelude.{◌≡◌, ◌&&◌, ◌||◌, IfOk, List, ℕ};
ghost use Rattle.std.specs.List.{list_any, position_from};
ghost use Rattle.sx_ddl.specs.Keywords.{lowered};
ghost use Rattle.sx_ddl.specs.Items.{found_by};
ghost use Rattle.sx_ddl.specs.Sets.{contains_name};
ghost use Rattle.sx_ddl.specs.Shapes.{alias_of, is_alias, name_in, spells};

use crate::column::Column;
use crate::items::Items;
use crate::names::lowered_name;
use crate::token::Token;
use std::alloc::{AllocError, Global};
use std::collections::BTreeSet;

/// The place of the column that stands for the rowid, where the table has rowids.
#[tactic(auto, unfolding(crate::specs::Shapes::alias_of))]
pub(crate) fn alias_of(
    alloc: Global,
    text: &[u8],
    items: &Items,
    rowid: bool,
) -> Result<Option<u32>, AllocError>
    ensures { IfOk result (λ alias. alias ≡ alias_of text.now (found_by items.now) rowid) }
{
    if !rowid {
        return Ok(None);
    }
    let keys = key_names(alloc, text, items.keys.as_slice())?;
    first_alias(alloc, text, items, &keys)
}

/// The place of the first column that stands for the rowid.
fn first_alias(
    alloc: Global,
    text: &[u8],
    items: &Items,
    keys: &BTreeSet<Vec<u8>>,
) -> Result<Option<u32>, AllocError>
    requires { (name : List ℕ) → contains_name keys.now name ≡ list_any (spells text.now name) items.now.keys.items }
    ensures { IfOk result (λ alias. alias ≡ position_from (is_alias text.now items.now.keys.items) 0 items.now.columns.items) }
{
    for place in 0..items.columns.len() {
        if is_alias(alloc, text, items, keys, items.columns[place])? {
            return match u32::try_from(place) {
                Ok(place) => Ok(Some(place)),
                Err(_) => Err(AllocError),
            };
        }
    }
    Ok(None)
}

/// Whether a column stands for the rowid.
fn is_alias(
    alloc: Global,
    text: &[u8],
    items: &Items,
    keys: &BTreeSet<Vec<u8>>,
    column: Column,
) -> Result<bool, AllocError>
    requires { (name : List ℕ) → contains_name keys.now name ≡ list_any (spells text.now name) items.now.keys.items }
    ensures { IfOk result (λ alias. alias ≡ is_alias text.now items.now.keys.items column) }
{
    if !column.integer || column.key {
        return Ok(column.integer);
    }
    let name = lowered_name(alloc, text, column.name)?;
    Ok(keys.contains(name.as_slice()))
}

/// The names of keys in lower case, each once, so that looking one up costs a logarithm of their number.
fn key_names(alloc: Global, text: &[u8], keys: &[Token]) -> Result<BTreeSet<Vec<u8>>, AllocError>
    ensures { IfOk result (λ names. (name : List ℕ) → contains_name names name ≡ list_any (spells text.now name) keys.now) }
{
    let mut names = BTreeSet::new(alloc);
    for place in 0..keys.len() {
        let name = lowered_name(alloc, text, keys[place])?;
        names.insert(name)?;
    }
    Ok(names)
}
