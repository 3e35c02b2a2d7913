//! The schema of a moment, row by row.
ghost use Rattle.std.specs.Prelude.{◌≡◌, ◌++◌, ◌^◌, ◌<◌, ◌≤◌, List, length, IfOk, OnOk};
ghost use Rattle.std.specs.Option.{option_map, option_to_list};
ghost use Rattle.sx_row.specs.Lengths.{AreLengths};
ghost use Rattle.sx_row.specs.Given.{content_of};
ghost use Rattle.sx_schema.specs.Entries.{item_entry, read_entry, schema_of};
ghost use Rattle.sx_schema.specs.GivenEntries.{all_by, entry_by};
ghost use Rattle.sx_schema.specs.Given.{entries_by};

use crate::entry::{Entry, entry_of};
use crate::listing::Schema;
use std::alloc::{AllocError, Global};
use sx_base::Pages;
use sx_bytes::Encoding;
use sx_row::{ChainLengths, Row, read_row};
use sx_tree::{RowItem, Rows};

/// The schema of the moment that has these pages, with so many usable bytes: from 480 to the page size, which is at most
/// 65536. Texts are decoded by the encoding of the moment ("Storage Of The SQL Database Schema").
///
/// An entry is a row of the tree at page 1 whose payload is whole and whose record reads and has five columns at least. It
/// answers `AllocError` where memory runs out, and nothing else. Time and memory go with the pages of that tree, its cells
/// and the payloads of its rows, as often as rows name these.
pub fn schema<'a, P: Pages<'a>>(
    alloc: Global,
    pages: &P,
    usable: u32,
    encoding: Encoding,
) -> Result<Schema, AllocError>
    requires least { 480 ≤ usable }
    requires within { usable ≤ P.page_size pages.now }
    requires small { P.page_size pages.now ≤ 65536 }
    ensures { IfOk result (λ schema. entries_by schema ≡ schema_of (P.pages pages.now) (P.view pages.now) usable encoding) }
{
    let entries = entries_of(alloc, pages, usable, encoding)?;
    Schema::of(alloc, entries)
}

/// The entries of the schema, in the order of the rows.
#[tactic(auto, unfolding(crate::specs::Entries::schema_of))]
fn entries_of<'a, P: Pages<'a>>(
    alloc: Global,
    pages: &P,
    usable: u32,
    encoding: Encoding,
) -> Result<Vec<Entry>, AllocError>
    requires least { 480 ≤ usable }
    requires within { usable ≤ P.page_size pages.now }
    requires small { P.page_size pages.now ≤ 65536 }
    ensures entries { IfOk result (λ entries. all_by entries.items ≡ schema_of (P.pages pages.now) (P.view pages.now) usable encoding) }
    ensures few { IfOk result (λ entries. length entries.items < 2 ^ 32) }
{
    let mut rows = Rows::start(alloc, pages, usable, 1)?;
    let mut lengths = ChainLengths::new(alloc, pages);
    let mut room = Vec::new(alloc);
    let mut entries = Vec::new(alloc);
    while let Some(item) = rows.next() {
        let entry = item_entry(
            alloc,
            &mut lengths,
            &mut room,
            pages,
            usable,
            encoding,
            item,
        )?;
        add_entry(&mut entries, entry)?;
    }
    Ok(entries)
}

/// Adds an entry, if there is one. There are fewer than 4,294,967,296.
fn add_entry(entries: &mut Vec<Entry>, entry: Option<Entry>) -> Result<(), AllocError>
    requires { length entries.old.items < 2 ^ 32 }
    ensures added { OnOk result (all_by entries.new.items ≡ all_by entries.old.items ++ option_to_list (option_map entry_by entry)) }
    ensures few { OnOk result (length entries.new.items < 2 ^ 32) }
{
    let Some(entry) = entry else {
        return Ok(());
    };
    if entries.len() >= u32::MAX as usize {
        return Err(AllocError);
    }
    entries.push(entry)?;
    Ok(())
}

/// The entry of an item of the tree, if it is one.
fn item_entry<'a, P: Pages<'a>>(
    alloc: Global,
    lengths: &mut ChainLengths,
    room: &mut Vec<u8>,
    pages: &P,
    usable: u32,
    encoding: Encoding,
    item: RowItem,
) -> Result<Option<Entry>, AllocError>
    requires least { 480 ≤ usable }
    requires within { usable ≤ P.page_size pages.now }
    requires small { P.page_size pages.now ≤ 65536 }
    requires lengths { AreLengths (P.pages pages.now) (P.view pages.now) lengths.old }
    ensures entry { IfOk result (λ entry. option_map entry_by entry ≡ item_entry (P.pages pages.now) (P.view pages.now) usable encoding item) }
    ensures lengths { AreLengths (P.pages pages.now) (P.view pages.now) lengths.new }
{
    let RowItem::Row { page, cell } = item else {
        return Ok(None);
    };
    match read_row(lengths, room, pages, usable, page, cell)? {
        Some(row) => row_entry(alloc, &row, encoding),
        None => Ok(None),
    }
}

/// The entry of a row, if it is one.
fn row_entry(alloc: Global, row: &Row<'_>, encoding: Encoding) -> Result<Option<Entry>, AllocError>
    ensures { IfOk result (λ entry. option_map entry_by entry ≡ read_entry encoding (content_of row.now).columns) }
{
    match &row.columns {
        Ok(columns) => entry_of(alloc, columns.values(), encoding),
        Err(_) => Ok(None),
    }
}
