//! The line of an item of a tree.
ghost use Rattle.std.specs.Prelude.{◌≡◌, ◌≤◌, ◌+◌, ◌<◌, ◌^◌, if◌then◌else◌, [], true, map, length, IfOk, OnOk, string_bytes};
ghost use Rattle.std.specs.Option.{option_map};
ghost use Rattle.sx_row.specs.Lengths.{AreLengths};
ghost use Rattle.sx_row.specs.Given.{content_of};
ghost use Rattle.sx_show_text.specs.Given.{columns_by};
ghost use Rattle.sx_lines.specs.Lines.{ended, IsNextLine};
ghost use Rattle.sx_show_text.specs.Items.{cell_fault_line, columns_printed, item_printed, page_fault_line, page_fault_name, row_fault_name, tree_fault_line};
ghost use Rattle.sx_show_text.specs.Show.{last_line};
ghost use Rattle.sx_show_text.specs.Rest.{printed_from};

use crate::columns::Columns;
use crate::show_line::Counts;
use crate::values::put_row_line;
use std::alloc::AllocError;
use sx_base::Pages;
use sx_bytes::Encoding;
use sx_row::{ChainLengths, Row, RowFault, read_row};
use sx_tree::{RowItem, Rows, TreeFault};

/// Puts the next line behind the columns into `line`, and counts what it prints: that of the item which is next on the walk,
/// or the last line where there is none; whether it is that of an item.
pub fn put_next<'a, P: Pages<'a>>(
    pages: &P,
    usable: u32,
    encoding: Encoding,
    shape: &Option<Columns>,
    rows: &mut Rows<'_, 'a, P>,
    lengths: &mut ChainLengths,
    room: &mut Vec<u8>,
    counts: &mut Counts,
    line: &mut String,
) -> Result<bool, AllocError>
    requires least { 480 ≤ usable }
    requires within { usable ≤ P.page_size pages.now }
    requires small { P.page_size pages.now ≤ 65536 }
    requires lengths { AreLengths (P.pages pages.now) (P.view pages.now) lengths.old }
    requires few { counts.old.rows + counts.old.faults + length rows.old < 2 ^ 64 }
    ensures line { IfOk result (λ more. IsNextLine
        (printed_from counts.old.rows counts.old.faults (map (item_printed (P.pages pages.now) (P.view pages.now) usable encoding (option_map columns_by shape.now)) rows.old))
        (if more then printed_from counts.new.rows counts.new.faults (map (item_printed (P.pages pages.now) (P.view pages.now) usable encoding (option_map columns_by shape.now)) rows.new) else [])
        (string_bytes line.new) true) }
    ensures lengths { AreLengths (P.pages pages.now) (P.view pages.now) lengths.new }
    ensures few { counts.new.rows + counts.new.faults + length rows.new < 2 ^ 64 }
{
    let Some(item) = rows.next() else {
        put_last_line(*counts, line)?;
        return Ok(false);
    };
    if put_item(pages, usable, encoding, shape, lengths, room, item, line)? {
        counts.rows += 1;
        Ok(true)
    } else {
        counts.faults += 1;
        Ok(true)
    }
}

/// Puts the last line into `line`.
#[tactic(auto, unfolding(crate::specs::Show::last_line))]
fn put_last_line(counts: Counts, line: &mut String) -> Result<(), AllocError>
    ensures { OnOk result (string_bytes line.new ≡ ended (last_line counts.rows counts.faults)) }
{
    let rows = counts.rows;
    let faults = counts.faults;
    line.clear();
    writeln!(line, "rows {rows} faults {faults}")
}

/// Puts the line of an item of a tree into `line`, in place of what that held, and answers whether it is that of a row.
///
/// The pages have so many usable bytes, from 480 to the page size, which is at most 65536, and their texts are in this
/// encoding. The lengths were made for these pages; a payload that its cell doesn't hold whole is joined in `room`. It answers
/// `AllocError` where memory runs out.
pub fn put_item<'a, P: Pages<'a>>(
    pages: &P,
    usable: u32,
    encoding: Encoding,
    shape: &Option<Columns>,
    lengths: &mut ChainLengths,
    room: &mut Vec<u8>,
    item: RowItem,
    line: &mut String,
) -> Result<bool, AllocError>
    requires least { 480 ≤ usable }
    requires within { usable ≤ P.page_size pages.now }
    requires small { P.page_size pages.now ≤ 65536 }
    requires lengths { AreLengths (P.pages pages.now) (P.view pages.now) lengths.old }
    ensures line { OnOk result (string_bytes line.new ≡ ended (item_printed (P.pages pages.now) (P.view pages.now) usable encoding (option_map columns_by shape.now) item).line) }
    ensures is_row { IfOk result (λ is_row. is_row ≡ (item_printed (P.pages pages.now) (P.view pages.now) usable encoding (option_map columns_by shape.now) item).is_row) }
    ensures lengths { AreLengths (P.pages pages.now) (P.view pages.now) lengths.new }
{
    match item {
        RowItem::Fault { kind, page, cell } => {
            put_tree_fault(kind, page, cell, line)?;
            Ok(false)
        }
        RowItem::Row { page, cell } => match read_row(lengths, room, pages, usable, page, cell)? {
            Some(row) => put_row(&row, page, cell, shape, encoding, line),
            None => {
                put_cell_fault("badcell", page, cell, line)?;
                Ok(false)
            }
        },
    }
}

/// Puts the line of a row, or of its fault, into `line`, and answers whether it is that of a row.
fn put_row(
    row: &Row<'_>,
    page: u32,
    cell: u32,
    shape: &Option<Columns>,
    encoding: Encoding,
    line: &mut String,
) -> Result<bool, AllocError>
    ensures line { OnOk result (string_bytes line.new ≡ ended (columns_printed encoding (option_map columns_by shape.now) page cell (content_of row.now) (content_of row.now).columns).line) }
    ensures is_row { IfOk result (λ is_row. is_row ≡ (columns_printed encoding (option_map columns_by shape.now) page cell (content_of row.now) (content_of row.now).columns).is_row) }
{
    match &row.columns {
        Ok(columns) => {
            put_row_line(row.rowid, columns, shape, encoding, line)?;
            Ok(true)
        }
        Err(fault) => {
            put_cell_fault(row_fault_name(*fault), page, cell, line)?;
            Ok(false)
        }
    }
}

/// The name of a fault of a row.
fn row_fault_name(fault: RowFault) -> &'static str
    ensures { result.now ≡ row_fault_name fault }
{
    match fault {
        RowFault::ShortChain => "shortchain",
        RowFault::HeaderSize => "headersize",
        RowFault::UnusedType => "unusedtype",
        RowFault::BodyLength => "bodylength",
    }
}

/// The name of a fault that was met on the walk.
fn tree_fault_name(fault: TreeFault) -> &'static str
    ensures { result.now ≡ page_fault_name fault }
{
    match fault {
        TreeFault::Absent => "absent",
        TreeFault::DoubleClaim => "doubleclaim",
        TreeFault::BadNode => "badnode",
        TreeFault::BadArray => "badarray",
        TreeFault::OtherKind => "otherkind",
        TreeFault::BadCell => "badcell",
    }
}

/// Puts the line of a fault that was met on the walk into `line`.
fn put_tree_fault(
    kind: TreeFault,
    page: u32,
    cell: u32,
    line: &mut String,
) -> Result<(), AllocError>
    ensures { OnOk result (string_bytes line.new ≡ ended (tree_fault_line kind page cell)) }
{
    match kind {
        TreeFault::BadCell => put_cell_fault("badcell", page, cell, line),
        fault => put_page_fault(tree_fault_name(fault), page, line),
    }
}

/// Puts the line of a fault of a page into `line`.
#[tactic(auto, unfolding(crate::specs::Items::page_fault_line))]
fn put_page_fault(name: &str, page: u32, line: &mut String) -> Result<(), AllocError>
    ensures { OnOk result (string_bytes line.new ≡ ended (page_fault_line name.now page)) }
{
    line.clear();
    writeln!(line, "fault {name} page {page}")
}

/// Puts the line of a fault of a cell into `line`.
#[tactic(auto, unfolding(crate::specs::Items::cell_fault_line))]
fn put_cell_fault(name: &str, page: u32, cell: u32, line: &mut String) -> Result<(), AllocError>
    ensures { OnOk result (string_bytes line.new ≡ ended (cell_fault_line name.now page cell)) }
{
    line.clear();
    writeln!(line, "fault {name} page {page} cell {cell}")
}
