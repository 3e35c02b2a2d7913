//! A row of a tree.
ghost use Rattle.std.specs.Prelude.{◌≡◌, ◌^◌, ◌<◌, ◌≤◌, List, length, option_copied, IfOk, IfSome, Ok, Some};
ghost use Rattle.sx_cell.specs.Cells.{WasRead};
ghost use Rattle.sx_row.specs.Lengths.{AreLengths};
ghost use Rattle.sx_row.specs.Rows.{columns_of, cell_row, node_row, row_of};
ghost use Rattle.sx_row.specs.Given.{content_of, row_by};

use crate::lengths::ChainLengths;
use crate::payload::row_payload;
use std::alloc::AllocError;
use sx_base::Pages;
use sx_cell::Cell;
use sx_node::{Node, read_node};
use sx_record::{Fields, RecordFault, read_types};

/// Why the columns of a row can't be shown: the first that applies, in the order of the variants.
#[derive(Clone, Copy, Debug, PartialEq, Eq)]
pub enum RowFault {
    /// An overflow page that the payload needs isn't there, or it needs more than are held.
    ShortChain,
    /// The size of the record's header isn't whole, is below its own length or past the payload, or a type doesn't end by it.
    HeaderSize,
    /// A type is 10 or 11, which no record has.
    UnusedType,
    /// The header and the bodies aren't exactly the payload.
    BodyLength,
}

/// A row of a tree.
#[derive(Drop)]
pub struct Row<'b> {
    /// The rowid: exactly in a table.
    pub rowid: Option<i64>,
    /// The columns, or the first fault.
    pub columns: Result<Fields<'b>, RowFault>,
}

/// The row in the cell of index `index` of page `number`, over pages with so many usable bytes: from 480 to the page size,
/// which is at most 65536. It is `None` where the page isn't held, is no b-tree page, or has no such cell that can be read.
///
/// The values are borrows of the page where the cell holds the whole payload; else this is joined in `room`, which is used
/// again for the next row. Whether a payload is whole is found once for each page of a chain, whatever cells name it; the
/// lengths were made for these pages. It answers `AllocError` where memory runs out.
#[tactic(auto, unfolding(crate::specs::Rows::row_of))]
pub fn read_row<'b, 'a: 'b, P: Pages<'a>>(
    lengths: &mut ChainLengths,
    room: &'b mut Vec<u8>,
    pages: &P,
    usable: u32,
    number: u32,
    index: u32,
) -> Result<Option<Row<'b>>, AllocError>
    requires least { 480 ≤ usable }
    requires within { usable ≤ P.page_size pages.now }
    requires small { P.page_size pages.now ≤ 65536 }
    requires lengths { AreLengths (P.pages pages.now) (P.view pages.now) lengths.old }
    ensures row { IfOk result (λ row. row_by row ≡ row_of (P.pages pages.now) (P.view pages.now) usable number index) }
    ensures lengths { AreLengths (P.pages pages.now) (P.view pages.now) lengths.new }
{
    let Some(page) = pages.page(number) else {
        return Ok(None);
    };
    match read_node(page, number, usable) {
        Ok(node) => node_row(lengths, room, pages, usable, page, &node, index),
        Err(_) => Ok(None),
    }
}

/// The row in a cell of a b-tree page.
fn node_row<'b, 'a: 'b, P: Pages<'a>>(
    lengths: &mut ChainLengths,
    room: &'b mut Vec<u8>,
    pages: &P,
    usable: u32,
    page: &'a [u8],
    node: &Node<'a>,
    index: u32,
) -> Result<Option<Row<'b>>, AllocError>
    requires least { 480 ≤ usable }
    requires held { usable ≤ length page.now }
    requires within { usable ≤ P.page_size pages.now }
    requires same_page { node.now.page ≡ page.now }
    requires same_usable { node.now.usable ≡ usable }
    requires lengths { AreLengths (P.pages pages.now) (P.view pages.now) lengths.old }
    ensures row { IfOk result (λ row. row_by row ≡ node_row (P.pages pages.now) (P.view pages.now) usable index (Ok node.now)) }
    ensures lengths { AreLengths (P.pages pages.now) (P.view pages.now) lengths.new }
{
    if index >= node.cells() {
        return Ok(None);
    }
    match node.cell(index) {
        Ok(cell) => Ok(Some(cell_row(lengths, room, pages, usable, page, &cell)?)),
        Err(_) => Ok(None),
    }
}

/// The row of a cell that was read from a page.
fn cell_row<'b, 'a: 'b, P: Pages<'a>>(
    lengths: &mut ChainLengths,
    room: &'b mut Vec<u8>,
    pages: &P,
    usable: u32,
    page: &'a [u8],
    cell: &Cell,
) -> Result<Row<'b>, AllocError>
    requires least { 480 ≤ usable }
    requires held { usable ≤ length page.now }
    requires within { usable ≤ P.page_size pages.now }
    requires read { WasRead page.now usable cell.now }
    requires lengths { AreLengths (P.pages pages.now) (P.view pages.now) lengths.old }
    ensures row { IfOk result (λ row. Some (content_of row) ≡ cell_row (P.pages pages.now) (P.view pages.now) usable page.now (Ok cell.now)) }
    ensures lengths { AreLengths (P.pages pages.now) (P.view pages.now) lengths.new }
{
    let payload = row_payload(lengths, room, pages, page, cell, usable)?;
    Ok(Row {
        rowid: cell.rowid,
        columns: columns_of(payload),
    })
}

/// The columns of a payload.
fn columns_of(payload: Option<&[u8]>) -> Result<Fields<'_>, RowFault>
    requires { IfSome payload (λ bytes. length bytes.now < 2 ^ 32) }
    ensures { result ≡ columns_of (option_copied payload.entry) }
{
    let Some(bytes) = payload else {
        return Err(RowFault::ShortChain);
    };
    match read_types(bytes) {
        Ok(columns) => Ok(columns),
        Err(RecordFault::HeaderSize) => Err(RowFault::HeaderSize),
        Err(RecordFault::UnusedType) => Err(RowFault::UnusedType),
        Err(RecordFault::BodyLength) => Err(RowFault::BodyLength),
    }
}
