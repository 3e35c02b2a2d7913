//! What `page` prints of a page that is read as one of a b-tree.
ghost use Rattle.std.specs.Prelude.{◌≡◌, ℕ, ◌+◌, ◌^◌, ◌<◌, ◌++◌, length, codes, Ok, OnOk, string_bytes};
ghost use Rattle.std.specs.Fmt.{decimal};
ghost use Rattle.sx_node.specs.Nodes.{cell_count};
ghost use Rattle.sx_node.specs.Freeblocks.{freeblocks_of};
ghost use Rattle.sx_lines.specs.Lines.{ended};
ghost use Rattle.sx_page_text.specs.NodeText.{kind_name, node_fault_line, header_text, header_line, child_text, payload_text, key_text, overflow_text, cell_text, cell_line, block_line};

use std::alloc::AllocError;
use sx_base::Span;
use sx_cell::{Cell, CellFault, Kind};
use sx_node::{Node, NodeFault};

/// The next line of a b-tree page.
#[derive(Clone, Copy)]
pub enum NodeLine {
    /// Its header.
    Header,
    /// The cell of this index, or where there is none what stands behind the cells.
    Cell(u32),
    /// The freeblock of this number.
    Freeblock(u32),
}

// The name of a kind of page.
fn kind_name(kind: Kind) -> &'static str
    ensures { result.now ≡ kind_name kind }
{
    match kind {
        Kind::TableLeaf => "leaftable",
        Kind::TableInner => "innertable",
        Kind::IndexLeaf => "leafindex",
        Kind::IndexInner => "innerindex",
    }
}

/// Puts the line of bytes that are no b-tree page into `line`.
pub fn put_fault_line(fault: NodeFault, line: &mut String) -> Result<(), AllocError>
    ensures { OnOk result (string_bytes line.new ≡ ended (node_fault_line fault)) }
{
    line.clear();
    match fault {
        NodeFault::BadFlag => line.push_str("node badflag\n"),
        NodeFault::BadArray => line.push_str("node badarray\n"),
    }
}

/// Puts the line of a page's header into `line`.
pub fn put_header_line(node: &Node<'_>, line: &mut String) -> Result<(), AllocError>
    ensures { OnOk result (string_bytes line.new ≡ ended (header_line node.now)) }
{
    let name = kind_name(node.kind());
    let cells = node.cells();
    let freeblock = node.first_freeblock();
    put_header_text(
        name,
        cells,
        freeblock,
        node.content(),
        node.fragments(),
        line,
    )
}

// Puts the line of a header of these numbers into `line`.
fn put_header_text(
    kind: &str,
    cells: u32,
    freeblock: u32,
    content: u32,
    fragments: u32,
    line: &mut String,
) -> Result<(), AllocError>
    ensures { OnOk result (string_bytes line.new ≡ ended (header_text kind.now cells freeblock content fragments)) }
{
    line.clear();
    writeln!(
        line,
        "node {kind} cells {cells} freeblock {freeblock} content {content} fragments {fragments}"
    )
}

// Puts the child of a cell behind what `line` holds.
fn put_child(child: Option<u32>, line: &mut String) -> Result<(), AllocError>
    ensures { OnOk result (string_bytes line.new ≡ string_bytes line.old ++ child_text child) }
{
    match child {
        Some(page) => write!(line, " child {page}"),
        None => Ok(()),
    }
}

// Puts the length of a cell's payload behind what `line` holds.
fn put_payload(kind: Kind, payload: u64, line: &mut String) -> Result<(), AllocError>
    ensures { OnOk result (string_bytes line.new ≡ string_bytes line.old ++ payload_text kind payload) }
{
    match kind {
        Kind::TableInner => Ok(()),
        _ => write!(line, " payload {payload}"),
    }
}

// Puts the rowid or the key of a cell behind what `line` holds.
fn put_key(kind: Kind, key: Option<i64>, line: &mut String) -> Result<(), AllocError>
    ensures { OnOk result (string_bytes line.new ≡ string_bytes line.old ++ key_text kind key) }
{
    match (kind, key) {
        (Kind::TableLeaf, Some(rowid)) => write!(line, " rowid {rowid}"),
        (Kind::TableInner, Some(key)) => write!(line, " key {key}"),
        _ => Ok(()),
    }
}

// Puts the first overflow page of a cell behind what `line` holds.
fn put_overflow(overflow: Option<u32>, line: &mut String) -> Result<(), AllocError>
    ensures { OnOk result (string_bytes line.new ≡ string_bytes line.old ++ overflow_text overflow) }
{
    match overflow {
        Some(page) => write!(line, " overflow {page}"),
        None => Ok(()),
    }
}

// Puts what is printed of a cell behind its place.
fn put_cell(kind: Kind, cell: &Cell, line: &mut String) -> Result<(), AllocError>
    ensures { OnOk result (string_bytes line.new ≡ string_bytes line.old ++ cell_text kind (Ok cell.now)) }
{
    let len = cell.len;
    write!(line, " bytes {len}")?;
    put_child(cell.child, line)?;
    put_payload(kind, cell.payload, line)?;
    put_key(kind, cell.rowid, line)?;
    put_overflow(cell.overflow, line)
}

// Puts what is printed of a cell, or of its fault, behind its place.
fn put_cell_text(
    kind: Kind,
    cell: &Result<Cell, CellFault>,
    line: &mut String,
) -> Result<(), AllocError>
    ensures { OnOk result (string_bytes line.new ≡ string_bytes line.old ++ cell_text kind cell.now) }
{
    match cell {
        Ok(cell) => put_cell(kind, cell, line),
        Err(CellFault::Outside) => line.push_str(" outside"),
        Err(CellFault::TooLong) => line.push_str(" toolong"),
    }
}

/// Puts the line of the cell of an index, below the number of cells, into `line`.
#[tactic(auto, unfolding(crate::specs::NodeText::cell_line))]
pub fn put_cell_line(node: &Node<'_>, index: u32, line: &mut String) -> Result<(), AllocError>
    requires { index < cell_count node.now }
    ensures { OnOk result (string_bytes line.new ≡ ended (cell_line node.now index)) }
{
    let at = node.pointer(index);
    line.clear();
    write!(line, "cell {index} at {at}")?;
    put_cell_text(node.kind(), &node.cell(index), line)?;
    line.push('\n')
}

/// Puts the line of a right-most child into `line`.
pub fn put_right_line(page: u32, line: &mut String) -> Result<(), AllocError>
    ensures { OnOk result (string_bytes line.new ≡ ended (codes "right " ++ decimal page)) }
{
    line.clear();
    writeln!(line, "right {page}")
}

/// Puts the line of a freeblock into `line`.
#[tactic(auto, unfolding(crate::specs::NodeText::block_line))]
pub fn put_block_line(number: u32, block: Span, line: &mut String) -> Result<(), AllocError>
    ensures { OnOk result (string_bytes line.new ≡ ended (block_line number block)) }
{
    let at = block.start;
    let len = block.len;
    line.clear();
    writeln!(line, "freeblock {number} at {at} bytes {len}")
}
