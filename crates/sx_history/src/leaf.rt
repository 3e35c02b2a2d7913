//! What a leaf page says of a rowid.
ghost use Rattle.std.specs.Prelude.{◌≡◌, ℕ, ◌^◌, ◌<◌, ◌≤◌, length, is_some, option_copied, IsTrue, IfOk, IfSome, Some, Ok};
ghost use Rattle.sx_cell.specs.Cells.{WasRead};
ghost use Rattle.sx_history.specs.Given.{faults_by, items_by};
ghost use Rattle.sx_history.specs.History.{read_fault, row_found, row_faulty};
ghost use Rattle.sx_history.specs.Leaves.{IsLocal, LeafSays, SaySame, leaf_faults, leaf_found, local_row};
ghost use Rattle.sx_cell.specs.Local.{spilled};
ghost use Rattle.sx_node.specs.Nodes.{cell_count, cell_in};
ghost use Rattle.sx_row.specs.Rows.{columns_of};

use crate::found::Found;
use crate::gathering::{Said, said_by};
use crate::listing::History;
use std::alloc::{AllocError, Global};
use sx_cell::{Cell, Kind};
use sx_node::{Node, read_node};
use sx_overflow::as_local;
use sx_record::{RecordFault, read_types};
use sx_row::RowFault;

/// What a leaf says of a rowid: the rows with that rowid and how many of its cells are faults, and of which kind it is.
#[derive(Drop)]
pub(crate) struct LeafSaid {
    kind: Kind,
    history: History,
}

/// Whether by two views page `no` is a leaf of one kind whose cells hold all of their payloads, and says the same of the rowid.
///
/// The cost is that of reading the cells of both. It takes memory for the rows that have the rowid alone, and answers
/// `AllocError` where that runs out.
pub(crate) fn says_same(
    alloc: Global,
    usable: u32,
    no: u32,
    rowid: i64,
    before: &[u8],
    now: &[u8],
) -> Result<bool, AllocError>
    requires least { 480 ≤ usable }
    requires before { (usable ≤ length before.now) × (length before.now ≤ 65536) }
    requires now { (usable ≤ length now.now) × (length now.now ≤ 65536) }
    ensures { IfOk result (λ same. IsTrue same → SaySame usable no rowid before.now now.now) }
{
    let Some(said) = leaf_said(alloc, usable, no, rowid, before)? else {
        return Ok(false);
    };
    match leaf_said(alloc, usable, no, rowid, now)? {
        Some(says) => Ok(same(&said, &says)),
        None => Ok(false),
    }
}

/// Whether two leaves of one kind say the same.
fn same(said: &LeafSaid, says: &LeafSaid) -> bool
    ensures { IsTrue result → (said.now.kind ≡ says.now.kind) × (items_by said.now.history ≡ items_by says.now.history) × (faults_by said.now.history ≡ faults_by says.now.history) }
{
    said.kind == says.kind
        && said.history.faults() == says.history.faults()
        && same_rows(said.history.items(), says.history.items())
}

/// Whether two lists of rows are the same.
fn same_rows(some: &[Found], others: &[Found]) -> bool
    ensures { IsTrue result → some.now ≡ others.now }
{
    if some.len() != others.len() {
        return false;
    }
    for place in 0..some.len() {
        if !same_row(&some[place], &others[place]) {
            return false;
        }
    }
    true
}

/// Whether two rows are the same.
fn same_row(one: &Found, other: &Found) -> bool
    ensures { IsTrue result → one.now ≡ other.now }
{
    one == other
}

/// What a page says of a rowid, if it is a leaf whose cells hold all of their payloads.
fn leaf_said(
    alloc: Global,
    usable: u32,
    no: u32,
    rowid: i64,
    page: &[u8],
) -> Result<Option<LeafSaid>, AllocError>
    requires least { 480 ≤ usable }
    requires within { usable ≤ length page.now }
    requires small { length page.now ≤ 65536 }
    ensures { IfOk result (λ said. IfSome said (λ leaf. LeafSays usable no rowid page.now leaf.kind (items_by leaf.history) (faults_by leaf.history))) }
{
    let Ok(node) = read_node(page, no, usable) else {
        return Ok(None);
    };
    if node.kind().has_child() {
        return Ok(None);
    }
    match cells_said(alloc, usable, no, rowid, page, &node)? {
        Some(history) => Ok(Some(LeafSaid {
            kind: node.kind(),
            history,
        })),
        None => Ok(None),
    }
}

/// What the cells of a leaf say of a rowid, if all that can be read hold all of their payloads.
#[tactic(auto, using(crate::proofs::Leafing::found_more, crate::proofs::Leafing::faults_more, crate::proofs::Leafing::local_more, crate::proofs::Leafing::found_none, crate::proofs::Leafing::faults_none))]
fn cells_said(
    alloc: Global,
    usable: u32,
    no: u32,
    rowid: i64,
    page: &[u8],
    node: &Node<'_>,
) -> Result<Option<History>, AllocError>
    requires least { 480 ≤ usable }
    requires within { usable ≤ length page.now }
    requires small { length page.now ≤ 65536 }
    requires same_page { node.now.page ≡ page.now }
    requires same_number { node.now.number ≡ no }
    requires same_usable { node.now.usable ≡ usable }
    ensures local { IfOk result (λ said. IsTrue (is_some said) → (index : ℕ) → index < cell_count node.now → IsLocal (cell_in node.now index)) }
    ensures found { IfOk result (λ said. IfSome said (λ history. items_by history ≡ leaf_found rowid node.now 0)) }
    ensures faults { IfOk result (λ said. IfSome said (λ history. faults_by history ≡ leaf_faults node.now 0)) }
{
    let mut history = History::new(alloc);
    for index in 0..node.cells() {
        let Some(said) = cell_said(usable, no, rowid, page, node, index) else {
            return Ok(None);
        };
        history.add(said.found, said.faulty)?;
    }
    Ok(Some(history))
}

/// What a cell of a leaf says of a rowid, unless it can be read and holds a part of its payload alone.
fn cell_said(
    usable: u32,
    no: u32,
    rowid: i64,
    page: &[u8],
    node: &Node<'_>,
    index: u32,
) -> Option<Said>
    requires least { 480 ≤ usable }
    requires within { usable ≤ length page.now }
    requires small { length page.now ≤ 65536 }
    requires same_page { node.now.page ≡ page.now }
    requires same_usable { node.now.usable ≡ usable }
    requires index { index < cell_count node.now }
    ensures local { IsTrue (is_some result) → IsLocal (cell_in node.now index) }
    ensures found { IfSome result (λ said. said.found ≡ row_found rowid no index (local_row page.now (cell_in node.now index))) }
    ensures faulty { IfSome result (λ said. said.faulty ≡ row_faulty (local_row page.now (cell_in node.now index))) }
{
    match node.cell(index) {
        Ok(cell) => local_said(usable, no, rowid, page, &cell, index),
        Err(_) => Some(Said {
            found: None,
            faulty: true,
        }),
    }
}

/// What a cell says that was read from a page, where it holds all of its payload.
fn local_said(
    usable: u32,
    no: u32,
    rowid: i64,
    page: &[u8],
    cell: &Cell,
    index: u32,
) -> Option<Said>
    requires least { 480 ≤ usable }
    requires within { usable ≤ length page.now }
    requires small { length page.now ≤ 65536 }
    requires read { WasRead page.now usable cell.now }
    ensures local { IsTrue (is_some result) → spilled cell.now ≡ 0 }
    ensures found { IfSome result (λ said. said.found ≡ row_found rowid no index (local_row page.now (Ok cell.now))) }
    ensures faulty { IfSome result (λ said. said.faulty ≡ row_faulty (local_row page.now (Ok cell.now))) }
{
    let bytes = as_local(page, cell, usable)?;
    Some(said_by(cell.rowid, fault_in(bytes), rowid, no, index))
}

/// Why the columns of a payload can't be shown, where they can't.
fn fault_in(bytes: &[u8]) -> Option<RowFault>
    requires { length bytes.now ≤ 65536 }
    ensures { result ≡ read_fault (columns_of (Some bytes.now)) }
{
    match read_types(bytes) {
        Ok(_) => None,
        Err(RecordFault::HeaderSize) => Some(RowFault::HeaderSize),
        Err(RecordFault::UnusedType) => Some(RowFault::UnusedType),
        Err(RecordFault::BodyLength) => Some(RowFault::BodyLength),
    }
}
