//! The walk over a tree that gathers what it holds under a rowid.
ghost use Rattle.std.specs.Prelude.{◌≡◌, ◌≤◌, None, Some, if◌then◌else◌, is_some, IfOk};
ghost use Rattle.sx_row.specs.Lengths.{AreLengths};
ghost use Rattle.sx_row.specs.Given.{content_of};
ghost use Rattle.sx_history.specs.History.{faults_of, found_of, has_rowid, is_faulty, item_found, read_fault, read_found};
ghost use Rattle.sx_history.specs.Given.{faults_by, items_by};

use crate::found::Found;
use crate::listing::History;
use std::alloc::{AllocError, Global};
use sx_base::Pages;
use sx_row::{ChainLengths, Row, RowFault, read_row};
use sx_tree::{RowItem, Rows};

/// What an item of a tree says: the row with the rowid, if it is one, and whether it is a fault.
#[derive(Clone, Copy)]
pub(crate) struct Said {
    pub(crate) found: Option<Found>,
    pub(crate) faulty: bool,
}

/// What the tree with that root holds under a rowid, over pages with so many usable bytes: from 480 to the page size, which
/// is at most 65536. The root is a page number, and may be any number; the tree of an index has no rowids.
///
/// The whole tree is walked: a damaged one may have the rowid anywhere, and more than once, and its faults are counted. It
/// answers `AllocError` where memory runs out, and nothing else. Time goes with the pages of the tree, its cells and the
/// payloads that are whole; a chain of overflow pages that ends early is looked at once, whatever cells name it. Memory goes
/// with the pages of the tree, the rows that are found and the longest payload.
#[tactic(auto, unfolding(crate::specs::History::found_of, crate::specs::History::faults_of), using(crate::proofs::Gathered::found_more, crate::proofs::Gathered::faults_more))]
pub fn history<'a, P: Pages<'a>>(
    alloc: Global,
    pages: &P,
    usable: u32,
    root: u32,
    rowid: i64,
) -> Result<History, AllocError>
    requires least { 480 ≤ usable }
    requires within { usable ≤ P.page_size pages.now }
    requires small { P.page_size pages.now ≤ 65536 }
    ensures found { IfOk result (λ history. items_by history ≡ found_of (P.pages pages.now) (P.view pages.now) usable root rowid) }
    ensures faults { IfOk result (λ history. faults_by history ≡ faults_of (P.pages pages.now) (P.view pages.now) usable root) }
{
    let mut rows = Rows::start(alloc, pages, usable, root)?;
    let mut lengths = ChainLengths::new(alloc, pages);
    let mut room = Vec::new(alloc);
    let mut history = History::new(alloc);
    while let Some(item) = rows.next() {
        let said = read_item(&mut lengths, &mut room, pages, usable, rowid, item)?;
        history.add(said.found, said.faulty)?;
    }
    Ok(history)
}

/// What an item of the tree says.
fn read_item<'a, P: Pages<'a>>(
    lengths: &mut ChainLengths,
    room: &mut Vec<u8>,
    pages: &P,
    usable: u32,
    rowid: i64,
    item: RowItem,
) -> Result<Said, AllocError>
    requires least { 480 ≤ usable }
    requires within { usable ≤ P.page_size pages.now }
    requires small { P.page_size pages.now ≤ 65536 }
    requires lengths { AreLengths (P.pages pages.now) (P.view pages.now) lengths.old }
    ensures found { IfOk result (λ said. said.found ≡ item_found (P.pages pages.now) (P.view pages.now) usable rowid item) }
    ensures faulty { IfOk result (λ said. said.faulty ≡ is_faulty (P.pages pages.now) (P.view pages.now) usable item) }
    ensures lengths { AreLengths (P.pages pages.now) (P.view pages.now) lengths.new }
{
    let RowItem::Row { page, cell } = item else {
        return Ok(Said {
            found: None,
            faulty: true,
        });
    };
    match read_row(lengths, room, pages, usable, page, cell)? {
        Some(row) => Ok(row_said(&row, rowid, page, cell)),
        None => Ok(Said {
            found: None,
            faulty: true,
        }),
    }
}

/// What the row in a cell of a page says.
fn row_said(row: &Row<'_>, rowid: i64, page: u32, cell: u32) -> Said
    ensures found { result.found ≡ read_found rowid page cell (content_of row.now) }
    ensures faulty { result.faulty ≡ is_some (read_fault (content_of row.now).columns) }
{
    said_by(row.rowid, fault_of(row), rowid, page, cell)
}

/// What a row says that has this rowid, if it has one, and whose columns can't be shown for this reason, where they can't.
pub(crate) fn said_by(
    own: Option<i64>,
    fault: Option<RowFault>,
    rowid: i64,
    page: u32,
    cell: u32,
) -> Said
    ensures found { result.found ≡ (if has_rowid rowid own then Some (record { page = page; cell = cell; fault = fault }) else None) }
    ensures faulty { result.faulty ≡ is_some fault }
{
    let found = if has_rowid(own, rowid) {
        Some(Found { page, cell, fault })
    } else {
        None
    };
    Said {
        found,
        faulty: fault.is_some(),
    }
}

/// Why the columns of a row can't be shown, where they can't.
fn fault_of(row: &Row<'_>) -> Option<RowFault>
    ensures { result ≡ read_fault (content_of row.now).columns }
{
    match &row.columns {
        Ok(_) => None,
        Err(fault) => Some(*fault),
    }
}

/// Whether a row has the rowid: one of an index has none.
fn has_rowid(own: Option<i64>, rowid: i64) -> bool
    ensures { result ≡ has_rowid rowid own }
{
    match own {
        Some(own) => own == rowid,
        None => false,
    }
}
