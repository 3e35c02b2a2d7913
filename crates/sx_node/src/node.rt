//! A b-tree page, its header and its cells.
ghost use Rattle.std.specs.Prelude.{◌≡◌, ◌+◌, ◌*◌, ◌^◌, ◌<◌, ◌≤◌, ◌==◌, length, All, IfOk};
ghost use Rattle.sx_cell.specs.Cells.{HasRanges, WasRead};
ghost use Rattle.sx_node.specs.Nodes.{NodePage, HoldsArray, IsNodeOf, header_at, header_len, kind_of, with_array, node_of, first_freeblock, cell_count, content_start, fragment_bytes, right_child, array_at, pointer_at, cell_in};
ghost use Rattle.sx_node.specs.Freeblocks.{freeblocks_of};
ghost use Rattle.sx_node.specs.Claims.{LiesWithin, claims_of};
ghost use Rattle.sx_node.specs.Targets.{targets_of};

use crate::claims::Claims;
use crate::freeblocks::Freeblocks;
use crate::targets::Targets;
use std::marker::Model;
use sx_base::Span;
use sx_bytes::{be16, be32};
use sx_cell::{Cell, CellFault, Kind, read_cell};

/// Why bytes are no b-tree page: the first that applies, in the order of the variants.
#[derive(Clone, Copy, Debug, PartialEq, Eq)]
pub enum NodeFault {
    /// The first byte of the header is none of the four that say a kind.
    BadFlag,
    /// The cell pointer array ends past the usable bytes.
    BadArray,
}

/// A b-tree page, a borrow of its bytes ("B-tree Pages").
///
/// Its numbers are those of its header, also where the page contradicts them: only its flag and the end of its cell
/// pointer array were tested.
#[derive(Drop)]
pub struct Node<'a> {
    page: &'a [u8],
    number: u32,
    usable: u32,
    kind: Kind,
}

impl<'a> Model for Node<'a> {
    ghost Value = { NodePage };

    ghost view = { λ node. record { page = node.page.now; number = node.number; usable = node.usable; kind = node.kind } };

    ghost invariant = { λ node. HoldsArray (record { page = node.page.now; number = node.number; usable = node.usable; kind = node.kind }) };
}

/// Where the header of a page of that number begins.
#[tactic(auto, unfolding(crate::specs::Nodes::header_at))]
fn header_at(number: u32) -> usize
    ensures value { result ≡ header_at number }
    ensures within { result ≤ 100 }
{
    if number == 1 { 100 } else { 0 }
}

/// How many bytes the header of a page of that kind has.
#[tactic(auto, unfolding(crate::specs::Nodes::header_len))]
fn header_len(kind: Kind) -> usize
    ensures value { result ≡ header_len kind }
    ensures within { result ≤ 12 }
{
    match kind {
        Kind::TableLeaf | Kind::IndexLeaf => 8,
        Kind::TableInner | Kind::IndexInner => 12,
    }
}

/// The kind that the first byte of a header says.
#[tactic(auto, unfolding(crate::specs::Nodes::kind_of))]
fn kind_of(flag: u8) -> Option<Kind>
    ensures { result ≡ kind_of flag }
{
    match flag {
        2 => Some(Kind::IndexInner),
        5 => Some(Kind::TableInner),
        10 => Some(Kind::IndexLeaf),
        13 => Some(Kind::TableLeaf),
        _ => None,
    }
}

/// Reads page `no` as a b-tree page with so many usable bytes.
///
/// The page has at least its usable bytes, which are 480 or more, and at most 65536 bytes. Only page 1 has its header
/// behind the 100 bytes of the database header. No cell is read.
#[tactic(auto, unfolding(crate::specs::Nodes::node_of))]
pub fn read_node<'a>(page: &'a [u8], no: u32, usable: u32) -> Result<Node<'a>, NodeFault>
    requires least { 480 ≤ usable }
    requires within { usable ≤ length page.now }
    requires small { length page.now ≤ 65536 }
    ensures exact { result ≡ node_of page.now no usable }
    ensures page { IfOk result (IsNodeOf page.now no usable) }
{
    match kind_of(page[header_at(no)]) {
        None => Err(NodeFault::BadFlag),
        Some(kind) => with_array(page, no, usable, kind),
    }
}

/// The page of that kind, if its cell pointer array ends within the usable bytes.
#[tactic(auto, unfolding(crate::specs::Nodes::with_array, crate::specs::Nodes::cell_count))]
fn with_array<'a>(page: &'a [u8], no: u32, usable: u32, kind: Kind) -> Result<Node<'a>, NodeFault>
    requires least { 480 ≤ usable }
    requires within { usable ≤ length page.now }
    requires small { length page.now ≤ 65536 }
    ensures exact { result ≡ with_array (record { page = page.now; number = no; usable = usable; kind = kind }) }
    ensures page { IfOk result (IsNodeOf page.now no usable) }
{
    let header = header_at(no);
    let cells = be16(page, header + 3) as usize;
    if header + header_len(kind) + 2 * cells > usable as usize {
        return Err(NodeFault::BadArray);
    }
    Ok(Node {
        page,
        number: no,
        usable,
        kind,
    })
}

impl<'a> Node<'a> {
    /// The kind of the page and of its cells.
    pub fn kind(&self) -> Kind
        ensures { result ≡ self.now.kind }
    {
        self.kind
    }

    /// How many cells the page has.
    #[tactic(auto, unfolding(crate::specs::Nodes::cell_count))]
    pub fn cells(&self) -> u32
        ensures value { result ≡ cell_count self.now }
        ensures few { 2 * result ≤ self.now.usable }
    {
        u32::from(be16(self.page, header_at(self.number) + 3))
    }

    /// The offset of the first freeblock in bytes from the start of the page, from 1 to 65535, or 0 where the header names
    /// none.
    #[tactic(auto, unfolding(crate::specs::Nodes::first_freeblock))]
    pub fn first_freeblock(&self) -> u32
        ensures value { result ≡ first_freeblock self.now }
        ensures below { result < 65536 }
    {
        u32::from(be16(self.page, header_at(self.number) + 1))
    }

    /// Where the cell content area begins, in bytes from the start of the page, from 1 to 65536.
    #[tactic(auto, unfolding(crate::specs::Nodes::content_start))]
    pub fn content(&self) -> u32
        ensures value { result ≡ content_start self.now }
        ensures some { 0 < result }
        ensures within { result ≤ 65536 }
    {
        match be16(self.page, header_at(self.number) + 5) {
            0 => 65536,
            stored => u32::from(stored),
        }
    }

    /// How many bytes of the cell content area are fragments, as the header says it: from 0 to 255.
    #[tactic(auto, unfolding(crate::specs::Nodes::fragment_bytes))]
    pub fn fragments(&self) -> u32
        ensures value { result ≡ fragment_bytes self.now }
        ensures below { result < 256 }
    {
        u32::from(self.page[header_at(self.number) + 7])
    }

    /// The page number of the right-most child: on interior pages.
    #[tactic(auto, unfolding(crate::specs::Nodes::right_child))]
    pub fn right(&self) -> Option<u32>
        ensures { result ≡ right_child self.now }
    {
        match self.kind {
            Kind::TableLeaf | Kind::IndexLeaf => None,
            Kind::TableInner | Kind::IndexInner => {
                Some(be32(self.page, header_at(self.number) + 8))
            }
        }
    }

    /// The cell pointer of index `i`, counted from 0 and below the number of cells: where the cell begins, in bytes from
    /// the start of the page. It may be any number of 2 bytes, from 0 to 65535.
    #[tactic(auto, unfolding(crate::specs::Nodes::pointer_at))]
    pub fn pointer(&self, i: u32) -> u32
        requires { i < cell_count self.now }
        ensures value { result ≡ pointer_at self.now i }
        ensures below { result < 65536 }
    {
        let array = header_at(self.number) + header_len(self.kind);
        u32::from(be16(self.page, array + 2 * i as usize))
    }

    /// The cell of index `i`, counted from 0 and below the number of cells, or its fault.
    pub fn cell(&self, i: u32) -> Result<Cell, CellFault>
        requires { i < cell_count self.now }
        ensures exact { result ≡ cell_in self.now i }
        ensures ranges { IfOk result (HasRanges self.now.kind self.now.usable) }
        ensures read { IfOk result (WasRead self.now.page self.now.usable) }
    {
        read_cell(self.kind, self.page, self.pointer(i), self.usable)
    }

    /// The freeblocks in the order of their chain, as far as that makes sense. Takes no memory.
    #[tactic(auto, using(crate::proofs::Walks::few_blocks))]
    pub fn freeblocks(&self) -> Freeblocks<'a>
        ensures value { result ≡ freeblocks_of self.now }
        ensures few { length (freeblocks_of self.now) ≤ self.now.usable }
    {
        Freeblocks::start(self.page, self.usable, self.first_freeblock())
    }

    /// What of the page is claimed: on page 1 the database header, then the header of the page, the cell pointer array
    /// where there are cells, each cell that can be read in the order of that array, each freeblock in the order of its
    /// chain. Claims may overlap. Takes no memory.
    pub fn claims(&self) -> Claims<'a>
        ensures value { result ≡ claims_of self.now }
        ensures few { length (claims_of self.now) < 2 ^ 32 }
        ensures within { All (LiesWithin self.now.usable) (claims_of self.now) }
    {
        let _page = self.page;
        Claims::start(self)
    }

    /// The pages that the page names: each cell's child and then its first overflow page, by the index of the cell, where
    /// it can be read, and last the right-most child. Each cell is read once, and nothing takes memory.
    #[tactic(auto, using(crate::proofs::TargetLemmas::few_targets))]
    pub fn targets(&self) -> Targets<'a>
        ensures value { result ≡ targets_of self.now }
        ensures few { length (targets_of self.now) < 2 ^ 32 }
    {
        let _page = self.page;
        Targets::start(self)
    }

    /// The same page once more, for one that goes on to read it by itself.
    pub fn again(&self) -> Node<'a>
        ensures { result ≡ self.now }
    {
        Node {
            page: self.page,
            number: self.number,
            usable: self.usable,
            kind: self.kind,
        }
    }

    /// Whether this is page 1, which begins with the database header.
    pub(crate) fn is_first(&self) -> bool
        ensures { result ≡ (self.now.number == 1) }
    {
        self.number == 1
    }

    /// Where the header of the page stands.
    pub(crate) fn header_span(&self) -> Span
        ensures start { result.start ≡ header_at self.now.number }
        ensures len { result.len ≡ header_len self.now.kind }
    {
        Span {
            start: header_at(self.number) as u32,
            len: header_len(self.kind) as u32,
        }
    }

    /// Where the cell pointer array stands.
    pub(crate) fn array_span(&self) -> Span
        ensures start { result.start ≡ array_at self.now }
        ensures len { result.len ≡ 2 * cell_count self.now }
    {
        Span {
            start: (header_at(self.number) + header_len(self.kind)) as u32,
            len: 2 * self.cells(),
        }
    }
}
