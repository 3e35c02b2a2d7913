//! What of a b-tree page is claimed, part by part.
ghost use Rattle.std.specs.Prelude.{◌≡◌, ◌+◌, ◌^◌, ◌<◌, ◌≤◌, [], ◌∷◌, IfSome, MatchOption};
ghost use Rattle.sx_node.specs.Nodes.{cell_count};
ghost use Rattle.sx_node.specs.Claims.{claim, claims_of, cell_claims_from};
ghost use Rattle.sx_base.specs.declared.label.Label.TheVariants.{Cell as CellLabel};

use crate::freeblocks::Freeblocks;
use crate::node::Node;
use std::marker::Model;
use sx_base::{Label, Span};
use sx_cell::Cell;

/// The claims of a b-tree page that are to come: spans with their labels.
///
/// They come in this order: on page 1 the database header, then the header of the page, the cell pointer array where
/// there are cells, each cell that can be read in the order of that array, each freeblock in the order of its chain.
/// They may overlap, and aren't merged. Each cell is read once, and nothing takes memory.
#[derive(Drop)]
pub struct Claims<'a> {
    fixed: FixedClaims<'a>,
    cells: CellClaims<'a>,
    blocks: BlockClaims<'a>,
}

impl<'a> Model for Claims<'a> {
    ghost use Rattle.std.specs.Prelude.{List, ◌++◌};
    ghost use Rattle.sx_node.specs.Claims.{Claim};

    ghost Value = { List Claim };

    ghost view = { λ it. it.fixed ++ (it.cells ++ it.blocks) };
}

impl<'a> Claims<'a> {
    /// All claims of a page.
    pub(crate) fn start(node: &Node<'a>) -> Self
        ensures { result ≡ claims_of node.now }
    {
        Claims {
            fixed: FixedClaims {
                node: node.again(),
                part: FixedPart::Database,
            },
            cells: CellClaims {
                node: node.again(),
                next: 0,
            },
            blocks: BlockClaims {
                blocks: node.freeblocks(),
                number: 0,
            },
        }
    }
}

impl<'a> Iterator for Claims<'a> {
    ghost use Rattle.std.specs.Iterator.{YieldsFirst, item_count};

    type Item = (Span, Label);

    ghost next_gives = { YieldsFirst (λ it. it) };

    ghost remaining = { item_count (λ it. it) };

    fn next(&mut self) -> Option<(Span, Label)> {
        if let Some(found) = self.fixed.next() {
            return Some(found);
        }
        if let Some(found) = self.cells.next() {
            return Some(found);
        }
        self.blocks.next()
    }
}

/// What stands in front of the cells.
#[derive(Clone, Copy)]
pub(crate) enum FixedPart {
    /// The database header.
    Database,
    /// The header of the page.
    Header,
    /// The cell pointer array.
    Array,
    /// Nothing more.
    Done,
}

/// The claims in front of the cells, from a part on.
#[derive(Drop)]
struct FixedClaims<'a> {
    node: Node<'a>,
    part: FixedPart,
}

impl<'a> Model for FixedClaims<'a> {
    ghost use Rattle.std.specs.Prelude.{List};
    ghost use Rattle.sx_node.specs.Claims.{Claim};
    ghost use Rattle.sx_node.specs.Fixed.{fixed_from};

    ghost Value = { List Claim };

    ghost view = { λ it. fixed_from it.node it.part };
}

impl<'a> Iterator for FixedClaims<'a> {
    ghost use Rattle.std.specs.Iterator.{YieldsFirst, item_count};

    type Item = (Span, Label);

    ghost next_gives = { YieldsFirst (λ it. it) };

    ghost remaining = { item_count (λ it. it) };

    fn next(&mut self) -> Option<(Span, Label)> {
        match self.part {
            FixedPart::Database if self.node.is_first() => {
                self.part = FixedPart::Header;
                Some((Span { start: 0, len: 100 }, Label::DbHeader))
            }
            FixedPart::Database | FixedPart::Header => {
                self.part = FixedPart::Array;
                Some((self.node.header_span(), Label::NodeHeader))
            }
            FixedPart::Array => {
                self.part = FixedPart::Done;
                let span = self.node.array_span();
                if span.len == 0 {
                    None
                } else {
                    Some((span, Label::Pointers))
                }
            }
            FixedPart::Done => None,
        }
    }
}

/// The claims of the cells that can be read, from an index on.
#[derive(Drop)]
struct CellClaims<'a> {
    node: Node<'a>,
    next: u32,
}

impl<'a> Model for CellClaims<'a> {
    ghost use Rattle.std.specs.Prelude.{◌≤◌, List};
    ghost use Rattle.sx_node.specs.Nodes.{cell_count};
    ghost use Rattle.sx_node.specs.Claims.{Claim, cell_claims_from};

    ghost Value = { List Claim };

    ghost view = { λ it. cell_claims_from it.node it.next };

    ghost invariant = { λ it. it.next ≤ cell_count it.node };
}

impl<'a> Iterator for CellClaims<'a> {
    ghost use Rattle.std.specs.Iterator.{YieldsFirst, item_count};

    type Item = (Span, Label);

    ghost next_gives = { YieldsFirst (λ it. it) };

    ghost remaining = { item_count (λ it. it) };

    #[tactic(auto, using(crate::proofs::ClaimLemmas::no_cells))]
    fn next(&mut self) -> Option<(Span, Label)> {
        match next_readable(&self.node, self.next) {
            None => {
                // What can't be read isn't tried again.
                self.next = self.node.cells();
                None
            }
            Some((index, cell)) => {
                self.next = index + 1;
                let span = Span {
                    start: cell.at,
                    len: cell.len,
                };
                Some((span, Label::Cell(index)))
            }
        }
    }
}

/// The first cell from an index on that can be read, with its index.
#[tactic(auto, using(crate::proofs::ClaimLemmas::no_cells, crate::proofs::ClaimLemmas::one_cell, crate::proofs::ClaimLemmas::skipped_cell))]
fn next_readable(node: &Node<'_>, from: u32) -> Option<(u32, Cell)>
    requires { from ≤ cell_count node.now }
    ensures counted { IfSome result (λ found. found.0 + 1 < 2 ^ 32) }
    ensures found { MatchOption result (cell_claims_from node.now from ≡ []) (λ found. (found.0 < cell_count node.now) × (cell_claims_from node.now from ≡ claim found.1.at found.1.len (CellLabel found.0) ∷ cell_claims_from node.now (found.0 + 1))) }
{
    for i in from..node.cells() {
        if let Ok(cell) = node.cell(i) {
            return Some((i, cell));
        }
    }
    None
}

/// The claims of freeblocks, numbered from a number on.
#[derive(Drop)]
struct BlockClaims<'a> {
    blocks: Freeblocks<'a>,
    number: u32,
}

impl<'a> Model for BlockClaims<'a> {
    ghost use Rattle.std.specs.Prelude.{◌+◌, ◌^◌, ◌<◌, List, length};
    ghost use Rattle.sx_node.specs.Claims.{Claim, block_claims_from};

    ghost Value = { List Claim };

    ghost view = { λ it. block_claims_from it.number it.blocks };

    ghost invariant = { λ it. it.number + length it.blocks < 2 ^ 32 };
}

impl<'a> Iterator for BlockClaims<'a> {
    ghost use Rattle.std.specs.Iterator.{YieldsFirst, item_count};

    type Item = (Span, Label);

    ghost next_gives = { YieldsFirst (λ it. it) };

    ghost remaining = { item_count (λ it. it) };

    fn next(&mut self) -> Option<(Span, Label)> {
        let block = self.blocks.next()?;
        let number = self.number;
        self.number += 1;
        Some((block, Label::Freeblock(number)))
    }
}
