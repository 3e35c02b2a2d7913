//! What a b-tree page leads to, part by part.
ghost use Rattle.std.specs.Prelude.{◌≡◌, ◌<◌, [], ◌∷◌, ◌++◌, IsTrue, IfNone};
ghost use Rattle.std.specs.Option.{option_to_list};
ghost use Rattle.sx_cell.specs.Kinds.{has_child};
ghost use Rattle.sx_node.specs.Nodes.{cell_count, cell_in};
ghost use Rattle.sx_tree.specs.Parts.{cell_parts, row_parts, parts_of};

use crate::item::{RowItem, TreeFault};
use std::marker::Model;
use sx_cell::Kind;
use sx_node::Node;

/// A part of a page: an item of its own, or a page whose items stand there.
#[derive(Clone, Copy)]
pub(crate) enum Part {
    Item(RowItem),
    Child(u32),
}

/// The parts of a page that are to come: of each cell its child and then its row, and at the end the right-most child.
#[derive(Drop)]
pub(crate) struct Parts<'a> {
    node: Node<'a>,
    /// The number of the page.
    page: u32,
    /// What is left of the cell before, and comes before the other cells.
    behind: Option<Part>,
    /// The index of the next cell.
    next: u32,
    /// The right-most child, while it is to come.
    right: Option<u32>,
}

impl<'a> Model for Parts<'a> {
    ghost use Rattle.std.specs.Prelude.{◌≡◌, ◌≤◌};
    ghost use Rattle.sx_node.specs.Nodes.{cell_count};
    ghost use Rattle.sx_tree.specs.Parts.{Visit, parts_from};

    ghost Value = { Visit };

    ghost view = { λ it. record { number = it.page; rest = parts_from it.node it.behind it.next it.right } };

    ghost invariant = { λ it. (it.next ≤ cell_count it.node) × (it.node.number ≡ it.page) };
}

impl<'a> Parts<'a> {
    /// All parts of page `no`.
    pub(crate) fn start(node: Node<'a>, no: u32) -> Self
        requires { node.number ≡ no }
        ensures page { result.number ≡ no }
        ensures rest { result.rest ≡ parts_of node.entry }
    {
        let right = node.right();
        Parts {
            node,
            page: no,
            behind: None,
            next: 0,
            right,
        }
    }

    /// The next part, and none behind the last.
    #[tactic(auto, using(crate::proofs::PartLemmas::last_part, crate::proofs::PartLemmas::one_part))]
    pub(crate) fn advance(&mut self) -> Option<Part>
        ensures page { self.new.number ≡ self.old.number }
        ensures part { self.old.rest ≡ option_to_list result ++ self.new.rest }
        ensures end { IfNone result (self.old.rest ≡ []) }
    {
        if let Some(part) = self.behind.take() {
            return Some(part);
        }
        if self.next == self.node.cells() {
            return self.right.take().map(Part::Child);
        }
        let (part, behind) = cell_part(&self.node, self.page, self.next);
        self.behind = behind;
        self.next += 1;
        Some(part)
    }
}

/// The parts of the cell of an index: a row, a fault, or its child and then its row, if it has one.
#[tactic(auto, using(crate::proofs::PartLemmas::leaf_parts, crate::proofs::PartLemmas::inner_parts))]
fn cell_part(node: &Node<'_>, page: u32, index: u32) -> (Part, Option<Part>)
    requires { index < cell_count node.now }
    ensures { cell_parts node.now.kind page index (cell_in node.now index) ≡ result.0 ∷ option_to_list result.1 }
{
    match node.cell(index) {
        Err(_) => {
            let fault = RowItem::Fault {
                kind: TreeFault::BadCell,
                page,
                cell: index,
            };
            (Part::Item(fault), None)
        }
        Ok(cell) => match cell.child {
            Some(child) => (Part::Child(child), row_behind(node.kind(), page, index)),
            None => (Part::Item(RowItem::Row { page, cell: index }), None),
        },
    }
}

/// The row of an interior cell, which comes behind its child: cells of a table have none.
fn row_behind(kind: Kind, page: u32, index: u32) -> Option<Part>
    ensures { IsTrue (has_child kind) → row_parts kind page index ≡ option_to_list result }
{
    match kind {
        Kind::IndexInner => Some(Part::Item(RowItem::Row { page, cell: index })),
        Kind::TableInner | Kind::TableLeaf | Kind::IndexLeaf => None,
    }
}
