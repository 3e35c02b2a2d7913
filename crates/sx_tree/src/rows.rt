//! The rows of a tree.
ghost use Rattle.std.specs.Prelude.{◌≡◌, ◌^◌, ◌<◌, ◌≤◌, [], length, IfOk};
ghost use Rattle.std.specs.Vec.{vec_capacity};
ghost use Rattle.std.specs.Iterator.{YieldsFirst};
ghost use Rattle.sx_tree.specs.Trees.{tree_in, held_count};
ghost use Rattle.sx_tree.specs.Rows.{rows_of};
ghost use Rattle.sx_tree.specs.Walks.{come, to_come, IsWalk, IsNamed, IsFollowed};

use crate::finding::pages_of_tree;
use crate::item::{RowItem, TreeFault};
use crate::opening::{kind_at, open};
use crate::parts::{Part, Parts};
use crate::table::Table;
use std::alloc::{AllocError, Global};
use std::marker::Model;
use sx_base::{PageViews, Pages};
use sx_cell::Kind;

/// The rows of a tree that are to come, in order, with a fault in the place of each page and cell that can't be shown.
///
/// The items of a page are those of its cells in the order of the cell pointer array, and on an interior page then those of
/// the right-most child. A leaf cell is a row; an interior cell of a table gives the items of its child, one of an index the
/// items of its child and then a row; a cell that can't be read is a fault. A page is a fault where it isn't held, where it
/// is named more than once, where it is no b-tree page, or where it is one of the other kind than the root.
///
/// `next` takes no memory and has no other answer: all is taken by [`Rows::start`]. Each page of the tree is opened once more,
/// and each of its cells is read once.
#[derive(Drop)]
pub struct Rows<'p, 'a, P: PageViews> {
    pages: &'p P,
    usable: u32,
    root: u32,
    kind: Option<Kind>,
    table: Table,
    fault: Option<TreeFault>,
    way: Vec<Parts<'a>>,
}

impl<'p, 'a, P: PageViews> Model for Rows<'p, 'a, P> {
    ghost use Rattle.std.specs.Prelude.{List};
    ghost use Rattle.std.specs.Vec.{vec_capacity};
    ghost use Rattle.sx_tree.specs.declared.item.RowItem.{RowItem};
    ghost use Rattle.sx_tree.specs.Trees.{tree_in};
    ghost use Rattle.sx_tree.specs.Walks.{to_come, IsRows};

    ghost Value = { List RowItem };

    ghost view = { λ it. to_come (tree_in (P.pages it.pages.now) (P.view it.pages.now) it.usable it.root) it.fault it.way.items };

    ghost invariant = { λ it. IsRows (P.page_size it.pages.now) (tree_in (P.pages it.pages.now) (P.view it.pages.now) it.usable it.root) it.table it.kind it.way.items (vec_capacity it.way) };
}

impl<'p, 'a, P: Pages<'a>> Rows<'p, 'a, P> {
    /// The rows of the tree with that root, a page number, over pages with so many usable bytes: from 480 to the page size,
    /// which is at most 65536. The root may be any number, also 0 and one that isn't held.
    ///
    /// It finds the pages of the tree, each of which is read once, and answers `AllocError` where memory runs out, and
    /// nothing else. Time goes with the pages of the tree and their cells, and a logarithm of their number for each name;
    /// memory goes with the pages of the tree, and never with the size that the moment claims. There are fewer than 2^64
    /// items.
    pub fn start(alloc: Global, pages: &'p P, usable: u32, root: u32) -> Result<Self, AllocError>
        requires least { 480 ≤ usable }
        requires within { usable ≤ P.page_size pages.now }
        requires small { P.page_size pages.now ≤ 65536 }
        ensures rows { IfOk result (λ rows. rows ≡ rows_of (tree_in (P.pages pages.now) (P.view pages.now) usable root)) }
        ensures few { IfOk result (λ rows. length rows < 2 ^ 64) }
    {
        let _size = pages.size();
        let (table, room) = pages_of_tree(alloc, pages, usable, root)?;
        let kind = kind_at(pages, usable, root);
        let mut way: Vec<Parts<'a>> = Vec::with_capacity(alloc, room)?;
        let fault = enter_root(pages, usable, root, kind, &table, &mut way);
        Ok(Rows {
            pages,
            usable,
            root,
            kind,
            table,
            fault,
            way,
        })
    }
}

impl<'p, 'a, P: Pages<'a>> Iterator for Rows<'p, 'a, P> {
    ghost use Rattle.std.specs.Iterator.{YieldsFirst, item_count};

    type Item = RowItem;

    ghost next_gives = { YieldsFirst (λ it. it) };

    ghost remaining = { item_count (λ it. it) };

    fn next(&mut self) -> Option<RowItem> {
        if let Some(kind) = self.fault.take() {
            let page = self.root;
            return Some(RowItem::Fault {
                kind,
                page,
                cell: 0,
            });
        }
        walk_on(
            self.pages,
            self.usable,
            self.root,
            self.kind,
            &self.table,
            &mut self.way,
        )
    }
}

/// Goes into the root, or says why not.
fn enter_root<'a, P: Pages<'a>>(
    pages: &P,
    usable: u32,
    root: u32,
    kind: Option<Kind>,
    table: &Table,
    way: &mut Vec<Parts<'a>>,
) -> Option<TreeFault>
    requires least { 480 ≤ usable }
    requires within { usable ≤ P.page_size pages.now }
    requires small { P.page_size pages.now ≤ 65536 }
    requires walk { IsWalk (tree_in (P.pages pages.now) (P.view pages.now) usable root) table.now kind [] (vec_capacity way.old) }
    requires empty { way.old.items ≡ [] }
    ensures walk { IsWalk (tree_in (P.pages pages.now) (P.view pages.now) usable root) table.now kind way.new.items (vec_capacity way.new) }
    ensures items { to_come (tree_in (P.pages pages.now) (P.view pages.now) usable root) result way.new.items ≡ rows_of (tree_in (P.pages pages.now) (P.view pages.now) usable root) }
{
    let shared = table.named_again(root);
    match open(pages, usable, kind, shared, root) {
        Err(fault) => Some(fault),
        Ok(node) => {
            way.push(Parts::start(node, root)).unwrap();
            None
        }
    }
}

/// Walks on to the next item.
fn walk_on<'a, P: Pages<'a>>(
    pages: &P,
    usable: u32,
    root: u32,
    kind: Option<Kind>,
    table: &Table,
    way: &mut Vec<Parts<'a>>,
) -> Option<RowItem>
    requires least { 480 ≤ usable }
    requires within { usable ≤ P.page_size pages.now }
    requires small { P.page_size pages.now ≤ 65536 }
    requires walk { IsWalk (tree_in (P.pages pages.now) (P.view pages.now) usable root) table.now kind way.old.items (vec_capacity way.old) }
    ensures walk { IsWalk (tree_in (P.pages pages.now) (P.view pages.now) usable root) table.now kind way.new.items (vec_capacity way.new) }
    ensures item { YieldsFirst (come (tree_in (P.pages pages.now) (P.view pages.now) usable root) (held_count (tree_in (P.pages pages.now) (P.view pages.now) usable root))) way.old.items result way.new.items }
{
    while let Some(mut top) = way.pop() {
        if let Some(part) = top.advance() {
            way.push(top).unwrap();
            if let Some(item) = follow(pages, usable, root, kind, table, way, part) {
                return Some(item);
            }
        }
    }
    None
}

/// The item that a part of the page in hand is, or the fault of a child. A child that has none is the page in hand from now
/// on.
fn follow<'a, P: Pages<'a>>(
    pages: &P,
    usable: u32,
    root: u32,
    kind: Option<Kind>,
    table: &Table,
    way: &mut Vec<Parts<'a>>,
    part: Part,
) -> Option<RowItem>
    requires least { 480 ≤ usable }
    requires within { usable ≤ P.page_size pages.now }
    requires small { P.page_size pages.now ≤ 65536 }
    requires walk { IsWalk (tree_in (P.pages pages.now) (P.view pages.now) usable root) table.now kind way.old.items (vec_capacity way.old) }
    requires named { IsNamed (tree_in (P.pages pages.now) (P.view pages.now) usable root) way.old.items part }
    ensures walk { IsWalk (tree_in (P.pages pages.now) (P.view pages.now) usable root) table.now kind way.new.items (vec_capacity way.new) }
    ensures item { IsFollowed (tree_in (P.pages pages.now) (P.view pages.now) usable root) way.old.items way.new.items part result }
{
    match part {
        Part::Item(item) => Some(item),
        Part::Child(no) => {
            let shared = table.named_again(no);
            match open(pages, usable, kind, shared, no) {
                Err(kind) => Some(RowItem::Fault {
                    kind,
                    page: no,
                    cell: 0,
                }),
                Ok(node) => {
                    way.push(Parts::start(node, no)).unwrap();
                    None
                }
            }
        }
    }
}
