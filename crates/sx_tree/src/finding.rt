//! The pages of a tree, found from the root on.
ghost use Rattle.std.specs.Prelude.{◌≡◌, ℕ, ◌<◌, ◌≤◌, [], false, List, length, fold, is_some, nat_eq, option_copied, OnOk, IfOk};
ghost use Rattle.std.specs.List.{flat_map};
ghost use Rattle.sx_tree.specs.Trees.{child_in, view_children, tree_in};
ghost use Rattle.sx_tree.specs.Tables.{noted};
ghost use Rattle.sx_tree.specs.Walks.{IsFound};

use crate::table::Table;
use std::alloc::{AllocError, Global};
use sx_base::Pages;
use sx_node::{NodeTarget, Targets, read_node};

/// The held pages of the tree with that root, and whether each is named more than once; and how many pages stand one below
/// the other at most.
///
/// The table is the queue too: each page stands in it once, where it was named first, and its children are noted when its
/// turn comes. Each page is read once, each name is a look-up of the page and of the table, and no cell of a leaf is read.
pub(crate) fn pages_of_tree<'a, P: Pages<'a>>(
    alloc: Global,
    pages: &P,
    usable: u32,
    root: u32,
) -> Result<(Table, usize), AllocError>
    requires least { 480 ≤ usable }
    requires within { usable ≤ P.page_size pages.now }
    requires small { P.page_size pages.now ≤ 65536 }
    ensures { IfOk result (λ found. IsFound (tree_in (P.pages pages.now) (P.view pages.now) usable root) found.0 found.1) }
{
    let _size = pages.size();
    let mut table = Table::new(alloc);
    note(pages, &mut table, root)?;
    let mut done = 0;
    // Each page of a way but the last names the one below it.
    let mut room = 1;
    while let Some(no) = table.page_at(done) {
        if note_children(pages, usable, &mut table, no)? {
            room += 1;
        }
        done += 1;
    }
    Ok((table, room))
}

/// Notes the children that page `no` names, and answers whether it may name some.
#[tactic(auto, using(crate::proofs::Leaves::leaf_noted, crate::proofs::Leaves::leaf_none))]
fn note_children<'a, P: Pages<'a>>(
    pages: &P,
    usable: u32,
    table: &mut Table,
    no: u32,
) -> Result<bool, AllocError>
    requires least { 480 ≤ usable }
    requires within { usable ≤ P.page_size pages.now }
    requires small { P.page_size pages.now ≤ 65536 }
    ensures ok { OnOk result (table.new ≡ fold (noted (λ number. is_some (P.view pages.now number))) table.old (view_children usable no (P.view pages.now no))) }
    ensures none { IfOk result (λ named. named ≡ false → view_children usable no (P.view pages.now no) ≡ []) }
{
    let Some(page) = pages.page(no) else {
        return Ok(false);
    };
    let Ok(node) = read_node(page, no, usable) else {
        return Ok(false);
    };
    if !node.kind().has_child() {
        return Ok(false);
    }
    note_targets(pages, table, node.targets())?;
    Ok(true)
}

/// Notes the children among the pages that are named.
fn note_targets<'a, P: Pages<'a>>(
    pages: &P,
    table: &mut Table,
    mut targets: Targets<'_>,
) -> Result<(), AllocError>
    ensures ok { OnOk result (table.new ≡ fold (noted (λ number. is_some (P.view pages.now number))) table.old (flat_map child_in targets.entry)) }
{
    while let Some(target) = targets.next() {
        match target {
            NodeTarget::Child { page, .. } => note(pages, table, page)?,
            NodeTarget::Overflow { .. } => {}
            NodeTarget::Right(page) => note(pages, table, page)?,
        }
    }
    Ok(())
}

/// Notes that page `no` is named, if it is held.
#[tactic(auto, unfolding(crate::specs::Tables::noted))]
fn note<'a, P: Pages<'a>>(pages: &P, table: &mut Table, no: u32) -> Result<(), AllocError>
    ensures ok { OnOk result (table.new ≡ noted (λ number. is_some (P.view pages.now number)) table.old no) }
{
    if pages.page(no).is_none() {
        return Ok(());
    }
    table.note(no)
}
