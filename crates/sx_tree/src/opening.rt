//! The pages that a walk goes into.
ghost use Rattle.std.specs.Prelude.{◌≡◌, ◌≤◌, is_some, false, unwrap_or};
ghost use Rattle.sx_tree.specs.Rows.{is_other_kind, sound_node, page_in, view_kind};

use crate::item::TreeFault;
use sx_base::Pages;
use sx_cell::Kind;
use sx_node::{Node, NodeFault, read_node};

/// The kind of page `no`, if it is a b-tree page.
pub(crate) fn kind_at<'a, P: Pages<'a>>(pages: &P, usable: u32, no: u32) -> Option<Kind>
    requires least { 480 ≤ usable }
    requires within { usable ≤ P.page_size pages.now }
    requires small { P.page_size pages.now ≤ 65536 }
    ensures { result ≡ view_kind usable no (P.view pages.now no) }
{
    match read_node(pages.page(no)?, no, usable) {
        Ok(node) => Some(node.kind()),
        Err(_) => None,
    }
}

/// Page `no` as one of a tree whose root has that kind, or the first reason why a walk doesn't go into it.
///
/// Of each page that has a view it is known whether it is named again. The page is looked up only where it is entered.
pub(crate) fn open<'a, P: Pages<'a>>(
    pages: &P,
    usable: u32,
    root: Option<Kind>,
    named_again: Option<bool>,
    no: u32,
) -> Result<Node<'a>, TreeFault>
    requires least { 480 ≤ usable }
    requires within { usable ≤ P.page_size pages.now }
    requires small { P.page_size pages.now ≤ 65536 }
    requires known { is_some named_again ≡ is_some (P.view pages.now no) }
    ensures { result ≡ page_in usable root (unwrap_or named_again false) no (P.view pages.now no) }
{
    let Some(shared) = named_again else {
        return Err(TreeFault::Absent);
    };
    if shared {
        return Err(TreeFault::DoubleClaim);
    }
    match pages.page(no) {
        Some(page) => sound_node(root, read_node(page, no, usable)),
        None => Err(TreeFault::Absent),
    }
}

/// A b-tree page of the root's kind.
fn sound_node(root: Option<Kind>, read: Result<Node<'_>, NodeFault>) -> Result<Node<'_>, TreeFault>
    ensures { result ≡ sound_node root read.entry }
{
    match read {
        Err(NodeFault::BadFlag) => Err(TreeFault::BadNode),
        Err(NodeFault::BadArray) => Err(TreeFault::BadArray),
        Ok(node) => {
            if is_other_kind(root, node.kind()) {
                Err(TreeFault::OtherKind)
            } else {
                Ok(node)
            }
        }
    }
}

/// Whether one is a table page and the other an index page.
fn is_other_kind(root: Option<Kind>, kind: Kind) -> bool
    ensures { result ≡ is_other_kind root kind }
{
    match root {
        None => false,
        Some(root) => root.is_table() != kind.is_table(),
    }
}
