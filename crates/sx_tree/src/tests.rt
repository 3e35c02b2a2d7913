//! Trees of pages of 512 bytes: sound ones, and ones that name pages twice, go round in circles or miss pages.
use crate::{RowItem, Rows, TreeFault};
use std::process::Abort;
use std::test::Fail;
use sx_base::Sheets;

/// A leaf page of a table with three rows.
fn three_rows() -> [u8; 512] {
    let mut page = [0; 512];
    page[..14].copy_from_slice(b"\x0d\x00\x00\x00\x03\x01\xe4\x00\x01\xf6\x01\xec\x01\xe4");
    page[484..492].copy_from_slice(b"\x06\x03\x04\x00\x11\x00cy");
    page[492..502].copy_from_slice(b"\x08\x02\x04\x00\x13\x01bob\x14");
    page[502..].copy_from_slice(b"\x08\x01\x04\x00\x13\x01ann\x0a");
    page
}

/// An interior page of a table with one cell: its child, and the right-most one.
fn two_children(left: u8, right: u8) -> [u8; 512] {
    let mut page = [0; 512];
    page[..14].copy_from_slice(b"\x05\x00\x00\x00\x01\x01\xfb\x00\x00\x00\x00\x03\x01\xfb");
    page[507..].copy_from_slice(b"\x00\x00\x00\x03\x01");
    page[11] = right;
    page[510] = left;
    page
}

/// An interior page of an index with one cell, which has a row.
fn index_children(left: u8, right: u8) -> [u8; 512] {
    let mut page = [0; 512];
    page[..14].copy_from_slice(b"\x02\x00\x00\x00\x01\x01\xf8\x00\x00\x00\x00\x03\x01\xf8");
    page[504..].copy_from_slice(b"\x00\x00\x00\x03\x03\x02\x01\x07");
    page[11] = right;
    page[507] = left;
    page
}

/// A leaf page of an index with one row.
fn index_leaf() -> [u8; 512] {
    let mut page = [0; 512];
    page[..10].copy_from_slice(b"\x0a\x00\x00\x00\x01\x01\xfc\x00\x01\xfc");
    page[508..].copy_from_slice(b"\x03\x02\x01\x09");
    page
}

/// The page with one byte changed.
fn changed(page: [u8; 512], at: u16, byte: u8) -> [u8; 512] {
    let mut page = page;
    page[at as usize % 512] = byte;
    page
}

/// The items of the tree with that root are these. An empty sheet is a page that isn't held.
fn assert_items(
    rt: &(impl Abort + AllocGlobal),
    sheets: &[&[u8]],
    root: u32,
    want: &[RowItem],
) -> Result<(), Fail> {
    if sheets.len() > 9 {
        return Err(Fail::from("too many pages"));
    }
    let pages = Sheets::new(512, sheets);
    let mut found = Vec::new(rt.alloc());
    for item in Rows::start(rt.alloc(), &pages, 512, root)? {
        found.push(item)?;
    }
    assert!(rt; found.as_slice() == want, "{found:?}, not {want:?}");
    Ok(())
}

fn row(page: u32, cell: u32) -> RowItem {
    RowItem::Row { page, cell }
}

fn fault(kind: TreeFault, page: u32) -> RowItem {
    RowItem::Fault {
        kind,
        page,
        cell: 0,
    }
}

#[test]
fn sound_trees(rt: HostRuntime) -> Result<(), Fail> {
    let none = [0; 0];
    let (leaf, one) = (three_rows(), index_leaf());
    let rows = [row(2, 0), row(2, 1), row(2, 2)];
    assert_items(&rt, &[&none, &leaf], 2, &rows)?;
    let overlapping = changed(changed(leaf, 10, 1), 11, 0xe8);
    assert_items(&rt, &[&none, &overlapping], 2, &rows)?;
    let want = [
        row(3, 0),
        row(3, 1),
        row(3, 2),
        row(4, 0),
        row(4, 1),
        row(4, 2),
    ];
    assert_items(&rt, &[&none, &two_children(3, 4), &leaf, &leaf], 2, &want)?;
    let want = [row(3, 0), row(2, 0), row(4, 0)];
    assert_items(&rt, &[&none, &index_children(3, 4), &one, &one], 2, &want)
}

#[test]
fn a_page_that_is_named_twice(rt: HostRuntime) -> Result<(), Fail> {
    let none = [0; 0];
    let leaf = three_rows();
    let twice = fault(TreeFault::DoubleClaim, 3);
    assert_items(
        &rt,
        &[&none, &two_children(3, 3), &leaf],
        2,
        &[twice, twice],
    )?;
    let root = [fault(TreeFault::DoubleClaim, 2)];
    assert_items(&rt, &[&none, &two_children(2, 3), &leaf], 2, &root)?;
    let (inner, array) = (two_children(4, 4), changed(leaf, 3, 255));
    let want = [
        fault(TreeFault::DoubleClaim, 4),
        fault(TreeFault::DoubleClaim, 4),
    ];
    assert_items(&rt, &[&none, &two_children(3, 0), &inner, &array], 3, &want)
}

#[test]
fn pages_that_are_no_part(rt: HostRuntime) -> Result<(), Fail> {
    let (none, zeros) = ([0; 0], [0; 512]);
    let (leaf, index) = (three_rows(), index_leaf());
    let want = [fault(TreeFault::Absent, 0), fault(TreeFault::Absent, 9)];
    assert_items(&rt, &[&none, &two_children(0, 9), &leaf], 2, &want)?;
    let want = [fault(TreeFault::BadNode, 3), fault(TreeFault::OtherKind, 4)];
    assert_items(&rt, &[&none, &two_children(3, 4), &zeros, &index], 2, &want)?;
    let array = changed(leaf, 3, 255);
    assert_items(&rt, &[&none, &array], 2, &[fault(TreeFault::BadArray, 2)])?;
    let bad = RowItem::Fault {
        kind: TreeFault::BadCell,
        page: 2,
        cell: 0,
    };
    let cell = changed(leaf, 8, 2);
    assert_items(&rt, &[&none, &cell], 2, &[bad, row(2, 1), row(2, 2)])?;
    for root in [0, 1, 7] {
        assert_items(
            &rt,
            &[&none, &leaf],
            root,
            &[fault(TreeFault::Absent, root)],
        )?;
    }
    Ok(())
}

#[test]
fn the_children_of_a_page_of_the_other_kind_count(rt: HostRuntime) -> Result<(), Fail> {
    let none = [0; 0];
    let leaf = three_rows();
    let want = [
        fault(TreeFault::OtherKind, 3),
        fault(TreeFault::DoubleClaim, 4),
    ];
    let sheets: [&[u8]; 4] = [&none, &two_children(3, 4), &index_children(4, 0), &leaf];
    assert_items(&rt, &sheets, 2, &want)
}

#[test]
fn a_tree_as_deep_as_its_pages(rt: HostRuntime) -> Result<(), Fail> {
    let (leaf, inner) = (three_rows(), changed(two_children(0, 0), 4, 0));
    let sheets: [&[u8]; 6] = [
        &leaf,
        &changed(inner, 11, 3),
        &changed(inner, 11, 4),
        &changed(inner, 11, 5),
        &changed(inner, 11, 6),
        &leaf,
    ];
    let rows = [row(6, 0), row(6, 1), row(6, 2)];
    assert_items(&rt, &sheets, 2, &rows)
}
