//! What refers to each of five pages, by the walk from one moment to the next, over pages in a list.
use crate::RefWalk;
use std::alloc::Global;
use std::process::Abort;
use std::test::Fail;
use sx_base::{Layout, Role, Sheets};
use sx_closure::{RefTable, Source};
use sx_refs::references;

/// A page of zeros but for these bytes from `at` on.
fn page_with(rt: &impl Abort, at: usize, bytes: &[u8]) -> [u8; 512] {
    let mut page = [0; 512];
    assert!(rt; at <= page.len() && bytes.len() <= page.len() - at);
    page[at..at + bytes.len()].copy_from_slice(bytes);
    page
}

/// Page 1 with no row in the schema.
fn first(rt: &impl Abort) -> [u8; 512] {
    page_with(rt, 100, b"\x0d")
}

/// A leaf of a table with one row of 1505 bytes, 39 of them in its cell, that goes on at this page.
fn spilled(rt: &impl Abort, next: u8) -> [u8; 512] {
    let mut page = page_with(rt, 0, b"\x0d\x00\x00\x00\x01\x01\xd2\x00\x01\xd2");
    page[466..469].copy_from_slice(b"\x8b\x61\x01");
    page[511] = next;
    page
}

/// A page whose first word is this, as the link of an overflow page is.
fn linked(rt: &impl Abort, link: u8) -> [u8; 512] {
    page_with(rt, 3, &[link])
}

/// An interior page of a table with one cell.
fn interior(rt: &impl Abort, child: u8, right: u8) -> [u8; 512] {
    let mut page = page_with(
        rt,
        0,
        b"\x05\x00\x00\x00\x01\x01\xfb\x00\x00\x00\x00\x00\x01\xfb",
    );
    page[11] = right;
    page[507..].copy_from_slice(&[0, 0, 0, child, 1]);
    page
}

fn layout() -> Layout {
    Layout {
        page_size: 512,
        usable: 512,
        pages: 5,
        pointer_maps: false,
        free_head: 0,
    }
}

/// What the table says of a page: how many references, and of one its role, its source and what is to come of a payload.
type Said = (u64, Option<(Role, Source)>, Option<u32>);

fn said(table: &RefTable, no: u32) -> Said {
    let one = match (table.role_of(no), table.source(no)) {
        (Some(role), Some(source)) => Some((role, source)),
        _ => None,
    };
    (table.count(no), one, table.left(no))
}

/// Whether the walk says of each of the five pages what `references` says, and of how many it may say something else than
/// at the moment before.
fn stands<'a>(
    rt: &impl Abort,
    alloc: Global,
    walk: &RefWalk<'a>,
    sheets: &[&'a [u8]],
    roots: &[i64],
) -> Result<Option<usize>, Fail> {
    let layout = layout();
    assert!(rt; sheets.len() == 5);
    assert!(rt; layout.page_size == 512 && layout.usable == 512);
    let table = references(alloc, &Sheets::new(512, sheets), &layout, roots)?;
    for no in 1..6 {
        assert_eq!(rt; said(walk.table(), no), said(&table, no), "page {}", no);
    }
    assert_eq!(rt; walk.table().dead(), table.dead());
    Ok(match walk.touched() {
        Some(ranks) => Some(ranks.len()),
        None => None,
    })
}

/// Of how many of five pages the table may say something else at the second of two moments than at the first, to which the
/// walk has gone by a step. It is begun so that steps can be followed, or not.
fn walked<'a>(
    rt: &impl Abort,
    alloc: Global,
    follows: bool,
    first: &[&'a [u8]],
    second: &[&'a [u8]],
) -> Result<Option<usize>, Fail> {
    let layout = layout();
    assert!(rt; first.len() == 5);
    assert!(rt; second.len() == 5);
    assert!(rt; layout.page_size == 512 && layout.usable == 512);
    let mut walk = RefWalk::start(
        alloc,
        &Sheets::new(512, first),
        &[1, 2, 3, 4, 5],
        &layout,
        &[2],
        follows,
    )?;
    assert_eq!(rt; stands(rt, alloc, &walk, first, &[2])?, None);
    // nothing is counted where nothing is named otherwise
    walk.advance(&Sheets::new(512, first), &[0, 1, 2, 3, 4], &layout, &[2])?;
    assert_eq!(rt; stands(rt, alloc, &walk, first, &[2])?, Some(0));
    walk.advance(&Sheets::new(512, first), &[0, 1, 2, 3, 4], &layout, &[2, 3])?;
    let touched = stands(rt, alloc, &walk, first, &[2, 3])?;
    assert_eq!(rt; touched.is_some(), follows);
    walk.advance(
        &Sheets::new(512, second),
        &[0, 1, 2, 3, 4],
        &layout,
        &[2, 3],
    )?;
    stands(rt, alloc, &walk, second, &[2, 3])
}

#[test]
fn a_walk_goes_on_with_the_pages_that_changed(rt: HostRuntime) -> Result<(), Fail> {
    let alloc = rt.alloc();
    let (head, leaf) = (first(&rt), page_with(&rt, 0, b"\x0d"));
    let (both, none) = (interior(&rt, 4, 5), interior(&rt, 0, 0));
    let (last, moved) = (interior(&rt, 5, 0), interior(&rt, 4, 0));
    let mut other = leaf;
    other[300] = 1;
    let before: [&[u8]; 5] = [&head, &both, &none, &leaf, &leaf];
    let after: [&[u8]; 5] = [&head, &last, &moved, &leaf, &leaf];
    let written: [&[u8]; 5] = [&head, &last, &moved, &other, &leaf];
    // a leaf moves from one interior page to the other, and then bytes change that name nothing
    assert_eq!(rt; walked(&rt, alloc, false, &before, &after)?, Some(2));
    assert_eq!(rt; walked(&rt, alloc, true, &after, &written)?, Some(0));
    // two interior pages that name each other have lost their root
    let (one, two) = (interior(&rt, 0, 5), interior(&rt, 0, 4));
    let circle: [&[u8]; 5] = [&head, &both, &none, &one, &two];
    let lost: [&[u8]; 5] = [&head, &none, &none, &one, &two];
    assert_eq!(rt; walked(&rt, alloc, false, &circle, &lost)?, None);
    Ok(())
}

#[test]
fn a_walk_numbers_the_pages_of_another_chain(rt: HostRuntime) -> Result<(), Fail> {
    let alloc = rt.alloc();
    let (head, leaf, end) = (first(&rt), page_with(&rt, 0, b"\x0d"), [0; 512]);
    let (some, other) = (spilled(&rt, 4), spilled(&rt, 5));
    let (fifth, fourth) = (linked(&rt, 5), linked(&rt, 4));
    let before: [&[u8]; 5] = [&head, &some, &leaf, &fifth, &end];
    let after: [&[u8]; 5] = [&head, &other, &leaf, &end, &fourth];
    // the page behind the first is listed twice
    assert_eq!(rt; walked(&rt, alloc, true, &before, &after)?, Some(3));
    Ok(())
}
