//! What refers to each page of small databases, by the public calls over pages in a list.
use crate::{RefTable, Source, references};
use std::alloc::Global;
use std::process::Abort;
use std::test::Fail;
use sx_base::{Layout, Role, Sheets};

/// A page of zeros but for these bytes from `at` on.
fn page_with(rt: &impl Abort, at: usize, bytes: &[u8]) -> [u8; 512] {
    let mut page = [0; 512];
    assert!(rt; at <= page.len() && bytes.len() <= page.len() - at);
    page[at..at + bytes.len()].copy_from_slice(bytes);
    page
}

/// Page 1 with no row in the schema.
fn first(rt: &impl Abort) -> [u8; 512] {
    page_with(rt, 100, b"\x0d")
}

/// A leaf of a table with one row of 1505 bytes, 39 of them in its cell, that goes on at this page.
fn spilled(rt: &impl Abort, next: u8) -> [u8; 512] {
    let mut page = page_with(rt, 0, b"\x0d\x00\x00\x00\x01\x01\xd2\x00\x01\xd2");
    page[466..469].copy_from_slice(b"\x8b\x61\x01");
    page[511] = next;
    page
}

/// A page whose first word is this, as the link of an overflow page is.
fn linked(rt: &impl Abort, link: u8) -> [u8; 512] {
    page_with(rt, 3, &[link])
}

fn layout(pages: u32, pointer_maps: bool, free_head: u32) -> Layout {
    Layout {
        page_size: 512,
        usable: 512,
        pages,
        pointer_maps,
        free_head,
    }
}

/// What the table says of a page: how many references, and of one its role, its source and what is to come of a payload.
type Said = (u64, Option<(Role, Source)>, Option<u32>);

fn said(table: &RefTable, no: u32) -> Said {
    let one = match (table.role_of(no), table.source(no)) {
        (Some(role), Some(source)) => Some((role, source)),
        _ => None,
    };
    (table.count(no), one, table.left(no))
}

fn assert_table(
    rt: &impl Abort,
    alloc: Global,
    sheets: &[&[u8]],
    layout: &Layout,
    roots: &[i64],
    want: &[Said],
    dead: u64,
) -> Result<(), Fail> {
    assert!(rt; sheets.len() <= 6 && layout.page_size == 512 && layout.usable == 512);
    let pages = Sheets::new(512, sheets);
    let table = references(alloc, &pages, layout, roots)?;
    for (place, said_of) in want.iter().enumerate() {
        assert!(rt; place < 6);
        assert_eq!(rt;
            said(&table, place as u32 + 1),
            *said_of,
            "page {}",
            place + 1
        );
    }
    assert_eq!(rt; table.dead(), dead);
    Ok(())
}

const ROOT: Said = (1, Some((Role::Node, Source::Root)), None);

/// A chain of three pages, with this link in the last and a sixth page.
fn assert_chain(
    rt: &impl Abort,
    alloc: Global,
    link: u8,
    fourth: u64,
    fifth: Option<u32>,
    sixth: Said,
) -> Result<(), Fail> {
    let (head, leaf) = (first(rt), spilled(rt, 3));
    let (third, middle, last) = (linked(rt, 4), linked(rt, 5), linked(rt, link));
    let empty = [0; 512];
    let cell = Source::Cell { page: 2, cell: 0 };
    let on = |page| Some((Role::Overflow, Source::Page(page)));
    let fourth = if fourth == 1 {
        (1, on(3), Some(958))
    } else {
        (fourth, None, None)
    };
    assert_table(
        rt,
        alloc,
        &[&head, &leaf, &third, &middle, &last, &empty],
        &layout(6, false, 0),
        &[2],
        &[
            ROOT,
            ROOT,
            (1, Some((Role::Overflow, cell)), Some(1466)),
            fourth,
            (1, on(4), fifth),
            sixth,
        ],
        0,
    )
}

#[test]
fn overflow_pages_are_numbered_from_their_cell(rt: HostRuntime) -> Result<(), Fail> {
    let alloc = rt.alloc();
    assert_chain(&rt, alloc, 0, 1, Some(450), (0, None, None))?;
    // past the payload
    let past = (1, Some((Role::Overflow, Source::Page(5))), Some(0));
    assert_chain(&rt, alloc, 6, 1, Some(450), past)?;
    // in a circle
    assert_chain(&rt, alloc, 4, 2, None, (0, None, None))
}

#[test]
fn a_freelist_and_a_pointer_map(rt: HostRuntime) -> Result<(), Fail> {
    let alloc = rt.alloc();
    let (head, leaf) = (first(&rt), page_with(&rt, 0, b"\x0d"));
    let trunk = page_with(&rt, 7, b"\x02\x00\x00\x00\x04\x00\x00\x00\x00");
    let sheets: [&[u8]; 4] = [&head, &leaf, &trunk, &leaf];
    let want = [
        ROOT,
        (1, Some((Role::PointerMap, Source::Root)), None),
        (1, Some((Role::Trunk, Source::Root)), None),
        (1, Some((Role::FreeLeaf, Source::Page(3))), None),
    ];
    // the leaf 0 is no page
    assert_table(&rt, alloc, &sheets, &layout(4, true, 3), &[], &want, 1)
}
