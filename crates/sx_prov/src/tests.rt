//! The labels of pages of small databases, by the public calls over pages in a list.
ghost use Rattle.std.specs.Prelude.{◌≡◌, ◌≤◌};

use crate::{
    Maps, PageKey, PageMap, Standing, Stretch, Stretches, Totals, keyed_map, page_key, page_map,
};
use std::alloc::Global;
use std::process::Abort;
use std::test::Fail;
use sx_base::{Label, Layout, Pages, Sheets, Span};
use sx_refs::{RefTable, references};

/// A page of zeros but for these bytes from `at` on.
fn page_with(rt: &impl Abort, at: usize, bytes: &[u8]) -> [u8; 512] {
    let mut page = [0; 512];
    put(rt, &mut page, at, bytes);
    page
}

fn put(rt: &impl Abort, page: &mut [u8; 512], at: usize, bytes: &[u8]) {
    assert!(rt; at <= page.len() && bytes.len() <= page.len() - at);
    page[at..at + bytes.len()].copy_from_slice(bytes);
}

/// Page 1 with no row in the schema.
fn first(rt: &impl Abort) -> [u8; 512] {
    page_with(rt, 100, b"\x0d")
}

/// A leaf of a table with three rows.
fn three_rows(rt: &impl Abort) -> [u8; 512] {
    let mut page = page_with(
        rt,
        0,
        b"\x0d\x00\x00\x00\x03\x01\xe4\x00\x01\xf6\x01\xec\x01\xe4",
    );
    put(rt, &mut page, 484, b"\x06\x03\x04\x00\x11\x00cy");
    put(rt, &mut page, 492, b"\x08\x02\x04\x00\x13\x01bob\x14");
    put(rt, &mut page, 502, b"\x08\x01\x04\x00\x13\x01ann\x0a");
    page
}

/// A leaf of a table with one row of 1505 bytes, 39 of them in its cell, that goes on at page 3.
fn spilled(rt: &impl Abort) -> [u8; 512] {
    let mut page = page_with(rt, 0, b"\x0d\x00\x00\x00\x01\x01\xd2\x00\x01\xd2");
    put(rt, &mut page, 466, b"\x8b\x61\x01");
    page[511] = 3;
    page
}

fn layout(usable: u32, pages: u32, pointer_maps: bool, free_head: u32) -> Layout {
    Layout {
        page_size: 512,
        usable,
        pages,
        pointer_maps,
        free_head,
    }
}

/// The runs of a map are these, each a start, a length and a label.
fn assert_runs(rt: &impl Abort, map: &PageMap, want: &[(u32, u32, Label)]) {
    let mut runs = map.runs();
    for (start, len, label) in want {
        let span = Span {
            start: *start,
            len: *len,
        };
        assert_eq!(rt; runs.next(), Some((span, *label)));
    }
    assert_eq!(rt; runs.next(), None);
}

/// The runs of page `no` of these pages are these.
fn assert_page(
    rt: &impl Abort,
    alloc: Global,
    sheets: &[&[u8]],
    layout: &Layout,
    no: u32,
    want: &[(u32, u32, Label)],
) -> Result<(), Fail> {
    assert!(rt; sheets.len() <= 6 && layout.page_size == 512);
    assert!(rt; 480 <= layout.usable && layout.usable <= 512);
    let pages = Sheets::new(512, sheets);
    let root = if layout.pointer_maps { 3 } else { 2 };
    let table = references(alloc, &pages, layout, &[root])?;
    let map = page_map(alloc, &pages, &table, layout, no)?;
    assert_runs(rt, &map, want);
    Ok(())
}

#[test]
fn claims_that_meet_overlap(rt: HostRuntime) -> Result<(), Fail> {
    let alloc = rt.alloc();
    let head = first(&rt);
    let mut leaf = three_rows(&rt);
    put(&rt, &mut leaf, 10, b"\x01\xe8");
    let two = layout(512, 2, false, 0);
    let want = [
        (0, 8, Label::NodeHeader),
        (8, 6, Label::Pointers),
        (14, 470, Label::Gap),
        (484, 4, Label::Cell(2)),
        (488, 4, Label::Overlap),
        (492, 10, Label::Cell(1)),
        (502, 5, Label::Overlap),
        (507, 5, Label::Cell(0)),
    ];
    assert_page(&rt, alloc, &[&head, &leaf], &two, 2, &want)?;
    // a cell on a freeblock
    let mut leaf = three_rows(&rt);
    put(&rt, &mut leaf, 1, b"\x01\xec");
    put(&rt, &mut leaf, 10, b"\x01\xe4\x01\xec");
    put(&rt, &mut leaf, 492, b"\x00\x00\x00\x0a");
    let want = [
        (0, 8, Label::NodeHeader),
        (8, 6, Label::Pointers),
        (14, 470, Label::Gap),
        (484, 8, Label::Cell(1)),
        (492, 4, Label::Overlap),
        (496, 6, Label::Freeblock(0)),
        (502, 10, Label::Cell(0)),
    ];
    assert_page(&rt, alloc, &[&head, &leaf], &two, 2, &want)
}

#[test]
fn a_chain_goes_past_its_payload(rt: HostRuntime) -> Result<(), Fail> {
    let alloc = rt.alloc();
    let (head, leaf) = (first(&rt), spilled(&rt));
    let (third, fourth) = (page_with(&rt, 3, b"\x04"), page_with(&rt, 3, b"\x05"));
    let (fifth, sixth) = (page_with(&rt, 3, b"\x06"), [0; 512]);
    let six = layout(512, 6, false, 0);
    let sheets: [&[u8]; 6] = [&head, &leaf, &third, &fourth, &fifth, &sixth];
    let want = [
        (0, 4, Label::Link),
        (4, 450, Label::Body),
        (454, 58, Label::Tail),
    ];
    assert_page(&rt, alloc, &sheets, &six, 5, &want)?;
    assert_page(&rt, alloc, &sheets, &six, 6, &[(0, 512, Label::LongChain)])?;
    // page 4 is named once more
    let circle = page_with(&rt, 3, b"\x04");
    let sheets: [&[u8]; 6] = [&head, &leaf, &third, &fourth, &circle, &sixth];
    assert_page(
        &rt,
        alloc,
        &sheets,
        &six,
        4,
        &[(0, 512, Label::DoubleClaim)],
    )?;
    assert_page(&rt, alloc, &sheets, &six, 5, &[(0, 512, Label::Behind)])?;
    assert_page(&rt, alloc, &sheets, &six, 6, &[(0, 512, Label::Unreached)])
}

#[test]
fn other_pages(rt: HostRuntime) -> Result<(), Fail> {
    let alloc = rt.alloc();
    let (head, leaf) = (first(&rt), three_rows(&rt));
    let trunk = page_with(&rt, 7, b"\x01\x00\x00\x00\x04");
    let sheets: [&[u8]; 4] = [&head, &leaf, &trunk, &leaf];
    let four = layout(480, 4, false, 3);
    let reserved = (480, 32, Label::Reserved);
    let want = [
        (0, 12, Label::TrunkHead),
        (12, 468, Label::TrunkRest),
        reserved,
    ];
    assert_page(&rt, alloc, &sheets, &four, 3, &want)?;
    assert_page(
        &rt,
        alloc,
        &sheets,
        &four,
        4,
        &[(0, 480, Label::FreeLeaf), reserved],
    )?;
    assert_page(&rt, alloc, &sheets, &four, 5, &[(0, 512, Label::Absent)])?;
    let lock = [(0, 512, Label::LockPage)];
    assert_page(&rt, alloc, &sheets, &four, 2_097_153, &lock)?;
    let want = [
        (0, 100, Label::DbHeader),
        (100, 8, Label::NodeHeader),
        (108, 372, Label::Gap),
        reserved,
    ];
    assert_page(&rt, alloc, &sheets, &four, 1, &want)
}

#[test]
fn pages_that_are_not_what_refers_to_them(rt: HostRuntime) -> Result<(), Fail> {
    let alloc = rt.alloc();
    let head = first(&rt);
    let three = layout(512, 3, false, 3);
    let other = page_with(&rt, 0, b"\x03");
    let trunk = page_with(&rt, 7, b"\x7f");
    let sheets: [&[u8]; 3] = [&head, &other, &trunk];
    assert_page(&rt, alloc, &sheets, &three, 2, &[(0, 512, Label::BadNode)])?;
    assert_page(&rt, alloc, &sheets, &three, 3, &[(0, 512, Label::BadTrunk)])?;
    let array = page_with(&rt, 0, b"\x0d\x00\x00\x01\x00");
    let sheets: [&[u8]; 2] = [&head, &array];
    let two = layout(512, 2, false, 0);
    assert_page(&rt, alloc, &sheets, &two, 2, &[(0, 512, Label::BadArray)])?;
    // the first overflow page of a row is the root of the tree too
    let mut leaf = spilled(&rt);
    leaf[511] = 2;
    let sheets: [&[u8]; 2] = [&head, &leaf];
    assert_page(
        &rt,
        alloc,
        &sheets,
        &two,
        2,
        &[(0, 512, Label::DoubleClaim)],
    )?;
    // with pointer maps page 2 is one
    let mapped = layout(512, 3, true, 0);
    let sheets: [&[u8]; 3] = [&head, &other, &array];
    let want = [(0, 510, Label::Entries), (510, 2, Label::MapRest)];
    assert_page(&rt, alloc, &sheets, &mapped, 2, &want)
}

#[test]
fn claims_on_the_header_and_the_array(rt: HostRuntime) -> Result<(), Fail> {
    let alloc = rt.alloc();
    let head = first(&rt);
    let two = layout(512, 2, false, 0);
    // a cell at offset 6, a freeblock of 6 bytes at 10, and a cell content area that begins at 65536
    let leaf = page_with(
        &rt,
        0,
        b"\x0d\x00\x0a\x00\x01\x00\x00\x00\x00\x06\x00\x00\x00\x06",
    );
    let want = [
        (0, 6, Label::NodeHeader),
        (6, 4, Label::Overlap),
        (10, 6, Label::Freeblock(0)),
        (16, 496, Label::Gap),
    ];
    assert_page(&rt, alloc, &[&head, &leaf], &two, 2, &want)
}

/// The places at which maps are kept, asked for one after the other, each by a page and the number of its image.
fn places_of<'a, P: Pages<'a>>(
    alloc: Global,
    pages: &P,
    table: &RefTable,
    layout: &Layout,
    asked: &[(u32, u32)],
) -> Result<Vec<u32>, Fail>
    requires page_size { P.page_size pages.now ≡ layout.now.page_size }
    requires least { 480 ≤ layout.now.usable }
    requires within { layout.now.usable ≤ layout.now.page_size }
    requires small { layout.now.page_size ≤ 65536 }
{
    let mut maps = Maps::fresh(alloc)?;
    let mut places = Vec::new(alloc);
    for (no, image) in asked {
        if pages.page(*no).is_some() && *no != layout.lock_page() {
            places.push(maps.place_of(pages, table, layout, *no, *image)?)?;
            let _kept = maps.map_of(pages, table, layout, *no, *image)?;
        }
    }
    Ok(places)
}

#[test]
fn maps_are_kept_by_image_key_and_bytes(rt: HostRuntime) -> Result<(), Fail> {
    let alloc = rt.alloc();
    let (head, leaf) = (first(&rt), three_rows(&rt));
    let mut freed = three_rows(&rt);
    put(&rt, &mut freed, 1, b"\x01\xec\x00\x02");
    put(&rt, &mut freed, 10, b"\x01\xe4");
    put(&rt, &mut freed, 492, b"\x00\x00\x00\x0a");
    let three = layout(512, 3, false, 0);
    assert!(rt; three.page_size == 512 && three.usable == 512);
    let sheets: [&[u8]; 3] = [&head, &freed, &leaf];
    let pages = Sheets::new(512, &sheets);
    let table = references(alloc, &pages, &three, &[2, 3])?;
    // the same page twice, other bytes of its image, another image
    let asked = [(2, 1), (2, 1), (3, 1), (3, 2), (2, 1)];
    let places = places_of(alloc, &pages, &table, &three, &asked)?;
    assert_eq!(rt; places.as_slice(), [0, 0, 1, 2, 0].as_slice());
    Ok(())
}

#[test]
fn a_page_of_65536_bytes(rt: HostRuntime) -> Result<(), Fail> {
    let page = vec![in rt.alloc(); 0u8; 65536]?;
    let key = PageKey {
        usable: 65536,
        standing: Standing::Body(65532),
    };
    if page.len() != 65536 {
        return Err(Fail::from("the page has 65536 bytes"));
    }
    let map = keyed_map(rt.alloc(), &page, key)?;
    assert_runs(&rt, &map, &[(0, 4, Label::Link), (4, 65532, Label::Body)]);
    Ok(())
}

#[test]
fn a_key_says_the_labels(rt: HostRuntime) -> Result<(), Fail> {
    let alloc = rt.alloc();
    let (head, leaf) = (first(&rt), three_rows(&rt));
    let two = layout(512, 2, false, 0);
    assert!(rt; two.page_size == 512 && two.usable == 512);
    let sheets: [&[u8]; 2] = [&head, &leaf];
    let pages = Sheets::new(512, &sheets);
    let table = references(alloc, &pages, &two, &[2])?;
    let key = PageKey {
        usable: 512,
        standing: Standing::Node,
    };
    assert_eq!(rt; page_key(&pages, &table, &two, 2), key);
    let map = keyed_map(alloc, &leaf, key)?;
    assert!(rt; map.label_at(0) == Label::NodeHeader && map.label_at(14) == Label::Gap);
    assert!(rt; map.label_at(13) == Label::Pointers && map.label_at(511) == Label::Cell(0));
    assert!(rt; map.totals().owned == 42 && map.totals().slack == 470);
    let bodied = PageKey {
        usable: 480,
        standing: Standing::Body(100),
    };
    let map = keyed_map(alloc, &leaf, bodied)?;
    assert_eq!(rt;
        map.totals(),
        Totals {
            owned: 136,
            slack: 376,
            fault: 0
        }
    );
    let mut runs = map.into_runs();
    let first = Span { start: 0, len: 4 };
    assert_eq!(rt; runs.next(), Some((first, Label::Link)));
    Ok(())
}

#[test]
fn absent_pages_stand_between_present_ones(rt: HostRuntime) {
    let head = first(&rt);
    let sheets: [&[u8]; 6] = [b"", &head, b"", b"", &head, b""];
    let pages = Sheets::new(512, &sheets);
    let six = layout(512, 6, false, 0);
    assert!(rt; six.page_size == 512);
    let mut stretches = Stretches::start(&pages, &six);
    for want in [
        Stretch::Absent { first: 1, last: 1 },
        Stretch::Present(2),
        Stretch::Absent { first: 3, last: 4 },
        Stretch::Present(5),
        Stretch::Absent { first: 6, last: 6 },
    ] {
        assert_eq!(rt; stretches.next(), Some(want));
    }
    assert_eq!(rt; stretches.next(), None);
}
