//! The lines of a page, of absent pages and of a moment without a head.
use super::*;
use std::test::Fail;
use sx_base::{Layout, Sheets};
use sx_edge::Tray;
use sx_lines::write_lines;
use sx_prov::{PageKey, Standing, keyed_map};

#[test]
fn a_page_is_told_by_its_runs(rt: HostRuntime) -> Result<(), Fail> {
    let alloc = rt.alloc();
    let page = [0u8; 512];
    let key = PageKey {
        usable: 500,
        standing: Standing::Body(100),
    };
    let map = keyed_map(alloc, &page, key)?;
    let mut out = Tray::new(alloc, 1000, 1000)?;
    let mut lines = PageMapLines::new(7, map);
    assert_eq!(rt; write_lines(alloc, &mut lines, &mut out), Ok(()));
    let text = "page 7 0 4 link\npage 7 4 100 body\npage 7 104 396 tail\npage 7 500 12 reserved\n";
    assert_eq!(rt; out.taken(), text.as_bytes());
    Ok(())
}

#[test]
fn pages_are_told_in_order_and_then_the_totals(rt: HostRuntime) -> Result<(), Fail> {
    let alloc = rt.alloc();
    let mut head = [0u8; 512];
    head[100] = 13;
    let sheets: [&[u8]; 3] = [&head, b"", b""];
    let pages = Sheets::new(512, &sheets);
    let layout = Layout {
        page_size: 512,
        usable: 512,
        pages: 3,
        pointer_maps: false,
        free_head: 0,
    };
    let mut out = Tray::new(alloc, 1000, 1000)?;
    let mut lines = MapLines::new(alloc, &pages, layout, &[3])?;
    assert_eq!(rt; write_lines(alloc, &mut lines, &mut out), Ok(()));
    let text =
        "page 1 0 100 dbheader\npage 1 100 8 nodeheader\npage 1 108 404 gap\npages 2-3 absent\nbytes 1536 owned 108 slack 404 fault 1024 dead 1\n";
    assert_eq!(rt; out.taken(), text.as_bytes());
    Ok(())
}

#[test]
fn a_moment_without_a_head_has_two_lines(rt: HostRuntime) -> Result<(), Fail> {
    let alloc = rt.alloc();
    let mut out = Tray::new(alloc, 1000, 1000)?;
    let mut lines = HeadlessLines::new(2, 512);
    assert_eq!(rt; write_lines(alloc, &mut lines, &mut out), Ok(()));
    let mut none = HeadlessLines::new(0, 512);
    assert_eq!(rt; write_lines(alloc, &mut none, &mut out), Ok(()));
    let text =
        "pages 1-2 badhead\nbytes 1024 owned 0 slack 0 fault 1024 dead 0\nbytes 0 owned 0 slack 0 fault 0 dead 0\n";
    assert_eq!(rt; out.taken(), text.as_bytes());
    Ok(())
}

#[test]
fn absent_pages_are_one_line(rt: HostRuntime) -> Result<(), Fail> {
    let mut line = String::new(rt.alloc());
    put_absent_line(3, u32::MAX, &mut line)?;
    assert_eq!(rt; line.as_str(), "pages 3-4294967295 absent\n");
    Ok(())
}
