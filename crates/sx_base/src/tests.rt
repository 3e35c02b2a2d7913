//! Pointer maps round the lock-byte page, and the pages of a list of sheets.

use super::*;
use std::alloc::Global;
use std::test::Fail;

#[test]
fn a_pointer_map_makes_way_for_the_lock_byte_page(rt: HostRuntime) {
    let layout = Layout {
        page_size: 1024,
        usable: 1024,
        pages: 1_048_900,
        pointer_maps: true,
        free_head: 0,
    };
    assert_eq!(rt; layout.lock_page(), 1_048_577);
    for (page, map) in [
        (0, false),
        (1, false),
        (2, true),
        (3, false),
        (207, true),
        (1_048_577, false),
        (1_048_578, true),
        (1_048_782, true),
        (1_048_783, false),
        (u32::MAX, false),
    ] {
        assert_eq!(rt; layout.is_map(page), map, "page {page}");
    }
    let plain = Layout {
        pointer_maps: false,
        ..layout
    };
    assert!(rt; !plain.is_map(2) && !plain.is_map(1_048_578));
}

#[test]
fn a_pointer_map_elsewhere_stays(rt: HostRuntime) {
    let layout = Layout {
        page_size: 65536,
        usable: 480,
        pages: 0,
        pointer_maps: true,
        free_head: 0,
    };
    assert_eq!(rt; layout.lock_page(), 16385);
    for (page, map) in [
        (2, true),
        (98, false),
        (99, true),
        (16385, false),
        (16386, false),
        (16395, true),
    ] {
        assert_eq!(rt; layout.is_map(page), map, "page {page}");
    }
}

/// The numbers of the pages that a walk from page 0 on meets.
fn walked<'a, P: Pages<'a>>(alloc: Global, pages: &P) -> Result<Vec<u32>, Fail> {
    let mut met = Vec::new(alloc);
    let mut at = 0;
    for _ in 0..pages.held() {
        let no = pages.next_held(at).ok_or("a page is missing")?;
        met.push(no)?;
        at = no;
    }
    Ok(met)
}

#[test]
fn sheets_of_another_length_are_no_views(rt: HostRuntime) -> Result<(), Fail> {
    let sheets: [&[u8]; 6] = [b"", b"two.", b"three", b"four", b"6", b"last"];
    let pages = Sheets::new(4, &sheets);
    assert_eq!(rt; pages.size(), 6);
    assert_eq!(rt; pages.held(), 3);
    assert_eq!(rt;
        walked(rt.alloc(), &pages)?.as_slice(),
        [2, 4, 6].as_slice()
    );
    for (page, view) in [
        (0, None),
        (1, None),
        (2, Some(b"two.".as_slice())),
        (3, None),
        (6, Some(b"last".as_slice())),
        (7, None),
        (u32::MAX, None),
    ] {
        assert!(rt; pages.page(page) == view, "page {page}");
    }
    assert_eq!(rt; pages.next_held(6), None);
    assert_eq!(rt; pages.next_held(u32::MAX), None);
    Ok(())
}

#[test]
fn held_pages_by_place(rt: HostRuntime) {
    let sheets: [&[u8]; 4] = [b"one.", b"", b"3...", b"four"];
    let pages = Sheets::new(4, &sheets);
    for (place, page, bytes) in [(0, 1, b"one."), (1, 3, b"3..."), (2, 4, b"four")] {
        assert!(rt; place < pages.held());
        assert_eq!(rt; pages.held_at(place), page);
        assert!(rt; pages.page(page) == Some(bytes.as_slice()));
    }
}
