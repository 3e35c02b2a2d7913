//! Payloads in pages of 512 bytes: whole, cut short, in a circle, and with nothing on overflow pages.
//!
//! The longest payload that is wholly local has 477 bytes there, the least local part of a longer one 39 bytes, and an
//! overflow page holds 508.

use super::*;
use std::alloc::Global;
use std::process::Abort;
use std::test::Fail;
use sx_base::Sheets;
use sx_cell::{Kind, read_cell};

/// Where the cells of these tests begin.
const AT: u32 = 12;

/// A page of zeros with a cell of a table: the length of its payload, the rowid 1, the local part of so many bytes 0x55,
/// and page 3 as its first overflow page.
fn leaf(rt: &impl Abort, payload: &[u8], local: usize) -> [u8; 512] {
    let mut page = [0; 512];
    let front = 12 + payload.len();
    assert!(rt; payload.len() <= 9 && local <= 477);
    page[12..front].copy_from_slice(payload);
    page[front] = 1;
    for place in front + 1..front + 1 + local {
        page[place] = 0x55;
    }
    page[front + 1 + local + 3] = 3;
    page
}

/// An overflow page that is full of one byte, with its link.
fn overflow_page(link: Option<u8>, byte: u8) -> [u8; 512] {
    let mut page = [byte; 512];
    page[..4].copy_from_slice(&[0, 0, 0, link.unwrap_or(0)]);
    page
}

/// The sheet of a page, empty where it has no view.
fn sheet(page: &[u8; 512], link: Option<u8>) -> &[u8] {
    if link.is_some() { page } else { &page[..0] }
}

/// The lengths of the pieces of the cell on page 2, and whether a short chain is answered after them, twice.
fn pieces_in(
    rt: &impl Abort,
    alloc: Global,
    sheets: &[&[u8]],
    kind: Kind,
) -> Result<(Vec<usize>, bool), Fail> {
    assert!(rt; sheets.len() == 5);
    let page = sheets[1];
    assert!(rt; page.len() == 512);
    let pages = Sheets::new(512, sheets);
    let cell = read_cell(kind, page, AT, 512).map_err(|_| "no cell")?;
    let mut payload = Payload::of(&pages, page, &cell, 512);
    let mut lens = Vec::new(alloc);
    for _ in 0..9 {
        match payload.next_piece() {
            Ok(Some(piece)) => lens.push(piece.len())?,
            Ok(None) => {
                assert!(rt; payload.next_piece() == Ok(None));
                return Ok((lens, false));
            }
            Err(ShortChain) => {
                assert!(rt; payload.next_piece() == Err(ShortChain));
                return Ok((lens, true));
            }
        }
    }
    Err(Fail::from("too many pieces"))
}

/// The same where page 2 is `page` and pages 3 to 5 have these links.
fn pieces(
    rt: &impl Abort,
    alloc: Global,
    page: [u8; 512],
    kind: Kind,
    links: [Option<u8>; 3],
) -> Result<(Vec<usize>, bool), Fail> {
    let [third, fourth, fifth] = links;
    let pages = [
        overflow_page(third, 0x33),
        overflow_page(fourth, 0x44),
        overflow_page(fifth, 0x66),
    ];
    let sheets = [
        sheet(&page, None),
        sheet(&page, Some(3)),
        sheet(&pages[0], third),
        sheet(&pages[1], fourth),
        sheet(&pages[2], fifth),
    ];
    pieces_in(rt, alloc, &sheets, kind)
}

/// What `gather` answers for the cell on page 2 after so many pieces were taken.
fn gathered_in(
    rt: &impl Abort,
    alloc: Global,
    sheets: &[&[u8]],
    taken: u32,
) -> Result<Result<Vec<u8>, PayloadRefused>, Fail> {
    assert!(rt; sheets.len() == 5);
    let page = sheets[1];
    assert!(rt; page.len() == 512);
    let pages = Sheets::new(512, sheets);
    let cell = read_cell(Kind::TableLeaf, page, AT, 512).map_err(|_| "no cell")?;
    let mut payload = Payload::of(&pages, page, &cell, 512);
    for _ in 0..taken {
        let _ = payload.next_piece();
    }
    Ok(payload.gather(alloc))
}

/// The same where page 2 is `page` and pages 3 to 5 have these links.
fn gathered(
    rt: &impl Abort,
    alloc: Global,
    page: [u8; 512],
    links: [Option<u8>; 3],
    taken: u32,
) -> Result<Result<Vec<u8>, PayloadRefused>, Fail> {
    let [third, fourth, fifth] = links;
    let pages = [
        overflow_page(third, 0x33),
        overflow_page(fourth, 0x44),
        overflow_page(fifth, 0x66),
    ];
    let sheets = [
        sheet(&page, None),
        sheet(&page, Some(3)),
        sheet(&pages[0], third),
        sheet(&pages[1], fourth),
        sheet(&pages[2], fifth),
    ];
    gathered_in(rt, alloc, &sheets, taken)
}

#[test]
fn a_chain_is_followed_for_as_many_pages_as_are_needed(rt: HostRuntime) -> Result<(), Fail> {
    let page = leaf(&rt, &[0x8b, 0x61], 39);
    let whole = [39, 508, 508, 450];
    for (links, count, short) in [
        ([Some(4), Some(5), Some(0)], 4, false),
        ([Some(4), Some(4), None], 4, false),
        ([Some(4), Some(3), None], 4, false),
        ([Some(4), Some(0), Some(0)], 3, true),
        ([Some(4), Some(9), Some(0)], 3, true),
        ([Some(4), None, Some(0)], 2, true),
        ([Some(4), None, None], 1, true),
    ] {
        let told = pieces(&rt, rt.alloc(), page, Kind::TableLeaf, links)?;
        assert!(rt;
            told.0.as_slice() == &whole[..count] && told.1 == short,
            "{links:?}: {told:?}"
        );
    }
    Ok(())
}

#[test]
fn a_payload_ends_with_its_cell_or_with_a_page(rt: HostRuntime) -> Result<(), Fail> {
    for (payload, local, count, links) in [
        ([0x88, 0x1f], 39, 3, [Some(4), Some(0), None]),
        ([0x88, 0x20], 40, 3, [Some(4), Some(0), None]),
        ([0x83, 0x5d], 477, 1, [None, None, None]),
        ([0x80, 0x00], 0, 0, [None, None, None]),
    ] {
        let page = leaf(&rt, &payload, local);
        let told = pieces(&rt, rt.alloc(), page, Kind::TableLeaf, links)?;
        let whole = [local, 508, 508];
        assert!(rt;
            told.0.as_slice() == &whole[..count] && !told.1,
            "{payload:?}: {told:?}"
        );
    }
    let page = leaf(&rt, &[0x88, 0x1f], 39);
    let inner = pieces(&rt, rt.alloc(), page, Kind::TableInner, [None, None, None])?;
    assert!(rt; inner.0.is_empty() && !inner.1);
    Ok(())
}

#[test]
fn what_is_to_come_is_gathered(rt: HostRuntime) -> Result<(), Fail> {
    let page = leaf(&rt, &[0x8b, 0x61], 39);
    let mut whole = vec![in rt.alloc(); 0x55u8; 39]?;
    for (byte, count) in [(0x33, 508), (0x44, 508), (0x66, 450)] {
        for _ in 0..count {
            whole.push(byte)?;
        }
    }
    assert!(rt; whole.len() == 1505);
    for (taken, from) in [(0, 0), (1, 39), (3, 1055), (4, 1505), (9, 1505)] {
        let bytes = gathered(&rt, rt.alloc(), page, [Some(4), Some(5), Some(0)], taken)?.map_err(
            |_| "refused",
        )?;
        assert!(rt; bytes.as_slice() == &whole[from..], "after {taken} pieces");
    }
    Ok(())
}

#[test]
fn a_short_chain_is_refused(rt: HostRuntime) -> Result<(), Fail> {
    let page = leaf(&rt, &[0x8b, 0x61], 39);
    let greatest = leaf(&rt, &[0x87, 0xff, 0xff, 0xff, 0x7f], 39);
    for taken in [0, 1, 9] {
        let cut = gathered(&rt, rt.alloc(), page, [Some(4), Some(0), Some(0)], taken)?;
        assert_eq!(rt; cut.err(), Some(PayloadRefused::ShortChain));
        let few = gathered(&rt, rt.alloc(), page, [Some(4), None, None], taken)?;
        assert_eq!(rt; few.err(), Some(PayloadRefused::ShortChain));
        let claimed = gathered(
            &rt,
            rt.alloc(),
            greatest,
            [Some(4), Some(5), Some(3)],
            taken,
        )?;
        assert_eq!(rt; claimed.err(), Some(PayloadRefused::ShortChain));
    }
    let links = [Some(4), Some(5), Some(3)];
    let told = pieces(&rt, rt.alloc(), greatest, Kind::TableLeaf, links)?;
    assert!(rt; told.0.as_slice() == [39].as_slice() && told.1);
    Ok(())
}

#[test]
fn bytes_are_appended_to_those_that_were_there(rt: HostRuntime) -> Result<(), Fail> {
    let (page, third) = (leaf(&rt, &[0x83, 0x5e], 39), overflow_page(Some(0), 0x33));
    for (link, short) in [(Some(3), false), (None, true)] {
        let sheets = [
            sheet(&page, None),
            sheet(&page, Some(3)),
            sheet(&third, link),
        ];
        let pages = Sheets::new(512, &sheets);
        let cell = read_cell(Kind::TableLeaf, &page, AT, 512).map_err(|_| "no cell")?;
        let payload = Payload::of(&pages, &page, &cell, 512);
        assert!(rt; payload.is_whole() != short);
        let mut bytes = vec![in rt.alloc(); 0x99u8; 1]?;
        let refused = payload.gather_into(&mut bytes).err();
        assert!(rt;
            refused
                == if short {
                    Some(PayloadRefused::ShortChain)
                } else {
                    None
                }
        );
        assert_eq!(rt; bytes.len(), if short { 1 } else { 479 });
        assert_eq!(rt; bytes.last(), Some(if short { &0x99 } else { &0x33 }));
    }
    Ok(())
}

#[test]
fn a_local_payload_is_a_borrow_of_its_page(rt: HostRuntime) -> Result<(), Fail> {
    let page = leaf(&rt, &[0x83, 0x5d], 477);
    let cell = read_cell(Kind::TableLeaf, &page, AT, 512).map_err(|_| "no cell")?;
    let local = as_local(&page, &cell, 512).ok_or("the payload is local")?;
    assert!(rt; local == &page[15..492]);
    let page = leaf(&rt, &[0x83, 0x5e], 39);
    let cell = read_cell(Kind::TableLeaf, &page, AT, 512).map_err(|_| "no cell")?;
    assert!(rt; as_local(&page, &cell, 512).is_none());
    Ok(())
}

#[test]
fn chains_are_counted(rt: HostRuntime) {
    let (third, fourth, fifth) = (
        overflow_page(Some(4), 0x33),
        overflow_page(Some(0), 0x44),
        overflow_page(Some(5), 0x55),
    );
    let sheets = [
        sheet(&third, None),
        sheet(&third, None),
        sheet(&third, Some(3)),
        sheet(&fourth, Some(4)),
        sheet(&fifth, Some(5)),
    ];
    let pages = Sheets::new(512, &sheets);
    for (link, most, want) in [
        (3, 9, 2),
        (3, 1, 1),
        (4, 9, 1),
        (5, 9, 9),
        (0, 9, 0),
        (1, 9, 0),
    ] {
        assert_eq!(rt; chain_len(&pages, link, most), want, "from {link}");
    }
}
