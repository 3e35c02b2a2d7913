//! What one page of a small database owns.
use super::*;
use std::alloc::{AllocError, Global};
use std::test::Fail;
use sx_base::{Moment, Span};
use sx_bytes::can_be_page_size;
use sx_header::read_header;
use sx_images::{ImageTable, Lengths, images};
use sx_journal::read_journal;
use sx_moment::{Case, Evidence};
use sx_owned::OwnedRuns;
use sx_wal::read_wal;

/// A page 1 of 512 bytes that is a table leaf without cells, with a freeblock of 20 bytes at 300.
fn first_page() -> [u8; 512] {
    let mut page = [0u8; 512];
    page[..24].copy_from_slice(b"SQLite format 3\0\x02\0\x01\x01\0\x40\x20\x20");
    page[56..60].copy_from_slice(&[0, 0, 0, 1]);
    page[100..108].copy_from_slice(&[13, 1, 44, 0, 0, 1, 44, 0]);
    page[300..304].copy_from_slice(&[0, 0, 0, 20]);
    page
}

/// The one image of a database of 512 bytes.
fn table(alloc: Global) -> Result<Option<ImageTable>, AllocError> {
    let lengths = Lengths {
        database: 512,
        wal: None,
        journal: None,
    };
    if !can_be_page_size(512) {
        return Ok(None);
    }
    let wal = read_wal(alloc, None, 512)?;
    let journal = read_journal(alloc, None, 512)?;
    Ok(Some(images(alloc, 512, lengths, &wal, &journal)?))
}

/// The evidence of a database of these bytes, where they begin with a header.
fn case_of(alloc: Global, page: &[u8; 512]) -> Result<Option<Case<'_>>, AllocError> {
    let evidence = Evidence {
        database: page,
        wal: None,
        journal: None,
    };
    let Ok(header) = read_header(page) else {
        return Ok(None);
    };
    Ok(Some(Case::gather(alloc, header, evidence)?))
}

/// What is owned of these images at the file's moment, and what all moments tell of them.
fn swept(
    alloc: Global,
    page: &[u8; 512],
    table: &ImageTable,
) -> Result<Option<(OwnedRuns, Swept)>, AllocError> {
    let Some(case) = case_of(alloc, page)? else {
        return Ok(None);
    };
    if table.page_size() != case.header().page_size {
        return Ok(None);
    }
    let owned = sweep(alloc, &case, table, &[Moment::File])?;
    let all = sweep_all(alloc, &case, table)?;
    Ok(Some((owned, all)))
}

#[test]
fn a_page_owns_its_headers_and_names_its_freeblock(rt: HostRuntime) -> Result<(), Fail> {
    let page = first_page();
    let table = table(rt.alloc())?.ok_or("a page has 512 bytes")?;
    let (owned, all) = swept(rt.alloc(), &page, &table)?.ok_or("a header")?;
    assert_eq!(rt; owned.images(), 1);
    let free = Span {
        start: 108,
        len: 404,
    };
    assert_eq!(rt; owned.unowned(0).next(), Some(free));
    assert!(rt; owned.is_block(0, 300));
    assert!(rt; !owned.is_block(0, 301));
    let totals = [Some(MomentTotals {
        owned: 108,
        slack: 404,
        fault: 0,
        dead: 0,
    })];
    assert_eq!(rt; all.totals.as_slice(), totals.as_slice());
    Ok(())
}
