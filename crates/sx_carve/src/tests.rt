//! The candidates of a small database.
use super::*;
use std::alloc::{AllocError, Global};
use std::test::Fail;
use sx_base::Span;
use sx_bytes::can_be_page_size;
use sx_grammar::{Ctx, Form, ShapeKey};
use sx_images::{Lengths, images};
use sx_journal::read_journal;
use sx_moment::Evidence;
use sx_owned::OwnedRuns;
use sx_wal::read_wal;

const SHAPES: [ShapeKey; 1] = [ShapeKey {
    columns: 3,
    alias: true,
}];

/// Two pages of 512 bytes: a whole row in each, and in the first what a deletion left of one.
fn database(alloc: Global) -> Result<Vec<u8>, AllocError> {
    let mut pages = Vec::new(alloc);
    pages.resize(100, 0)?;
    pages.extend_from_slice(b"\x08\x02\x04\x00\x13\x01bob\x14")?;
    pages.resize(200, 0)?;
    pages.extend_from_slice(b"\0\0\0\x14\x04\x00\x13\x01bob\x14")?;
    pages.resize(612, 0)?;
    pages.extend_from_slice(b"\x08\x02\x04\x00\x13\x01bob\x14")?;
    pages.resize(1024, 0)?;
    Ok(pages)
}

#[test]
fn each_image_is_searched_where_nothing_is_owned(rt: HostRuntime) -> Result<(), Fail> {
    let alloc = rt.alloc();
    let bytes = database(alloc)?;
    let lengths = Lengths {
        database: bytes.len() as u64,
        wal: None,
        journal: None,
    };
    if !can_be_page_size(512) || bytes.len() > 10_000 {
        return Err(Fail::from("a page has 512 bytes"));
    }
    let wal = read_wal(alloc, None, 512)?;
    let journal = read_journal(alloc, None, 512)?;
    let table = images(alloc, 512, lengths, &wal, &journal)?;
    let mut owned = OwnedRuns::fresh(alloc, table.count(), 512)?;
    assert_eq!(rt; table.count(), 2);
    assert_eq!(rt; table.page_size(), 512);
    assert_eq!(rt; table.lengths(), lengths);
    owned.add(0, Span { start: 0, len: 100 })?;
    owned.add(1, Span { start: 105, len: 1 })?;
    owned.block(0, 200)?;
    let evidence = Evidence {
        database: &bytes,
        wal: None,
        journal: None,
    };
    let ctx = Ctx {
        usable: 512,
        shapes: &SHAPES,
    };
    let mut found = Candidates::over(evidence, &table, &owned, ctx);
    for (image, at, form) in [(0, 100, Form::Full), (0, 200, Form::Tail(0))] {
        let one = found.next().ok_or("a candidate")?;
        assert_eq!(rt; (one.image, one.at, one.reading.form()), (image, at, form));
    }
    assert!(rt; found.next().is_none());
    Ok(())
}
