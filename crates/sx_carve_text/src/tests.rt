//! The lines of candidates of each kind.
use super::*;
use std::alloc::{AllocError, Global};
use std::test::Fail;
use sx_base::Span;
use sx_bytes::{Encoding, can_be_page_size};
use sx_edge::Tray;
use sx_grammar::{Ctx, ShapeKey};
use sx_images::{Lengths, images};
use sx_journal::read_journal;
use sx_lines::write_lines;
use sx_moment::Evidence;
use sx_owned::OwnedRuns;
use sx_wal::read_wal;

const SHAPES: [ShapeKey; 1] = [ShapeKey {
    columns: 3,
    alias: true,
}];

/// Two pages of 512 bytes: in the first a whole row and two that lost their first four bytes, one of them its first type
/// too; in the second a row whose one blob goes on in page 3.
fn database(alloc: Global) -> Result<Vec<u8>, AllocError> {
    let mut pages = Vec::new(alloc);
    pages.resize(100, 0)?;
    pages.extend_from_slice(b"\x08\x02\x04\x00\x13\x01bob\x14")?;
    pages.resize(200, 0)?;
    pages.extend_from_slice(b"\0\0\0\x0d\x05\x04\x00\x13\x01bob\x14")?;
    pages.resize(300, 0)?;
    pages.extend_from_slice(b"\0\0\0\x0a\x13\x01bob\x14")?;
    pages.resize(612, 0)?;
    pages.extend_from_slice(b"\x8b\x61\x01\x03\x97\x48")?;
    pages.resize(654, 0x55)?;
    pages.extend_from_slice(b"\0\0\0\x03")?;
    pages.resize(1024, 0)?;
    Ok(pages)
}

#[test]
fn a_line_tells_where_a_candidate_stands_and_what_it_reads(rt: HostRuntime) -> Result<(), Fail> {
    let alloc = rt.alloc();
    let bytes = database(alloc)?;
    let lengths = Lengths {
        database: bytes.len() as u64,
        wal: None,
        journal: None,
    };
    if !can_be_page_size(512) || bytes.len() > 10_000 {
        return Err(Fail::from("a page has 512 bytes"));
    }
    let wal = read_wal(alloc, None, 512)?;
    let journal = read_journal(alloc, None, 512)?;
    let table = images(alloc, 512, lengths, &wal, &journal)?;
    let mut owned = OwnedRuns::fresh(alloc, table.count(), 512)?;
    assert_eq!(rt; table.count(), 2);
    assert_eq!(rt; table.page_size(), 512);
    assert_eq!(rt; table.lengths(), lengths);
    owned.add(0, Span { start: 0, len: 100 })?;
    let evidence = Evidence {
        database: &bytes,
        wal: None,
        journal: None,
    };
    let ctx = Ctx {
        usable: 512,
        shapes: &SHAPES,
    };
    let mut lines = CarveLines::new(evidence, &table, &owned, ctx, Encoding::Utf8);
    let mut out = Tray::new(alloc, 1000, 1000)?;
    assert_eq!(rt; write_lines(alloc, &mut lines, &mut out), Ok(()));
    let text = "database 100 10 full page 1 file rowid 2 NULL 'bob' 20\n\
        database 200 13 tail1 page 1 file rowid ? NULL 'bob' 20\n\
        database 300 10 lost3a page 1 file rowid ? ? 'bob' 20\n\
        database 612 46 full page 2 file rowid 1 ... overflow 3\n\
        candidates 4\n";
    assert_eq!(rt; out.taken(), text.as_bytes());
    Ok(())
}
