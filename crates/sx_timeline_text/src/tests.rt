//! The whole text, over evidence that was written by hand.
use super::*;
use std::alloc::Global;
use std::test::Fail;
use sx_edge::Tray;
use sx_header::read_header;
use sx_lines::write_lines;
use sx_moment::{Case, Evidence};

// Zeros up to a place, and then these bytes.
fn put(bytes: &mut Vec<u8>, at: usize, piece: &[u8]) -> Result<(), Fail> {
    for _ in bytes.len()..at {
        bytes.push(0)?;
    }
    bytes.extend_from_slice(piece)?;
    Ok(())
}

// A database of one page of 512 bytes without a table, as SQLite first writes it.
fn empty_database(alloc: Global) -> Result<Vec<u8>, Fail> {
    let mut bytes = Vec::new(alloc);
    put(&mut bytes, 0, b"SQLite format 3\0")?;
    put(&mut bytes, 16, &[2, 0, 1, 1, 0, 64, 32, 32])?;
    put(&mut bytes, 27, &[1, 0, 0, 0, 1])?;
    put(&mut bytes, 95, &[1])?;
    put(&mut bytes, 512, &[])?;
    Ok(bytes)
}

#[test]
fn a_database_alone_has_four_lines(rt: HostRuntime) -> Result<(), Fail> {
    let alloc = rt.alloc();
    let bytes = empty_database(alloc)?;
    assert!(rt; bytes.len() <= 4096);
    let header = read_header(&bytes)?;
    let evidence = Evidence {
        database: bytes.as_slice(),
        wal: None,
        journal: Some(b"".as_slice()),
    };
    let case = Case::gather(alloc, header, evidence)?;
    let mut out = Tray::new(alloc, 1000, 7)?;
    let mut lines = TimelineLines::new(&case);
    assert_eq!(rt; write_lines(alloc, &mut lines, &mut out), Ok(()));
    let text =
        "database pagesize 512 usable 512 pages 1\nwal absent frames 0 committed 0 pending 0 foreign 0 broken 0\njournal short records 0 good 0\n0 pages 1 held 1 uncertain 0\n";
    assert_eq!(rt; out.taken(), text.as_bytes());
    Ok(())
}
