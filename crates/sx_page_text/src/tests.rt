//! The whole text, over evidence that was written by hand.
use super::*;
use std::alloc::Global;
use std::test::Fail;
use sx_base::Moment;
use sx_edge::Tray;
use sx_header::read_header;
use sx_lines::write_lines;
use sx_moment::{Case, Evidence};

// Zeros up to a place, and then these bytes.
fn put(bytes: &mut Vec<u8>, at: usize, piece: &[u8]) -> Result<(), Fail> {
    for _ in bytes.len()..at {
        bytes.push(0)?;
    }
    bytes.extend_from_slice(piece)?;
    Ok(())
}

// A database of one page of 512 bytes: a table's leaf with one cell of 66 bytes, and a freeblock of 12.
fn one_cell(alloc: Global) -> Result<Vec<u8>, Fail> {
    let mut bytes = Vec::new(alloc);
    put(&mut bytes, 0, b"SQLite format 3\0")?;
    put(&mut bytes, 16, &[2, 0, 1, 1, 0, 64, 32, 32])?;
    put(&mut bytes, 27, &[1, 0, 0, 0, 1])?;
    put(&mut bytes, 95, &[1])?;
    put(&mut bytes, 100, &[13, 1, 178, 0, 1, 1, 178, 0, 1, 190])?;
    put(&mut bytes, 434, &[0, 0, 0, 12])?;
    put(&mut bytes, 446, &[64, 1])?;
    put(&mut bytes, 512, &[])?;
    Ok(bytes)
}

#[test]
fn a_page_has_a_line_for_each_thing_on_it(rt: HostRuntime) -> Result<(), Fail> {
    let alloc = rt.alloc();
    let bytes = one_cell(alloc)?;
    assert!(rt; bytes.len() <= 4096);
    let header = read_header(&bytes)?;
    let evidence = Evidence {
        database: bytes.as_slice(),
        wal: None,
        journal: None,
    };
    let case = Case::gather(alloc, header, evidence)?;
    let snapshot = case.snapshot(Moment::File).ok_or("no file")?;
    let mut out = Tray::new(alloc, 1000, 7)?;
    assert_eq!(rt;
        write_lines(alloc, &mut PageLines::new(&snapshot, 1), &mut out),
        Ok(())
    );
    assert_eq!(rt;
        write_lines(alloc, &mut PageLines::new(&snapshot, 2), &mut out),
        Ok(())
    );
    let text =
        "page 1 from database offset 0\nnode leaftable cells 1 freeblock 434 content 434 fragments 0\ncell 0 at 446 bytes 66 payload 64 rowid 1\nfreeblock 0 at 434 bytes 12\npage 2 absent\n";
    assert_eq!(rt; out.taken(), text.as_bytes());
    Ok(())
}
