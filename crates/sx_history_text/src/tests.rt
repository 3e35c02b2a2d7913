//! The text of a moment, over evidence that was written by hand.
ghost use Rattle.std.specs.Prelude.{◌≡◌};

use super::*;
use std::alloc::Global;
use std::process::Abort;
use std::rc::Rc;
use std::test::Fail;
use sx_base::Moment;
use sx_bytes::Encoding;
use sx_edge::Tray;
use sx_header::read_header;
use sx_lines::write_lines;
use sx_moment::{Case, Evidence};

// Zeros up to a place, and then these bytes.
fn put(bytes: &mut Vec<u8>, at: usize, piece: &[u8]) -> Result<(), Fail> {
    for _ in bytes.len()..at {
        bytes.push(0)?;
    }
    bytes.extend_from_slice(piece)?;
    Ok(())
}

// A database of two pages of 512 bytes, whose page 2 is a leaf with a row and a faulty one.
fn two_rows(alloc: Global) -> Result<Vec<u8>, Fail> {
    let mut bytes = Vec::new(alloc);
    put(&mut bytes, 0, b"SQLite format 3\0")?;
    put(&mut bytes, 16, &[2, 0, 1, 1, 0, 64, 32, 32])?;
    put(&mut bytes, 27, &[1, 0, 0, 0, 2])?;
    put(&mut bytes, 95, &[1])?;
    put(
        &mut bytes,
        512,
        &[13, 0, 0, 0, 2, 1, 234, 0, 1, 246, 1, 234],
    )?;
    put(&mut bytes, 1002, &[1, 2, 9])?;
    put(&mut bytes, 1014, &[8, 1, 4, 0, 19, 1, 97, 110, 110, 10])?;
    Ok(bytes)
}

/// Puts the lines of page 2's tree at the file's moment under the rowid 1, once its schema was read.
fn tell_rows(rt: &impl Abort, alloc: Global, case: &Case<'_>, out: &mut Tray) -> Result<(), Fail>
    requires { case.now.header.page_size ≡ 512 }
{
    let mut trees = TreeHistories::new(alloc, case, 1)?;
    trees.read_schema(512, Encoding::Utf8)?;
    assert!(rt; trees.schema().is_some());
    let history = trees.history(512, 2)?;
    let moment = trees.moment();
    let snapshot = trees.snapshot();
    let shape = Rc::new(alloc, None)?;
    let rows = RowLines::new(alloc, snapshot, moment, 512, Encoding::Utf8, shape, history);
    assert_eq!(rt;
        write_lines(alloc, &mut MomentLines::Rows(rows), out),
        Ok(())
    );
    assert!(rt; !trees.next());
    Ok(())
}

/// Puts the line of a moment without the table.
fn tell_lack(rt: &impl Abort, alloc: Global, out: &mut Tray) {
    let mut lacking = MomentLines::Lacking {
        moment: Moment::Commit(2),
        lack: Lack::NoTable,
    };
    assert_eq!(rt; write_lines(alloc, &mut lacking, out), Ok(()));
}

#[test]
fn a_moment_is_told_by_its_rows_or_by_what_it_lacks(rt: HostRuntime) -> Result<(), Fail> {
    let alloc = rt.alloc();
    let bytes = two_rows(alloc)?;
    assert!(rt; bytes.len() <= 4096);
    let header = read_header(&bytes)?;
    let evidence = Evidence {
        database: bytes.as_slice(),
        wal: None,
        journal: None,
    };
    let case = Case::gather(alloc, header, evidence)?;
    assert!(rt; case.header().page_size == 512);
    let mut out = Tray::new(alloc, 1000, 7)?;
    tell_rows(&rt, alloc, &case, &mut out)?;
    tell_lack(&rt, alloc, &mut out);
    let text = "0 row 1 NULL 'ann' 10\n0 rows 1 faults 1\n2 no table\n";
    assert_eq!(rt; out.taken(), text.as_bytes());
    Ok(())
}
