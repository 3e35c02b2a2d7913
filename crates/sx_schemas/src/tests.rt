//! The schema of a moment, over evidence that was written by hand.
ghost use Rattle.std.specs.Prelude.{◌≡◌};

use super::*;
use std::alloc::Global;
use std::process::Abort;
use std::test::Fail;
use sx_bytes::Encoding;
use sx_header::read_header;
use sx_moment::{Case, Evidence};

// Zeros up to a place, and then these bytes.
fn put(bytes: &mut Vec<u8>, at: usize, piece: &[u8]) -> Result<(), Fail> {
    for _ in bytes.len()..at {
        bytes.push(0)?;
    }
    bytes.extend_from_slice(piece)?;
    Ok(())
}

// A database of one page of 512 bytes: the schema has one table, whose root is page 2.
fn one_table(alloc: Global) -> Result<Vec<u8>, Fail> {
    let mut bytes = Vec::new(alloc);
    put(&mut bytes, 0, b"SQLite format 3\0")?;
    put(&mut bytes, 16, &[2, 0, 1, 1, 0, 64, 32, 32])?;
    put(&mut bytes, 27, &[1, 0, 0, 0, 1])?;
    put(&mut bytes, 95, &[1])?;
    put(&mut bytes, 100, &[13, 0, 0, 0, 1, 1, 223, 0, 1, 223])?;
    put(&mut bytes, 479, &[31, 1, 6, 23, 15, 15, 1, 47])?;
    put(&mut bytes, 487, b"tablett\x02CREATE TABLE t(a)")?;
    Ok(bytes)
}

/// Looks at the roots of the schema at the file's moment.
fn look(rt: &impl Abort, alloc: Global, case: &Case<'_>) -> Result<(), Fail>
    requires { case.now.header.page_size ≡ 512 }
{
    let sweep = case.sweep(alloc)?;
    let here = walk_schema(alloc, &sweep, None, 512, Encoding::Utf8)?;
    assert!(rt; !here.kept);
    assert_eq!(rt; here.walk.schema().roots(), [2].as_slice());
    Ok(())
}

#[test]
fn the_first_moment_has_the_schema_of_its_pages(rt: HostRuntime) -> Result<(), Fail> {
    let alloc = rt.alloc();
    let bytes = one_table(alloc)?;
    assert!(rt; bytes.len() <= 4096);
    let header = read_header(&bytes)?;
    let evidence = Evidence {
        database: bytes.as_slice(),
        wal: None,
        journal: None,
    };
    let case = Case::gather(alloc, header, evidence)?;
    assert!(rt; case.header().page_size == 512);
    look(&rt, alloc, &case)
}
