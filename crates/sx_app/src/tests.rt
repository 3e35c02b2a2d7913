//! What no worked case can say: evidence too large for a file of the repository, a file without an end, names that are
//! never asked for.
use super::*;
use std::alloc::Global;
use std::test::Fail;
use sx_edge::{Shelf, Tray, names_differ};

mod endless;
mod large;
mod other_names;

// Zeros up to a place, and then these bytes.
fn put(bytes: &mut Vec<u8>, at: usize, piece: &[u8]) -> Result<(), Fail> {
    for _ in bytes.len()..at {
        bytes.push(0)?;
    }
    bytes.extend_from_slice(piece)?;
    Ok(())
}

// A database of two pages of 512 bytes that SQLite could have written: a table `t` with three rows.
fn plain_database(alloc: Global) -> Result<Vec<u8>, Fail> {
    let mut bytes = Vec::new(alloc);
    put(&mut bytes, 0, b"SQLite format 3\0")?;
    put(&mut bytes, 16, &[2, 0, 1, 1, 0, 64, 32, 32])?;
    put(&mut bytes, 27, &[2, 0, 0, 0, 2])?;
    put(&mut bytes, 43, &[1, 0, 0, 0, 4])?;
    put(&mut bytes, 59, &[1])?;
    put(&mut bytes, 95, &[2])?;
    put(&mut bytes, 100, &[13, 0, 0, 0, 1, 1, 190, 0, 1, 190])?;
    put(&mut bytes, 446, &[64, 1, 6, 23, 15, 15, 1, 113])?;
    put(&mut bytes, 454, b"tablett\x02")?;
    put(
        &mut bytes,
        462,
        b"CREATE TABLE t(a INTEGER PRIMARY KEY,b TEXT,c INT)",
    )?;
    put(
        &mut bytes,
        512,
        &[13, 0, 0, 0, 3, 1, 228, 0, 1, 246, 1, 236, 1, 228],
    )?;
    put(&mut bytes, 996, &[6, 3, 4, 0, 17, 0, 99, 121])?;
    put(&mut bytes, 1004, &[8, 2, 4, 0, 19, 1, 98, 111, 98, 20])?;
    put(&mut bytes, 1014, &[8, 1, 4, 0, 19, 1, 97, 110, 110, 10])?;
    Ok(bytes)
}

// A database of one page of 512 bytes without a table, as SQLite first writes it.
fn empty_database(alloc: Global) -> Result<Vec<u8>, Fail> {
    let mut bytes = Vec::new(alloc);
    put(&mut bytes, 0, b"SQLite format 3\0")?;
    put(&mut bytes, 16, &[2, 0, 1, 1, 0, 64, 32, 32])?;
    put(&mut bytes, 27, &[1, 0, 0, 0, 1])?;
    put(&mut bytes, 95, &[1])?;
    put(&mut bytes, 100, &[13, 0, 0, 0, 0, 2, 0, 0])?;
    put(&mut bytes, 512, &[])?;
    Ok(bytes)
}

fn owned(alloc: Global, words: &[&str]) -> Result<Vec<String>, Fail> {
    let mut list = Vec::new(alloc);
    for word in words {
        list.push(String::from_str(alloc, word)?)?;
    }
    Ok(list)
}
