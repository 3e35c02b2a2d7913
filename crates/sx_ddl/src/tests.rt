//! Tests of the texts of tables.
use super::read_table;
use std::alloc::{AllocError, Global};
use std::fmt::Write;
use std::process::Abort;
use std::test::Fail;

/// A text's shape in one line, or why it is refused.
fn shown(alloc: Global, sql: &[u8]) -> Result<String, AllocError> {
    let mut line = String::new(alloc);
    match read_table(alloc, sql) {
        Ok(shape) => {
            for name in &shape.names {
                for byte in name {
                    line.push(char::from(*byte))?;
                }
                line.push('|')?;
            }
            write!(line, "{:?} {}", shape.alias, shape.rowid)?;
        }
        Err(refused) => write!(line, "{refused:?}")?,
    }
    Ok(line)
}

/// Asserts what a text gives.
fn gives(rt: &impl Abort, alloc: Global, sql: &[u8], expected: &str) -> Result<(), AllocError> {
    let line = shown(alloc, sql)?;
    assert_eq!(rt; line.as_str(), expected);
    Ok(())
}

#[test]
fn shapes(rt: HostRuntime) -> Result<(), Fail> {
    gives(
        &rt,
        rt.alloc(),
        b"CREATE TABLE t(a INTEGER PRIMARY KEY,b TEXT,c INT)",
        "a|b|c|Some(0) true",
    )?;
    gives(
        &rt,
        rt.alloc(),
        b"create table \"x y\"([a b] integer, 'c''d' int, primary key(\"A B\" desc)) strict;",
        "a b|c'd|Some(0) true",
    )?;
    gives(
        &rt,
        rt.alloc(),
        b"CREATE TABLE t(a INTEGER PRIMARY KEY DESC,b)",
        "a|b|None true",
    )?;
    gives(
        &rt,
        rt.alloc(),
        b"CREATE TABLE t(a INTEGER, b, PRIMARY KEY(a,b)) WITHOUT ROWID",
        "a|b|None false",
    )?;
    gives(
        &rt,
        rt.alloc(),
        b"CREATE TABLE t(a INTEGER(4) PRIMARY KEY)",
        "a|None true",
    )?;
    gives(
        &rt,
        rt.alloc(),
        b"CREATE TABLE t(a INTEGER \"x\" PRIMARY KEY, b;c) /* */ -- x",
        "a|b|Some(0) true",
    )?;
    Ok(())
}

#[test]
fn refusals(rt: HostRuntime) -> Result<(), Fail> {
    gives(&rt, rt.alloc(), b"", "NotTable")?;
    gives(&rt, rt.alloc(), b"CREATE INDEX i ON t(a)", "NotTable")?;
    gives(
        &rt,
        rt.alloc(),
        b"CREATE TABLE t(a,b AS (a+1))",
        "Generated",
    )?;
    gives(&rt, rt.alloc(), b"CREATE TABLE t(a AS (1)", "Generated")?;
    gives(&rt, rt.alloc(), b"CREATE TABLE t", "Unknown(14)")?;
    gives(
        &rt,
        rt.alloc(),
        b"CREATE TABLE t AS SELECT 1",
        "Unknown(15)",
    )?;
    gives(&rt, rt.alloc(), b"CREATE TABLE t()", "Unknown(15)")?;
    gives(&rt, rt.alloc(), b"CREATE TABLE t(,a AS (1))", "Unknown(15)")?;
    gives(&rt, rt.alloc(), b"CREATE TABLE t(UNIQUE(a))", "Unknown(24)")?;
    gives(&rt, rt.alloc(), b"CREATE TABLE \"t(a)", "Unknown(13)")?;
    gives(&rt, rt.alloc(), b"CREATE TABLE t(a) WITHOUT", "Unknown(25)")?;
    gives(
        &rt,
        rt.alloc(),
        b"CREATE TABLE t(a) STRICT,;",
        "Unknown(25)",
    )?;
    Ok(())
}
