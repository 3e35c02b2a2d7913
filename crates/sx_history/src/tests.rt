use super::*;
use std::alloc::Global;
use std::process::Abort;
use std::test::Fail;
use sx_base::Sheets;
use sx_bytes::Encoding;

#[test]
fn a_row_is_found_by_its_rowid_and_faults_are_counted(rt: HostRuntime) -> Result<(), Fail> {
    let first = [0u8; 512];
    let mut leaf = [0u8; 512];
    leaf[..12].copy_from_slice(&[13, 0, 0, 0, 2, 1, 234, 0, 1, 246, 1, 234]);
    leaf[490..493].copy_from_slice(&[1, 2, 9]);
    leaf[502..512].copy_from_slice(&[8, 1, 4, 0, 19, 1, b'a', b'n', b'n', 10]);
    let sheets = [first.as_slice(), leaf.as_slice()];
    let pages = Sheets::new(512, &sheets);
    let whole = history(rt.alloc(), &pages, 512, 2, 1)?;
    assert_eq!(rt;
        whole.items(),
        [Found {
            page: 2,
            cell: 0,
            fault: None
        }]
        .as_slice()
    );
    assert_eq!(rt; whole.faults(), 1);
    let faulty = history(rt.alloc(), &pages, 512, 2, 2)?;
    let fault = Some(RowFault::HeaderSize);
    assert_eq!(rt;
        faulty.items(),
        [Found {
            page: 2,
            cell: 1,
            fault
        }]
        .as_slice()
    );
    assert_eq!(rt; faulty.faults(), 1);
    Ok(())
}

// A leaf page of a table with one row, of this rowid and with this byte in its column.
fn one_row(rowid: u8, byte: u8) -> [u8; 512] {
    let mut leaf = [0u8; 512];
    leaf[..10].copy_from_slice(&[13, 0, 0, 0, 1, 1, 251, 0, 1, 251]);
    leaf[507..].copy_from_slice(&[3, rowid, 2, 1, byte]);
    leaf
}

/// How many rows have rowid 1 at the last of three moments of two pages, where those of the second are edited and those of the
/// third others; at the first two moments one row has it.
fn walked<'a>(
    rt: &impl Abort,
    alloc: Global,
    first: &[&'a [u8]],
    edited: &[&'a [u8]],
    other: &[&'a [u8]],
) -> Result<usize, Fail> {
    assert!(rt; first.len() == 2);
    assert!(rt; edited.len() == 2);
    assert!(rt; other.len() == 2);
    let mut walk = HistoryWalk::start(alloc, &Sheets::new(512, first), &[1, 2], 512, 2, 1)?;
    assert_eq!(rt; walk.history().items().len(), 1);
    walk.advance(&Sheets::new(512, edited), &[0, 1], 512, 2)?;
    assert_eq!(rt; walk.history().items().len(), 1);
    walk.advance(&Sheets::new(512, other), &[0, 1], 512, 2)?;
    Ok(walk.history().items().len())
}

#[test]
fn a_walk_keeps_what_an_edit_leaves(rt: HostRuntime) -> Result<(), Fail> {
    let none = [0u8; 512];
    let (first, edited, other) = (one_row(1, 5), one_row(1, 9), one_row(2, 9));
    let last = walked(
        &rt,
        rt.alloc(),
        &[&none, &first],
        &[&none, &edited],
        &[&none, &other],
    )?;
    assert_eq!(rt; last, 0);
    Ok(())
}

// A page 1 of 512 bytes that is a leaf of the schema's tree with one entry: a table `t` whose root is page 2.
fn one_entry() -> [u8; 512] {
    let mut page = [0u8; 512];
    page[100..110].copy_from_slice(&[13, 0, 0, 0, 1, 1, 240, 0, 1, 240]);
    page[496..].copy_from_slice(&[
        14, 1, 6, 23, 15, 15, 1, 0, 116, 97, 98, 108, 101, 116, 116, 2,
    ]);
    page
}

/// How many entries the schema has at the last of three moments of two pages, of which the first two have the same pages and one
/// entry.
fn entries_at_last<'a>(
    rt: &impl Abort,
    alloc: Global,
    first: &[&'a [u8]],
    other: &[&'a [u8]],
) -> Result<usize, Fail> {
    assert!(rt; first.len() == 2);
    assert!(rt; other.len() == 2);
    let utf8 = Encoding::Utf8;
    let pages = Sheets::new(512, first);
    let mut walk = SchemaWalk::start(alloc, &pages, &[1, 2], 512, utf8)?;
    assert_eq!(rt; walk.schema().entries().len(), 1);
    walk.advance(&pages, &[], 512, utf8)?;
    assert_eq!(rt; walk.schema().entries().len(), 1);
    walk.advance(&Sheets::new(512, other), &[0, 1], 512, utf8)?;
    Ok(walk.schema().entries().len())
}

#[test]
fn a_schema_is_kept_until_its_pages_change(rt: HostRuntime) -> Result<(), Fail> {
    let none = [0u8; 512];
    let page = one_entry();
    let last = entries_at_last(&rt, rt.alloc(), &[&page, &none], &[&none, &none])?;
    assert_eq!(rt; last, 0);
    Ok(())
}
