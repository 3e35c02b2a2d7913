//! Cells of each kind and at each bound. Local lengths were computed by a script of another language.
use super::*;
use std::process::Abort;
use std::test::Fail;

const NOTHING: Cell = Cell {
    at: 0,
    len: 0,
    child: None,
    rowid: None,
    payload: 0,
    local_at: 0,
    local: 0,
    overflow: None,
};

/// A page of 512 bytes, zero but for these from `at` on.
fn page_with(rt: &impl Abort, at: usize, bytes: &[u8]) -> [u8; 512] {
    let mut page = [0; 512];
    assert!(rt; at <= page.len() && bytes.len() <= page.len() - at);
    page[at..at + bytes.len()].copy_from_slice(bytes);
    page
}

fn assert_cell(rt: &impl Abort, kind: Kind, bytes: &[u8], want: Cell) {
    let page = page_with(rt, want.at as usize, bytes);
    assert_eq!(rt;
        read_cell(kind, &page, want.at, 512),
        Ok(want),
        "a {kind:?} of {bytes:?}"
    );
}

fn assert_fault(rt: &impl Abort, kind: Kind, at: u32, usable: u32, bytes: &[u8], want: CellFault) {
    assert!(rt; at < 512 && usable >= 480 && usable <= 512);
    let page = page_with(rt, at as usize, bytes);
    let read = read_cell(kind, &page, at, usable);
    assert_eq!(rt;
        read,
        Err(want),
        "a {kind:?} of {bytes:?} at {at} of {usable}"
    );
}

#[test]
fn each_kind_is_read(rt: HostRuntime) {
    let row = [
        0x08, 0x81, 0x00, 0x04, 0x00, 0x13, 0x01, b'a', b'n', b'n', 0x0a,
    ];
    let want = Cell {
        at: 501,
        len: 11,
        rowid: Some(128),
        payload: 8,
        local_at: 504,
        local: 8,
        ..NOTHING
    };
    assert_cell(&rt, Kind::TableLeaf, &row, want);
    let minus = [0x00, 0xff, 0xff, 0xff, 0xff, 0xff, 0xff, 0xff, 0xff, 0xfe];
    let want = Cell {
        at: 502,
        len: 10,
        rowid: Some(-2),
        local_at: 512,
        ..NOTHING
    };
    assert_cell(&rt, Kind::TableLeaf, &minus, want);
    let inner = [0x00, 0x00, 0x00, 0x03, 0x01];
    let want = Cell {
        at: 507,
        len: 5,
        child: Some(3),
        rowid: Some(1),
        local_at: 512,
        ..NOTHING
    };
    assert_cell(&rt, Kind::TableInner, &inner, want);
    let entry = [0x03, 0x02, 0x01, 0x07];
    let want = Cell {
        at: 508,
        len: 4,
        payload: 3,
        local_at: 509,
        local: 3,
        ..NOTHING
    };
    assert_cell(&rt, Kind::IndexLeaf, &entry, want);
    let inner = [0xff, 0xff, 0xff, 0xff, 0x03, 0x02, 0x01, 0x07];
    let want = Cell {
        at: 504,
        len: 8,
        child: Some(u32::MAX),
        payload: 3,
        local_at: 509,
        local: 3,
        ..NOTHING
    };
    assert_cell(&rt, Kind::IndexInner, &inner, want);
    let short = [0x01, 0x09];
    let want = Cell {
        at: 508,
        len: 4,
        payload: 1,
        local_at: 509,
        local: 1,
        ..NOTHING
    };
    assert_cell(&rt, Kind::IndexLeaf, &short, want);
}

#[test]
fn a_longer_payload_names_its_first_overflow_page(rt: HostRuntime) {
    let mut row = [0x11; 99];
    row[..3].copy_from_slice(&[0x84, 0x58, 0x07]);
    row[95..].copy_from_slice(&[0x00, 0x00, 0x00, 0x09]);
    let want = Cell {
        at: 413,
        len: 99,
        rowid: Some(7),
        payload: 600,
        local_at: 416,
        local: 92,
        overflow: Some(9),
        ..NOTHING
    };
    assert_cell(&rt, Kind::TableLeaf, &row, want);
    assert_fault(&rt, Kind::TableLeaf, 413, 511, &row, CellFault::Outside);
    let mut entry = [0x11; 45];
    entry[..2].copy_from_slice(&[0x80, 0x67]);
    entry[41..].copy_from_slice(&[0x00, 0x00, 0x00, 0x00]);
    let want = Cell {
        at: 467,
        len: 45,
        payload: 103,
        local_at: 469,
        local: 39,
        overflow: Some(0),
        ..NOTHING
    };
    assert_cell(&rt, Kind::IndexLeaf, &entry, want);
}

#[test]
fn the_rest_of_a_payload_needs_overflow_pages(rt: HostRuntime) {
    for (payload, spilled, pages) in [(39, 0, 0), (547, 508, 1), (548, 509, 2), (20, 0, 0)] {
        let cell = Cell {
            payload,
            local: 39,
            ..NOTHING
        };
        assert_eq!(rt; (cell.spilled(), cell.need(512)), (spilled, pages));
    }
}

#[test]
fn kinds_are_of_tables_and_interior(rt: HostRuntime) {
    for (kind, table, inner) in [
        (Kind::TableLeaf, true, false),
        (Kind::TableInner, true, true),
        (Kind::IndexLeaf, false, false),
        (Kind::IndexInner, false, true),
    ] {
        let told = (kind.is_table(), kind.is_inner(), kind.has_child());
        assert_eq!(rt; told, (table, inner, inner));
    }
}

#[test]
fn the_first_fault_is_answered(rt: HostRuntime) {
    let above = [0x88, 0x80, 0x80, 0x80, 0x00];
    let most = [0x87, 0xff, 0xff, 0xff, 0x7f, 0x01];
    assert_fault(&rt, Kind::TableLeaf, 484, 512, &above, CellFault::TooLong);
    assert_fault(&rt, Kind::TableLeaf, 507, 512, &above, CellFault::TooLong);
    assert_fault(&rt, Kind::IndexLeaf, 507, 512, &above, CellFault::TooLong);
    assert_fault(
        &rt,
        Kind::IndexLeaf,
        508,
        512,
        &[0x88, 0x80, 0x80, 0x80],
        CellFault::Outside,
    );
    assert_fault(
        &rt,
        Kind::IndexInner,
        510,
        512,
        &[0x00, 0x00],
        CellFault::Outside,
    );
    assert_fault(&rt, Kind::TableLeaf, 484, 512, &most, CellFault::Outside);
    assert_fault(&rt, Kind::TableLeaf, 511, 512, &[0x0a], CellFault::Outside);
    assert_fault(
        &rt,
        Kind::TableInner,
        508,
        512,
        &[0x00, 0x00, 0x00, 0x03],
        CellFault::Outside,
    );
    assert_fault(
        &rt,
        Kind::IndexLeaf,
        509,
        512,
        &[0x01, 0x09],
        CellFault::Outside,
    );
    assert_fault(
        &rt,
        Kind::IndexLeaf,
        477,
        480,
        &[0x01, 0x09],
        CellFault::Outside,
    );
    assert_fault(
        &rt,
        Kind::IndexLeaf,
        500,
        480,
        &[0x01, 0x09],
        CellFault::Outside,
    );
    assert_fault(&rt, Kind::IndexLeaf, 484, 512, &most, CellFault::Outside);
    let longest = Cell {
        at: 464,
        len: 48,
        payload: 2147483647,
        local_at: 469,
        local: 39,
        overflow: Some(0),
        ..NOTHING
    };
    assert_cell(&rt, Kind::IndexLeaf, &most, longest);
    let page = page_with(&rt, 464, &most);
    assert_eq!(rt;
        read_cell(Kind::IndexLeaf, &page, u32::MAX, 512),
        Err(CellFault::Outside)
    );
}

#[test]
fn the_greatest_page_is_read_to_its_end(rt: HostRuntime) -> Result<(), Fail> {
    let mut page = vec![in rt.alloc(); 0; 65536]?;
    assert_eq!(rt; page.len(), 65536);
    page[65532] = 3;
    let want = Cell {
        at: 65532,
        len: 4,
        payload: 3,
        local_at: 65533,
        local: 3,
        ..NOTHING
    };
    assert_eq!(rt; read_cell(Kind::IndexLeaf, &page, 65532, 65536), Ok(want));
    assert_eq!(rt;
        read_cell(Kind::IndexLeaf, &page, 65532, 65535),
        Err(CellFault::Outside)
    );
    Ok(())
}

#[test]
fn local_lengths_at_their_bounds(rt: HostRuntime) {
    let table = [
        (Kind::TableLeaf, 480, 445, 445),
        (Kind::TableLeaf, 480, 446, 35),
        (Kind::TableLeaf, 480, 512, 36),
        (Kind::TableLeaf, 480, 921, 445),
        (Kind::TableLeaf, 480, 922, 35),
        (Kind::IndexLeaf, 480, 94, 94),
        (Kind::IndexLeaf, 480, 95, 35),
        (Kind::TableLeaf, 512, 477, 477),
        (Kind::TableLeaf, 512, 478, 39),
        (Kind::TableLeaf, 512, 985, 477),
        (Kind::TableLeaf, 512, 986, 39),
        (Kind::TableLeaf, 512, u64::MAX, 255),
        (Kind::IndexInner, 512, 102, 102),
        (Kind::IndexInner, 512, 103, 39),
        (Kind::IndexInner, 512, 610, 102),
        (Kind::IndexInner, 512, 611, 39),
        (Kind::TableInner, 512, 600, 0),
        (Kind::TableLeaf, 65536, 65501, 65501),
        (Kind::TableLeaf, 65536, 65502, 8199),
        (Kind::IndexLeaf, 65536, 16422, 16422),
        (Kind::IndexLeaf, 65536, 81954, 16422),
        (Kind::IndexLeaf, 65536, 81955, 8199),
    ];
    for (kind, usable, payload, want) in table {
        assert!(rt; usable >= 480 && usable <= 65536);
        assert_eq!(rt;
            local_len(kind, payload, usable),
            want,
            "{kind:?} {payload} of {usable}"
        );
    }
}
