//! The forms on bytes whose readings are known from outside.
use crate::{Ctx, Form, Reading, ShapeKey, Shown, accept, is_ruled_out, next_start};
use std::alloc::{AllocError, Global};
use std::process::Abort;
use std::test::Fail;
use sx_record::Value;

const SHAPES: [ShapeKey; 2] = [
    ShapeKey {
        columns: 3,
        alias: true,
    },
    ShapeKey {
        columns: 5,
        alias: false,
    },
];

/// The candidate at the front of these bytes, at offset 400 of a page of 512 usable bytes.
fn found(bytes: &[u8], block: bool) -> Option<Reading<'_>> {
    if bytes.is_empty() || bytes.len() > 65536 {
        return None;
    }
    let ctx = Ctx {
        usable: 512,
        shapes: &SHAPES,
    };
    accept(bytes, 0, 400, block, &ctx)
}

/// The candidate has this form, this length and these columns.
fn assert_found(
    rt: &impl Abort,
    bytes: &[u8],
    block: bool,
    form: Form,
    len: u32,
    columns: &[Shown<'_>],
) {
    match found(bytes, block) {
        None => panic!(rt; "nothing in {bytes:?}"),
        Some(reading) => {
            assert_eq!(rt; reading.form(), form, "in {bytes:?}");
            assert_eq!(rt; reading.len(), len, "in {bytes:?}");
            assert_eq!(rt; reading.columns() as usize, columns.len(), "in {bytes:?}");
            for (i, shown) in reading.values().enumerate() {
                assert_eq!(rt; shown, columns[i], "column {i} in {bytes:?}");
            }
        }
    }
}

#[test]
fn one_row_in_each_form(rt: HostRuntime) {
    let bob = Shown::Value(Value::Text(b"bob"));
    let twenty = Shown::Value(Value::Int(20));
    let null = Shown::Value(Value::Null);
    let rows = [null, bob, twenty];
    let lost = [Shown::Lost, bob, twenty];
    let whole = b"\x08\x02\x04\x00\x13\x01bob\x14";
    assert_found(&rt, whole, false, Form::Full, 10, &rows);
    let tail = b"\0\0\0\x0c\x04\x00\x13\x01bob\x14";
    assert_found(&rt, tail, false, Form::Tail(0), 12, &rows);
    let tail = b"\0\0\0\x0d\x05\x04\x00\x13\x01bob\x14";
    assert_found(&rt, tail, false, Form::Tail(1), 13, &rows);
    let types = b"\0\0\0\x0b\x00\x13\x01bob\x14";
    assert_found(&rt, types, false, Form::Types(3), 11, &rows);
    let alias = b"\0\0\0\x0a\x13\x01bob\x14";
    assert_found(&rt, alias, false, Form::Lost(3, true), 10, &lost);
    let block = b"\0\0\0\x14\x13\x01bob\x14\0\0\0\0\0\0\0\0\0\0";
    assert_found(&rt, block, true, Form::Lost(3, true), 10, &lost);
    assert!(rt; found(block, false).is_none());
}

#[test]
fn a_first_column_that_is_lost_fills_its_span(rt: HostRuntime) {
    let numbers = [
        Shown::Lost,
        Shown::Value(Value::Int(1)),
        Shown::Value(Value::Int(2)),
        Shown::Value(Value::Int(3)),
        Shown::Value(Value::Null),
    ];
    let plain = b"\0\0\0\x0d\x01\x01\x01\x00ab\x01\x02\x03";
    assert_found(&rt, plain, false, Form::Lost(5, false), 13, &numbers);
}

#[test]
fn a_start_inside_a_candidate_is_one_too(rt: HostRuntime) {
    let blob = [Shown::Value(Value::Blob(b"\x02\x07\x02\x00"))];
    let outer = b"\x06\x09\x02\x14\x02\x07\x02\x00";
    assert_found(&rt, outer, false, Form::Full, 8, &blob);
    let null = [Shown::Value(Value::Null)];
    assert_found(&rt, b"\x02\x07\x02\x00", false, Form::Full, 4, &null);
    // the record would end behind the run
    assert!(rt; found(b"\x06\x09\x02\x14\x02\x07\x02", false).is_none());
}

/// A spilled cell of rowid 1 with one blob: 39 bytes of its payload of 1505 stand in it, and then a page.
fn spilled(page: u8) -> [u8; 46] {
    let mut cell = [0x55; 46];
    // 1505 bytes, rowid 1, a header of 3 bytes, a blob of 1502
    cell[0] = 0x8b;
    cell[1] = 0x61;
    cell[2] = 0x01;
    cell[3] = 0x03;
    cell[4] = 0x97;
    cell[5] = 0x48;
    cell[42] = 0;
    cell[43] = 0;
    cell[44] = 0;
    cell[45] = page;
    cell
}

#[test]
fn a_spilled_row_names_its_first_overflow_page(rt: HostRuntime) {
    match found(&spilled(3), false) {
        None => panic!(rt; "a spilled row"),
        Some(reading) => {
            assert_eq!(rt; reading.form(), Form::Full);
            assert_eq!(rt; reading.rowid(), Some(1));
            assert_eq!(rt; reading.overflow(), Some(3));
            assert_eq!(rt; reading.payload(), 1505);
            assert!(rt; reading.local().is_some_and(|local| local.len() == 39));
            let mut columns = reading.values();
            assert_eq!(rt; columns.next(), Some(Shown::Beyond));
            assert_eq!(rt; columns.next(), None);
        }
    }
    assert!(rt; found(&spilled(0), false).is_none());
}

#[test]
fn zeros_are_passed_over(rt: HostRuntime) {
    let run = b"\x01\0\0\0\0\0\0\x09\0\0\0\x09";
    assert_eq!(rt; next_start(run, 0), 0);
    assert_eq!(rt; next_start(run, 1), 4);
    assert_eq!(rt; next_start(run, 5), 5);
    assert_eq!(rt; next_start(run, 8), 8);
    assert_eq!(rt; next_start(run, 12), 12);
}

/// The form at the front of these bytes and its length, at offset 400 of a page with so many usable bytes and under one plain
/// shape.
fn form_of(bytes: &[u8], usable: u32, columns: u32, block: bool) -> Option<(Form, u32)> {
    if bytes.is_empty() || bytes.len() > 65536 || !(480..=65536).contains(&usable) || columns == 0 {
        return None;
    }
    let shapes = [ShapeKey {
        columns,
        alias: false,
    }];
    let ctx = Ctx {
        usable,
        shapes: &shapes,
    };
    let ruled_out = is_ruled_out(bytes, 0, 400, block, &ctx);
    let reading = accept(bytes, 0, 400, block, &ctx)?;
    if ruled_out {
        return None;
    }
    Some((reading.form(), reading.len()))
}

/// Bytes that end in so many of one value.
fn padded(alloc: Global, front: &[u8], more: usize, value: u8) -> Result<Vec<u8>, AllocError> {
    let mut bytes = front.to_vec(alloc)?;
    for _ in 0..more {
        bytes.push(value)?;
    }
    Ok(bytes)
}

#[test]
fn payloads_of_every_size(rt: HostRuntime) -> Result<(), Fail> {
    assert_eq!(rt; form_of(b"\x02", 512, 1, false), None);
    assert_eq!(rt; form_of(&[0xff; 8], 512, 1, false), None);
    assert_eq!(rt; form_of(b"\x00\x01\x00\x00\x00", 512, 1, false), None);
    assert_eq!(rt; form_of(b"\x01\x01\x01\x00\x00", 512, 1, false), None);
    // a blob of 442 bytes is the longest payload that stands whole in a cell of 480 usable bytes, and of 443 spills
    let longest = padded(rt.alloc(), b"\x83\x3d\x01\x03\x87\x00", 442, 0x55)?;
    assert_eq!(rt; form_of(&longest, 480, 1, false), Some((Form::Full, 448)));
    let cut = padded(rt.alloc(), b"\x83\x3d\x01\x03\x87\x00", 441, 0x55)?;
    assert_eq!(rt; form_of(&cut, 480, 1, false), None);
    let spilled = padded(rt.alloc(), b"\x83\x3e\x01\x03\x87\x02", 442, 0x55)?;
    assert_eq!(rt; form_of(&spilled, 480, 1, false), Some((Form::Full, 42)));
    // the longest payload of all, and one that is too long
    let all = padded(
        rt.alloc(),
        b"\x87\xff\xff\xff\x7f\x01\x06\x8f\xff\xff\xff\x7e",
        60,
        0x55,
    )?;
    assert_eq!(rt; form_of(&all, 512, 1, false), Some((Form::Full, 49)));
    let more = padded(
        rt.alloc(),
        b"\x88\x80\x80\x80\x00\x01\x06\x90\x80\x80\x80\x00",
        60,
        0x55,
    )?;
    assert_eq!(rt; form_of(&more, 512, 1, false), None);
    // a run of 65,536 bytes, and a payload that fills its page
    let page = padded(rt.alloc(), b"\x83\xff\x5d\x01\x04\x87\xff\x3e", 65528, 0x55)?;
    assert_eq!(rt; form_of(&page, 65536, 1, false), Some((Form::Full, 65505)));
    Ok(())
}

#[test]
fn clipped_cells_of_every_size(rt: HostRuntime) -> Result<(), Fail> {
    // one NULL: sizes from 3 up, and a next block at its end or before it
    assert_eq!(rt;
        form_of(b"\0\0\0\x05\0", 512, 1, false),
        Some((Form::Types(1), 5))
    );
    assert_eq!(rt;
        form_of(b"\0\0\0\x04\0", 512, 1, false),
        Some((Form::Lost(1, false), 4))
    );
    assert_eq!(rt; form_of(b"\0\0\0\x03\0", 512, 1, true), None);
    assert_eq!(rt;
        form_of(b"\0\0\xff\xff\0", 512, 1, true),
        Some((Form::Types(1), 5))
    );
    assert_eq!(rt; form_of(b"\0\0\xff\xff\0", 512, 1, false), None);
    assert_eq!(rt;
        form_of(b"\x01\x95\0\x05\0", 512, 1, false),
        Some((Form::Types(1), 5))
    );
    assert_eq!(rt; form_of(b"\x01\x94\0\x05\0", 512, 1, false), None);
    // headers of 126, 127 and 128 bytes
    let types = padded(rt.alloc(), b"\0\0\0\x81", 125, 0)?;
    assert_eq!(rt;
        form_of(&types, 512, 125, false),
        Some((Form::Types(125), 129))
    );
    let types = padded(rt.alloc(), b"\0\0\0\x82", 126, 0)?;
    assert_eq!(rt;
        form_of(&types, 512, 126, false),
        Some((Form::Types(126), 130))
    );
    let types = padded(rt.alloc(), b"\0\0\0\x83", 127, 0)?;
    assert_eq!(rt; form_of(&types, 512, 127, false), None);
    let types = padded(rt.alloc(), b"\0\0\x07\xd4", 2000, 0)?;
    assert_eq!(rt; form_of(&types, 4096, 2000, false), None);
    // a first type of two bytes
    let tail = padded(rt.alloc(), b"\0\0\0\x41\x03\x81\x00", 58, 0x55)?;
    assert_eq!(rt; form_of(&tail, 512, 1, false), Some((Form::Tail(0), 65)));
    Ok(())
}
