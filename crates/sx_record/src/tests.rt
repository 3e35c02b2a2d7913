use super::*;
use std::alloc::{AllocError, Global};
use std::test::Fail;
use sx_bytes::Encoding;

/// Whether a value is written so, with ample memory.
fn is_written(
    alloc: Global,
    value: Value<'_>,
    encoding: Encoding,
    want: &[u8],
) -> Result<bool, AllocError> {
    Ok(value_text(alloc, value, encoding)?.as_slice() == want)
}

#[test]
fn values_but_texts_are_written_the_same_in_each_encoding(rt: HostRuntime) -> Result<(), Fail> {
    let alloc = rt.alloc();
    let table = vec![in alloc;
        (Value::Null, &b"NULL"[..]),
        (Value::Int(0), &b"0"[..]),
        (Value::Int(i64::MIN), &b"-9223372036854775808"[..]),
        (Value::Int(i64::MAX), &b"9223372036854775807"[..]),
        (
            Value::Real(b"\x40\x09\x21\xfb\x54\x44\x2d\x18"),
            &b"real:400921fb54442d18"[..]
        ),
        (Value::Blob(b""), &b"x''"[..]),
        (Value::Blob(b"\x00\xab\xff'"), &b"x'00abff27'"[..]),
    ]?;
    for (value, want) in &table {
        assert!(rt; is_written(alloc, *value, Encoding::Utf8, want)?);
        assert!(rt; is_written(alloc, *value, Encoding::Utf16Be, want)?);
    }
    Ok(())
}

#[test]
fn values_and_texts_are_appended_to_a_line(rt: HostRuntime) -> Result<(), Fail> {
    let mut line = String::from_str(rt.alloc(), "row 7 ")?;
    // one byte more than the digits that go there at a time
    put_value(&mut line, Value::Blob(&[0xab; 33]), Encoding::Utf8)?;
    put_text(&mut line, b"\xd0\x90 b'\xff", Encoding::Utf8)?;
    let want = concat!(
        "row 7 x'",
        "abababababababababababababababababababababababababababababababab",
        "ab'",
        "'А b\\'\\xff'"
    );
    assert_eq!(rt; line.as_str(), want);
    Ok(())
}

#[test]
fn the_types_of_a_front_have_their_lengths(rt: HostRuntime) {
    let mut types = serial_types(b"\x01\x81\x00\x17\x82");
    assert_eq!(rt; types.next(), Some((1, 1)));
    assert_eq!(rt; types.next(), Some((128, 2)));
    assert_eq!(rt; types.next(), Some((23, 1)));
    assert_eq!(rt; types.next(), None);
}

#[test]
fn every_single_byte_is_itself_or_escaped(rt: HostRuntime) -> Result<(), Fail> {
    let alloc = rt.alloc();
    for byte in 0..=255u8 {
        let written = value_text(alloc, Value::Text(&[byte]), Encoding::Utf8)?;
        let want = match byte {
            b'\'' => String::from_str(alloc, "'\\''")?,
            b'\\' => String::from_str(alloc, "'\\\\'")?,
            b' '..=b'~' => format!(in alloc; "'{}'", byte as char)?,
            _ => format!(in alloc; "'\\x{byte:02x}'")?,
        };
        assert_eq!(rt; written.as_slice(), want.as_bytes(), "byte {byte}");
    }
    Ok(())
}

#[test]
fn utf8_stands_from_a0_up_where_it_is_well_formed(rt: HostRuntime) -> Result<(), Fail> {
    let alloc = rt.alloc();
    let table = vec![in alloc;
        (&b""[..], &b"''"[..]),
        (&b"'\\\x09\xc3\xa9"[..], &b"'\\'\\\\\\x09\xc3\xa9'"[..]),
        // U+009F, U+00A0, an overlong form, a sequence cut short, one cut by another
        (&b"\xc2\x9f"[..], &b"'\\xc2\\x9f'"[..]),
        (&b"\xc2\xa0"[..], &b"'\xc2\xa0'"[..]),
        (&b"\xc1\xbf\xe0\x9f\xbf\xf0\x8f\xbf\xbf"[..], &b"'\\xc1\\xbf\\xe0\\x9f\\xbf\\xf0\\x8f\\xbf\\xbf'"[..]),
        (&b"\xe2\x82"[..], &b"'\\xe2\\x82'"[..]),
        (&b"\xe2\x82\xf0\x9f\x98\x80\xa9"[..], &b"'\\xe2\\x82\xf0\x9f\x98\x80\\xa9'"[..]),
        // the characters before and behind the surrogates, and two surrogates
        (&b"\xed\x9f\xbf\xee\x80\x80"[..], &b"'\xed\x9f\xbf\xee\x80\x80'"[..]),
        (&b"\xed\xa0\x80\xed\xbf\xbf"[..], &b"'\\xed\\xa0\\x80\\xed\\xbf\\xbf'"[..]),
        // U+10FFFF and the number above it
        (&b"\xf4\x8f\xbf\xbf"[..], &b"'\xf4\x8f\xbf\xbf'"[..]),
        (&b"\xf4\x90\x80\x80"[..], &b"'\\xf4\\x90\\x80\\x80'"[..]),
        (&b"a\xef\xbb\xbf\x7f"[..], &b"'a\xef\xbb\xbf\\x7f'"[..]),
    ]?;
    for (bytes, want) in &table {
        assert!(rt; is_written(alloc, Value::Text(bytes), Encoding::Utf8, want)?);
    }
    Ok(())
}

#[test]
fn utf16_is_written_unit_by_unit(rt: HostRuntime) -> Result<(), Fail> {
    let alloc = rt.alloc();
    // in the order high byte first; the last one of each row is what is written
    let table = vec![in alloc;
        (&b"\x00\xd8A"[..], &b"\xd8\x00A"[..], &b"'\\ud800\\x41'"[..]),
        (
            &b"a\x00\xe9\x00\x3d\xd8\x00\xde"[..],
            &b"\x00a\x00\xe9\xd8\x3d\xde\x00"[..],
            &b"'a\xc3\xa9\xf0\x9f\x98\x80'"[..],
        ),
        (&b"'\x00\\\x00\x09\x00"[..], &b"\x00'\x00\\\x00\x09"[..], &b"'\\'\\\\\\u0009'"[..]),
        (&b"\x9f\x00\xa0\x00\x7f\x00"[..], &b"\x00\x9f\x00\xa0\x00\x7f"[..], &b"'\\u009f\xc2\xa0\\u007f'"[..]),
        // halves in the wrong order, two first halves and a second one, a half at the end
        (&b"\x00\xdc\x00\xd8"[..], &b"\xdc\x00\xd8\x00"[..], &b"'\\udc00\\ud800'"[..]),
        (
            &b"\x00\xd8\x00\xd8\x00\xdc"[..],
            &b"\xd8\x00\xd8\x00\xdc\x00"[..],
            &b"'\\ud800\xf0\x90\x80\x80'"[..],
        ),
        (&b"\xff\xdb\xff\xdf"[..], &b"\xdb\xff\xdf\xff"[..], &b"'\xf4\x8f\xbf\xbf'"[..]),
        (&b"\xff\xfe\xff\xff"[..], &b"\xfe\xff\xff\xff"[..], &b"'\xef\xbb\xbf\xef\xbf\xbf'"[..]),
        (&b"\x20"[..], &b"\x20"[..], &b"'\\x20'"[..]),
    ]?;
    for (low_first, high_first, want) in &table {
        assert!(rt; is_written(alloc, Value::Text(low_first), Encoding::Utf16Le, want)?);
        assert!(rt; is_written(alloc, Value::Text(high_first), Encoding::Utf16Be, want)?);
    }
    Ok(())
}

/// The values of a record as they are written, each after a space, or its fault.
fn written_columns(alloc: Global, payload: &[u8]) -> Result<Result<Vec<u8>, RecordFault>, Fail> {
    if payload.len() > 100 {
        return Err(Fail::from("the payload of a test is short"));
    }
    let fields = match read_types(payload) {
        Ok(fields) => fields,
        Err(fault) => return Ok(Err(fault)),
    };
    let mut text = Vec::new(alloc);
    for value in fields.values() {
        text.push(b' ')?;
        text.extend_from_slice(value_text(alloc, value, Encoding::Utf8)?.as_slice())?;
    }
    let mut by_number = Vec::new(alloc);
    for i in 0..fields.columns() {
        by_number.push(b' ')?;
        by_number.extend_from_slice(value_text(
            alloc,
            fields.value(i),
            Encoding::Utf8,
        )?.as_slice())?;
    }
    if text != by_number {
        return Err(Fail::from("the values differ from those by number"));
    }
    Ok(Ok(text))
}

#[test]
fn columns_are_read_by_their_types(rt: HostRuntime) -> Result<(), Fail> {
    let alloc = rt.alloc();
    let table = vec![in alloc;
        (&b"\x01"[..], &b""[..]),
        (&b"\x80\x02"[..], &b""[..]),
        (&b"\x03\x09\x0d"[..], &b" 1 ''"[..]),
        (&b"\x04\x00\x08\x0c"[..], &b" NULL 0 x''"[..]),
        (&b"\x02\x06\x80\0\0\0\0\0\0\0"[..], &b" -9223372036854775808"[..]),
        (&b"\x02\x07\x40\x09\x21\xfb\x54\x44\x2d\x18"[..], &b" real:400921fb54442d18"[..]),
        (&b"\x02\x17\x27\x5c\x09\xc3\xa9"[..], &b" '\\'\\\\\\x09\xc3\xa9'"[..]),
        (&b"\x04\x01\x01\x0e\x7f\x80\xab"[..], &b" 127 -128 x'ab'"[..]),
        (&b"\x03\x02\x02\x7f\xff\xff\xfe"[..], &b" 32767 -2"[..]),
        (&b"\x03\x03\x03\x7f\xff\xff\x80\0\0"[..], &b" 8388607 -8388608"[..]),
        (&b"\x03\x04\x04\x7f\xff\xff\xff\x80\0\0\0"[..], &b" 2147483647 -2147483648"[..]),
        (
            &b"\x03\x05\x05\x7f\xff\xff\xff\xff\xff\x80\0\0\0\0\0"[..],
            &b" 140737488355327 -140737488355328"[..],
        ),
        (&b"\x02\x06\x7f\xff\xff\xff\xff\xff\xff\xff"[..], &b" 9223372036854775807"[..]),
        // a type of nine bytes
        (&b"\x0a\x80\x80\x80\x80\x80\x80\x80\x80\x09"[..], &b" 1"[..]),
    ]?;
    for (payload, want) in &table {
        let columns = written_columns(alloc, payload)?;
        assert!(rt;
            columns.is_ok_and(|text| text.as_slice() == *want),
            "of {payload:?}"
        );
    }
    Ok(())
}

#[test]
fn the_first_fault_of_a_record_is_answered(rt: HostRuntime) -> Result<(), Fail> {
    let alloc = rt.alloc();
    let table = vec![in alloc;
        (&b""[..], RecordFault::HeaderSize),
        (&b"\x00"[..], RecordFault::HeaderSize),
        // a size below its own length, one past the payload, one that isn't whole
        (&b"\x80\x01"[..], RecordFault::HeaderSize),
        (&b"\x02"[..], RecordFault::HeaderSize),
        (&b"\x05\x01\x05"[..], RecordFault::HeaderSize),
        (&b"\x81"[..], RecordFault::HeaderSize),
        // one byte less than the type needs, also behind an unused type
        (&b"\x03\x81"[..], RecordFault::HeaderSize),
        (&b"\x02\x81\x00"[..], RecordFault::HeaderSize),
        (&b"\x03\x0a\x81\x00"[..], RecordFault::HeaderSize),
        (&b"\x02\x0a"[..], RecordFault::UnusedType),
        (&b"\x03\x01\x0b"[..], RecordFault::UnusedType),
        (&b"\x02\x01"[..], RecordFault::BodyLength),
        (&b"\x02\x01\x05\x05"[..], RecordFault::BodyLength),
        // one byte more than the types need
        (&b"\x03\x01\x05"[..], RecordFault::BodyLength),
        // bodies of 2^64 bytes in all
        (
            &b"\x14\xff\xff\xff\xff\xff\xff\xff\xff\xff\xff\xff\xff\xff\xff\xff\xff\xff\xff\x28"[..],
            RecordFault::BodyLength,
        ),
    ]?;
    for (payload, want) in &table {
        let columns = written_columns(alloc, payload)?;
        assert!(rt;
            columns.is_err_and(|fault| fault == *want),
            "of {payload:?}"
        );
    }
    Ok(())
}
