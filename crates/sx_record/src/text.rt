//! How a value is written.
ghost use Rattle.std.specs.Prelude.{◌≡◌, ◌++◌, IfOk, OnOk, codes};
ghost use Rattle.std.specs.String.{string_bytes};
ghost use Rattle.hex.specs.Hex.{encode_lower};
ghost use Rattle.sx_record.specs.Content.{content_of};
ghost use Rattle.sx_record.specs.Text.{quoted, printed_value};

use crate::hexadecimal::put_hexadecimal;
use crate::utf8::put_utf8;
use crate::utf16::put_utf16;
use crate::value::Value;
use std::alloc::{AllocError, Global};
use std::fmt::Write;
use sx_bytes::Encoding;

/// Appends a value as it is written: `NULL`, an integer in decimal, `real:` and hexadecimal digits, `x'..'`, or a text as
/// [`put_text`] writes it.
///
/// Hexadecimal is lower case. The cost is linear in the value's bytes; memory is taken only where the line has no room.
/// It answers `AllocError` where memory runs out, and the line then ends with some front of the text.
#[tactic(auto, unfolding(crate::specs::Text::printed_value))]
pub fn put_value(line: &mut String, value: Value<'_>, encoding: Encoding) -> Result<(), AllocError>
    ensures { OnOk result (string_bytes line.new ≡ string_bytes line.old ++ printed_value encoding (content_of value.entry)) }
{
    match value {
        Value::Null => line.push_str("NULL"),
        Value::Int(number) => write!(line, "{number}"),
        Value::Real(bytes) => put_real(line, bytes),
        Value::Blob(bytes) => put_blob(line, bytes),
        Value::Text(bytes) => put_text(line, bytes, encoding),
    }
}

/// Appends `real:` and digits.
fn put_real(line: &mut String, bytes: &[u8]) -> Result<(), AllocError>
    ensures { OnOk result (string_bytes line.new ≡ string_bytes line.old ++ (codes "real:" ++ encode_lower bytes.now)) }
{
    line.push_str("real:")?;
    put_hexadecimal(line, bytes)
}

/// Appends `x` and digits between apostrophes.
fn put_blob(line: &mut String, bytes: &[u8]) -> Result<(), AllocError>
    ensures { OnOk result (string_bytes line.new ≡ string_bytes line.old ++ (codes "x'" ++ (encode_lower bytes.now ++ codes "'"))) }
{
    line.push_str("x'")?;
    put_hexadecimal(line, bytes)?;
    line.push('\'')
}

/// Appends a text between apostrophes.
///
/// The characters from the space to the tilde stand as they are, an apostrophe and a backslash with a backslash before
/// them, and a character from U+00A0 up as its UTF-8. Under UTF-8 each other byte is `\x` and two digits. Under UTF-16
/// each other unit is `\u` and four digits, and a single last byte `\x` and two. Cost and `AllocError` are those of
/// [`put_value`].
#[tactic(auto, unfolding(crate::specs::Text::quoted))]
pub fn put_text(line: &mut String, bytes: &[u8], encoding: Encoding) -> Result<(), AllocError>
    ensures { OnOk result (string_bytes line.new ≡ string_bytes line.old ++ quoted encoding bytes.now) }
{
    line.push('\'')?;
    match encoding {
        Encoding::Utf8 => put_utf8(line, bytes)?,
        _ => put_utf16(line, bytes, encoding)?,
    }
    line.push('\'')
}

/// A value as [`put_value`] writes it, in memory of its own.
pub fn value_text(
    alloc: Global,
    value: Value<'_>,
    encoding: Encoding,
) -> Result<Vec<u8>, AllocError>
    ensures { IfOk result (λ written. written.items ≡ printed_value encoding (content_of value.entry)) }
{
    let mut text = String::new(alloc);
    put_value(&mut text, value, encoding)?;
    Ok(text.into_bytes())
}
