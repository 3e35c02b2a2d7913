//! Bytes and units of UTF-16 on their own in a printed text.
ghost use Rattle.std.specs.Prelude.{◌≡◌, ◌++◌, ◌<◌, ◌∷◌, [], OnOk};
ghost use Rattle.std.specs.String.{string_bytes};
ghost use Rattle.sx_record.specs.Escape.{byte_text, escaped_byte, escaped_unit, unit_text};

use crate::hexadecimal::put_hexadecimal;
use std::alloc::AllocError;

/// Appends a byte that is part of no character from U+00A0 up.
#[tactic(auto, unfolding(crate::specs::Escape::byte_text))]
pub fn put_byte(line: &mut String, byte: u8) -> Result<(), AllocError>
    ensures { OnOk result (string_bytes line.new ≡ string_bytes line.old ++ byte_text byte) }
{
    match byte {
        b'\'' | b'\\' => put_marked(line, byte),
        b' '..=b'~' => line.push(char::from(byte)),
        _ => put_escaped_byte(line, byte),
    }
}

/// Appends a unit that is no half of a pair.
#[tactic(auto, unfolding(crate::specs::Escape::unit_text))]
pub fn put_unit(line: &mut String, unit: u16) -> Result<(), AllocError>
    ensures { OnOk result (string_bytes line.new ≡ string_bytes line.old ++ unit_text unit) }
{
    match unit {
        0x27 | 0x5c => put_marked(line, unit as u8),
        0x20..=0x7e => line.push(char::from(unit as u8)),
        0..0xa0 | 0xd800..0xe000 => put_escaped_unit(line, unit),
        _ => line.push(char::from_u32(u32::from(unit)).unwrap()),
    }
}

/// Appends a character of one byte with a backslash before it.
fn put_marked(line: &mut String, byte: u8) -> Result<(), AllocError>
    requires { byte < 128 }
    ensures { OnOk result (string_bytes line.new ≡ string_bytes line.old ++ 92 ∷ byte ∷ []) }
{
    line.push('\\')?;
    line.push(char::from(byte))
}

/// Appends a byte as its two digits.
#[tactic(auto, unfolding(crate::specs::Escape::escaped_byte))]
pub fn put_escaped_byte(line: &mut String, byte: u8) -> Result<(), AllocError>
    ensures { OnOk result (string_bytes line.new ≡ string_bytes line.old ++ escaped_byte byte) }
{
    line.push_str("\\x")?;
    put_hexadecimal(line, &[byte])
}

/// Appends a unit as its four digits.
#[tactic(auto, unfolding(crate::specs::Escape::escaped_unit))]
fn put_escaped_unit(line: &mut String, unit: u16) -> Result<(), AllocError>
    ensures { OnOk result (string_bytes line.new ≡ string_bytes line.old ++ escaped_unit unit) }
{
    line.push_str("\\u")?;
    put_hexadecimal(line, &unit.to_be_bytes())
}
