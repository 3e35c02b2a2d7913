//! Texts in UTF-16 as they are printed.
ghost use Rattle.std.specs.Prelude.{◌≡◌, List, ℕ, ◌++◌, ◌∷◌, ◌≤◌, length, IfOk, OnOk};
ghost use Rattle.std.specs.String.{string_bytes};
ghost use Rattle.sx_bytes.specs.declared.encoding.Encoding.{Encoding};
ghost use Rattle.sx_bytes.specs.Decoding.{units_of, odd_byte, IsBytes};
ghost use Rattle.sx_record.specs.Codes.{IsPrintedByCodes};
ghost use Rattle.sx_record.specs.Utf16.{units_text, last_text, utf16_text};

use crate::escape::{put_escaped_byte, put_unit};
use std::alloc::AllocError;
use sx_bytes::{Encoding, is_pair, pair_character, split_first_unit};

/// Appends a text.
#[tactic(auto, using(crate::proofs::Printing::units_printed))]
pub fn put_utf16(line: &mut String, bytes: &[u8], encoding: Encoding) -> Result<(), AllocError>
    ensures { OnOk result (string_bytes line.new ≡ string_bytes line.old ++ utf16_text encoding bytes.now) }
{
    let mut rest = bytes;
    while let Some((unit, behind)) = split_first_unit(rest, encoding) {
        rest = put_first(line, unit, behind, encoding)?;
    }
    put_last(line, rest)
}

/// Appends the single last byte, if there is one.
fn put_last(line: &mut String, rest: &[u8]) -> Result<(), AllocError>
    ensures { OnOk result (string_bytes line.new ≡ string_bytes line.old ++ last_text rest.now) }
{
    match rest {
        [byte, ..] => put_escaped_byte(line, *byte),
        [] => Ok(()),
    }
}

/// Appends the character of a pair that begins with this unit, or else the unit by itself, and answers the bytes behind it.
#[tactic(auto, unfolding(crate::specs::Utf16::units_text))]
fn put_first<'a>(
    line: &mut String,
    unit: u16,
    behind: &'a [u8],
    encoding: Encoding,
) -> Result<&'a [u8], AllocError>
    ensures units { IfOk result (λ rest. string_bytes line.new ++ units_text (units_of encoding rest.now) ≡ string_bytes line.old ++ units_text (unit ∷ units_of encoding behind.now)) }
    ensures last { IfOk result (λ rest. odd_byte rest.now ≡ odd_byte behind.now) }
    ensures shorter { IfOk result (λ rest. length rest.now ≤ length behind.now) }
{
    if let Some((second, rest)) = split_first_unit(behind, encoding)
        && is_pair(unit, second)
    {
        line.push(pair_character(unit, second))?;
        return Ok(rest);
    }
    put_unit(line, unit)?;
    Ok(behind)
}

/// A text is printed code point by code point: what stands for a unit by itself, or the UTF-8 of a character that has
/// two. This is a law of the definitions; the function has no code.
#[tactic(auto, using(crate::proofs::Codes::printed_by_codes))]
pub fn each_code_point_is_printed_by_itself()
    ensures { (encoding : Encoding) (bytes : List ℕ) → IsBytes bytes → IsPrintedByCodes encoding bytes (utf16_text encoding bytes) }
{}
