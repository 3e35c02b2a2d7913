//! Texts in UTF-8 as they are printed.
ghost use Rattle.std.specs.Prelude.{◌≡◌, ◌↔◌, ℕ, List, ◌++◌, ◌<◌, ◌≤◌, length, take, drop, take_while, IfOk, IfSome, OnOk};
ghost use Rattle.std.specs.List.{list_all};
ghost use Rattle.sx_record.specs.Escape.{is_plain};
ghost use Rattle.sx_record.specs.Characters.{BeginsWithCharacter};
ghost use Rattle.std.specs.String.{string_bytes};
ghost use Rattle.sx_record.specs.Places.{IsPrinted};
ghost use Rattle.sx_record.specs.Standing.{Stands};
ghost use Rattle.sx_record.specs.Utf8.{is_within, is_continued, sequence_of, sequence_len, character_len, utf8_text};

use crate::escape::put_byte;
use crate::run::put_run;
use std::alloc::AllocError;

/// A row of the table of well-formed sequences (The Unicode Standard, table 3-7).
#[derive(Clone, Copy)]
pub struct Sequence {
    /// How many bytes it has.
    len: usize,
    /// The least second byte.
    low: u8,
    /// The greatest second byte.
    high: u8,
}

/// Appends a text.
#[tactic(auto, using(crate::proofs::Printing::all_printed))]
pub fn put_utf8(line: &mut String, bytes: &[u8]) -> Result<(), AllocError>
    ensures { OnOk result (string_bytes line.new ≡ string_bytes line.old ++ utf8_text bytes.now) }
{
    let mut rest = bytes;
    while !rest.is_empty() {
        rest = put_first(line, rest)?;
    }
    Ok(())
}

/// Appends the bytes at the front that stand as they are in one piece, or else what stands for the first one, and
/// answers the bytes behind.
#[tactic(auto, using(crate::proofs::Printing::standing_printed, crate::proofs::Printing::byte_printed))]
fn put_first<'a>(line: &mut String, bytes: &'a [u8]) -> Result<&'a [u8], AllocError>
    requires { 0 < length bytes.now }
    ensures same { IfOk result (λ rest. string_bytes line.new ++ utf8_text rest.now ≡ string_bytes line.old ++ utf8_text bytes.now) }
    ensures shorter { IfOk result (λ rest. length rest.now < length bytes.now) }
{
    let len = standing_len(bytes);
    if len == 0 {
        put_byte(line, bytes[0])?;
        return Ok(&bytes[1..]);
    }
    let (standing, rest) = bytes.split_at(len);
    put_run(line, standing)?;
    Ok(rest)
}

/// How many bytes at the front stand as they are: plain ones and those of characters from U+00A0 up, as long as they
/// follow one another.
#[tactic(auto, using(crate::proofs::Standing::none_stands))]
fn standing_len(bytes: &[u8]) -> usize
    ensures stands { Stands bytes.now result }
    ensures within { result ≤ length bytes.now }
    ensures none { result ≡ 0 → character_len bytes.now ≡ 0 }
{
    let mut len = 0;
    let mut rest = bytes;
    loop {
        let more = first_standing_len(rest);
        if more == 0 {
            return len;
        }
        len += more;
        rest = rest.split_at(more).1;
    }
}

/// How many bytes at the front stand as they are: as many plain ones as there are, or else those of a character.
fn first_standing_len(bytes: &[u8]) -> usize
    ensures stands { Stands bytes.now result }
    ensures within { result ≤ length bytes.now }
    ensures none { result ≡ 0 → character_len bytes.now ≡ 0 }
{
    let plain = plain_len(bytes);
    if plain > 0 {
        return plain;
    }
    character_len(bytes)
}

/// How many bytes at the front are printable and need no backslash.
fn plain_len(bytes: &[u8]) -> usize
    ensures value { result ≡ length (take_while is_plain bytes.now) }
    ensures within { result ≤ length bytes.now }
{
    bytes.iter().take_while(|byte| is_plain(**byte)).count()
}

/// Whether the byte is from the space to the tilde, but no apostrophe and no backslash.
fn is_plain(byte: u8) -> bool
    ensures { result ≡ is_plain byte }
{
    b' ' <= byte && byte <= b'~' && byte != b'\'' && byte != b'\\'
}

/// The length of the well-formed sequence of a character from U+00A0 up at the front, 0 where there is none.
#[tactic(auto, unfolding(crate::specs::Utf8::character_len))]
fn character_len(bytes: &[u8]) -> usize
    ensures value { result ≡ character_len bytes.now }
    ensures within { result ≤ length bytes.now }
{
    match bytes {
        [0xc2, 0x80..=0x9f, ..] => 0,
        _ => sequence_len(bytes),
    }
}

/// The length of the well-formed sequence of two bytes or more at the front, 0 where there is none.
#[tactic(auto, unfolding(crate::specs::Utf8::sequence_len))]
fn sequence_len(bytes: &[u8]) -> usize
    ensures value { result ≡ sequence_len bytes.now }
    ensures within { result ≤ length bytes.now }
{
    let Some(first) = bytes.first() else {
        return 0;
    };
    match sequence_of(*first) {
        Some(sequence) if is_continued(sequence, bytes) => sequence.len,
        _ => 0,
    }
}

/// The row of the table with this first byte.
#[tactic(auto, unfolding(crate::specs::Utf8::sequence_of))]
fn sequence_of(first: u8) -> Option<Sequence>
    ensures row { result ≡ sequence_of first }
    ensures least { IfSome result (λ sequence. 2 ≤ sequence.len) }
{
    let (len, low, high) = match first {
        0xc2..=0xdf => (2, 0x80, 0xbf),
        0xe0 => (3, 0xa0, 0xbf),
        0xe1..=0xec => (3, 0x80, 0xbf),
        0xed => (3, 0x80, 0x9f),
        0xee..=0xef => (3, 0x80, 0xbf),
        0xf0 => (4, 0x90, 0xbf),
        0xf1..=0xf3 => (4, 0x80, 0xbf),
        0xf4 => (4, 0x80, 0x8f),
        _ => return None,
    };
    Some(Sequence { len, low, high })
}

/// Whether the bytes behind the first one go on as the sequence does.
fn is_continued(sequence: Sequence, bytes: &[u8]) -> bool
    requires { 2 ≤ sequence.len }
    ensures { result ≡ is_continued sequence bytes.now }
{
    bytes.len() >= sequence.len
        && sequence.low <= bytes[1]
        && bytes[1] <= sequence.high
        && are_later(&bytes[2..sequence.len])
}

/// Whether each byte can be a third or fourth one.
fn are_later(bytes: &[u8]) -> bool
    ensures { result ≡ list_all (is_within 0x80 0xbf) bytes.now }
{
    bytes.iter().all(|byte| 0x80 <= *byte && *byte <= 0xbf)
}

/// A text is printed by a piece for each byte: the byte itself where it is part of a character from U+00A0 up, wherever
/// that begins, and else what stands for a single byte. This is a law of the definitions; the function has no code.
#[tactic(auto, using(crate::proofs::Places::text_printed))]
pub fn each_byte_is_printed_by_its_place()
    ensures { (bytes : List ℕ) → IsPrinted bytes (utf8_text bytes) }
{}

/// The table gives a length exactly where bytes begin with the UTF-8 of a character from U+00A0 up, which is as long.
/// This is a law of the definitions; the function has no code.
pub fn sequences_are_characters()
    ensures { (bytes : List ℕ) (len : ℕ) → ((0 < len) × (character_len bytes ≡ len)) ↔ BeginsWithCharacter bytes len }
{}
