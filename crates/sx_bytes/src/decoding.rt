//! The texts of a database, which may be stored in UTF-16, as UTF-8.
ghost use Rattle.std.specs.Prelude.{◌≡◌, ◌↔◌, ℕ, List, Some, ◌&&◌, ◌+◌, ◌<◌, ◌≤◌, ◌∷◌, [], false, Option, length, IsTrue, IfOk, IfSome, MatchOption};
ghost use Rattle.sx_bytes.specs.declared.encoding.Encoding.{Encoding};
ghost use Rattle.sx_bytes.specs.Decoding.{units_of, odd_byte, joined, decoded, is_spelled, IsBytes, Decodes};
ghost use Rattle.std.specs.Char.Utf16.{utf16_chars, lone_unit_char, surrogate_pair_char, is_high_surrogate, is_low_surrogate};

use crate::encoding::Encoding;
use std::alloc::{AllocError, Global};

/// The bytes of a stored text as the UTF-8 of its characters ("Text encoding").
///
/// Under UTF-8 they are the bytes themselves, whatever these are. Under UTF-16 the answer is `None` exactly where the
/// number of bytes is odd or a surrogate has no partner; U+FEFF is a character like another. The cost is linear in the
/// bytes, and it answers `AllocError` where memory runs out.
#[tactic(auto, unfolding(crate::specs::Decoding::decoded))]
pub fn decode(
    alloc: Global,
    bytes: &[u8],
    encoding: Encoding,
) -> Result<Option<Vec<u8>>, AllocError>
    ensures { IfOk result (λ found. MatchOption found (decoded encoding bytes.now ≡ None) (λ text. decoded encoding bytes.now ≡ Some text.items)) }
{
    if encoding == Encoding::Utf8 {
        return Ok(Some(Vec::from_slice(alloc, bytes)?));
    }
    if bytes.len() % 2 == 1 {
        return Ok(None);
    }
    let units = read_units(alloc, bytes, encoding)?;
    decode_units(alloc, units.as_slice())
}

/// The characters that units of UTF-16 spell, as UTF-8.
#[tactic(auto, using(crate::proofs::Joining::joined_whole, crate::proofs::Joining::joined_broken))]
fn decode_units(alloc: Global, units: &[u16]) -> Result<Option<Vec<u8>>, AllocError>
    ensures { IfOk result (λ found. MatchOption found (joined (utf16_chars units.now) ≡ None) (λ text. joined (utf16_chars units.now) ≡ Some text.items)) }
{
    match String::from_utf16(alloc, units)? {
        Ok(text) => Ok(Some(text.into_bytes())),
        Err(_) => Ok(None),
    }
}

/// The units of a text in UTF-16.
fn read_units(alloc: Global, bytes: &[u8], encoding: Encoding) -> Result<Vec<u16>, AllocError>
    ensures { IfOk result (λ units. units.items ≡ units_of encoding bytes.now) }
{
    let mut units = Vec::with_capacity(alloc, bytes.len() / 2)?;
    let mut rest = bytes;
    while let Some((unit, behind)) = split_first_unit(rest, encoding) {
        units.push(unit)?;
        rest = behind;
    }
    Ok(units)
}

/// The unit at the front of a text in UTF-16 and the bytes behind it, or `None` where fewer than 2 bytes are left.
///
/// Under UTF-16le its low byte comes first, else its high byte. Takes no memory.
#[tactic(auto, unfolding(crate::specs::Decoding::units_of, crate::specs::Decoding::odd_byte))]
pub fn split_first_unit(bytes: &[u8], encoding: Encoding) -> Option<(u16, &[u8])>
    ensures units { MatchOption result (units_of encoding bytes.now ≡ []) (λ found. units_of encoding bytes.now ≡ found.0 ∷ units_of encoding found.1.now) }
    ensures last { MatchOption result (odd_byte bytes.now ≡ bytes.now) (λ found. odd_byte bytes.now ≡ odd_byte found.1.now) }
    ensures shorter { IfSome result (λ found. length found.1.now + 2 ≡ length bytes.now) }
{
    let [first, second, behind @ ..] = bytes else {
        return None;
    };
    let pair = [*first, *second];
    let unit = match encoding {
        Encoding::Utf16Le => u16::from_le_bytes(pair),
        _ => u16::from_be_bytes(pair),
    };
    Some((unit, behind))
}

/// Whether a stored text decodes to this one, whose bytes are UTF-8 ("Text encoding").
///
/// No more characters are read than the word has and one. Takes no memory.
#[tactic(auto, unfolding(crate::specs::Decoding::decoded), using(crate::proofs::Matching::spelled_joined))]
pub fn decodes_to(bytes: &[u8], encoding: Encoding, word: &[u8]) -> bool
    ensures { IsTrue result ↔ (decoded encoding bytes.now ≡ Some word.now) }
{
    if encoding == Encoding::Utf8 {
        return bytes == word;
    }
    bytes.len() % 2 == 0 && units_spell(bytes, encoding, word)
}

/// Whether the units of a text in UTF-16 are the characters of this one in UTF-8.
#[tactic(auto, using(crate::proofs::Matching::spelled_end))]
fn units_spell(bytes: &[u8], encoding: Encoding, word: &[u8]) -> bool
    ensures { result ≡ is_spelled (utf16_chars (units_of encoding bytes.now)) word.now }
{
    let mut rest = bytes;
    let mut left = word;
    while let Some((unit, behind)) = split_first_unit(rest, encoding) {
        let (character, next) = first_character(unit, behind, encoding);
        let Some(word_behind) = strip_character(character, left) else {
            return false;
        };
        rest = next;
        left = word_behind;
    }
    left.is_empty()
}

/// The character of the pair that begins with this unit, or else of the unit by itself, and the bytes behind it; no
/// character where a surrogate has no partner.
#[tactic(auto, using(crate::proofs::Matching::pair_first, crate::proofs::Matching::lone_last))]
fn first_character<'a>(unit: u16, behind: &'a [u8], encoding: Encoding) -> (Option<char>, &'a [u8])
    ensures first { utf16_chars (unit ∷ units_of encoding behind.now) ≡ result.0 ∷ utf16_chars (units_of encoding result.1.now) }
    ensures shorter { length result.1.now ≤ length behind.now }
{
    let Some((second, rest)) = split_first_unit(behind, encoding) else {
        return (lone_character(unit), behind);
    };
    if is_pair(unit, second) {
        (Some(pair_character(unit, second)), rest)
    } else {
        (lone_character(unit), behind)
    }
}

/// The character of a unit by itself, if it is no surrogate.
fn lone_character(unit: u16) -> Option<char>
    ensures { result ≡ lone_unit_char unit }
{
    char::from_u32(u32::from(unit))
}

/// The character of two units that are a pair of surrogates.
pub fn pair_character(first: u16, second: u16) -> char
    requires { IsTrue (is_high_surrogate first && is_low_surrogate second) }
    ensures { result ≡ surrogate_pair_char first second }
{
    let over = (u32::from(first) - 0xd800) * 0x400 + (u32::from(second) - 0xdc00);
    char::from_u32(0x1_0000 + over).unwrap()
}

/// Whether two units are a pair of surrogates: the first from D800 to DBFF and the second from DC00 to DFFF.
pub fn is_pair(first: u16, second: u16) -> bool
    ensures { result ≡ (is_high_surrogate first && is_low_surrogate second) }
{
    0xd800 <= first && first < 0xdc00 && 0xdc00 <= second && second < 0xe000
}

/// What is left of a text in UTF-8 behind this character, if it begins with it.
fn strip_character(character: Option<char>, word: &[u8]) -> Option<&[u8]>
    ensures { MatchOption result ((characters : List (Option ℕ)) → is_spelled (character ∷ characters) word.now ≡ false) (λ left. (characters : List (Option ℕ)) → is_spelled (character ∷ characters) word.now ≡ is_spelled characters left.now) }
{
    let mut buffer = [0; 4];
    word.strip_prefix(character?.encode_utf8(&mut buffer).as_bytes())
}

/// Bytes decode to a text exactly where both are the same characters, in the two encodings. This is a law of the
/// definitions; the function has no code.
#[tactic(auto, using(crate::proofs::Spelling::decoded_both))]
pub fn decoding_both_ways()
    ensures { (encoding : Encoding) (bytes text : List ℕ) → IsBytes bytes → (decoded encoding bytes ≡ Some text) ↔ Decodes encoding bytes text }
{}

#[cfg(test)]
mod tests {
    use super::*;
    use std::test::Fail;

    /// Whether these bytes decode to that, with ample memory, or don't decode.
    fn is_decoded(
        alloc: Global,
        bytes: &[u8],
        encoding: Encoding,
        want: Option<&[u8]>,
    ) -> Result<bool, AllocError> {
        Ok(match (decode(alloc, bytes, encoding)?, want) {
            (Some(text), Some(want)) => text.as_slice() == want,
            (None, None) => true,
            _ => false,
        })
    }

    #[test]
    fn characters_decode_in_both_orders(rt: HostRuntime) -> Result<(), Fail> {
        let alloc = rt.alloc();
        let table = vec![in alloc;
            (&b""[..], &b""[..], &b""[..]),
            (
                &b"t\0a\0b\0l\0e\0"[..],
                &b"\0t\0a\0b\0l\0e"[..],
                &b"table"[..]
            ),
            (&b"\xff\xfe"[..], &b"\xfe\xff"[..], &b"\xef\xbb\xbf"[..]),
            (
                &b"\x00\xe0\xff\xd7"[..],
                &b"\xe0\x00\xd7\xff"[..],
                &b"\xee\x80\x80\xed\x9f\xbf"[..]
            ),
            (
                &b"a\x00\xe9\x00\x3d\xd8\x00\xde"[..],
                &b"\x00a\x00\xe9\xd8\x3d\xde\x00"[..],
                &b"a\xc3\xa9\xf0\x9f\x98\x80"[..],
            ),
            (
                &b"\xff\xdb\xff\xdf"[..],
                &b"\xdb\xff\xdf\xff"[..],
                &b"\xf4\x8f\xbf\xbf"[..]
            ),
        ]?;
        for (low_first, high_first, text) in &table {
            assert!(rt; is_decoded(alloc, low_first, Encoding::Utf16Le, Some(text))?);
            assert!(rt; is_decoded(alloc, high_first, Encoding::Utf16Be, Some(text))?);
        }
        Ok(())
    }

    #[test]
    fn a_text_is_compared_as_it_is_stored(rt: HostRuntime) {
        let (low, high) = (Encoding::Utf16Le, Encoding::Utf16Be);
        assert!(rt; decodes_to(b"table", Encoding::Utf8, b"table"));
        assert!(rt; decodes_to(b"t\0a\0", low, b"ta"));
        assert!(rt; decodes_to(b"\xd8\x3d\xde\x00\0a", high, b"\xf0\x9f\x98\x80a"));
        // in another encoding, a word that goes on, one that ends before, an odd length, a half alone
        assert!(rt; !decodes_to(b"t\0a\0", high, b"ta"));
        assert!(rt; !decodes_to(b"t\0a\0", low, b"tab"));
        assert!(rt; !decodes_to(b"t\0a\0", low, b"t"));
        assert!(rt; !decodes_to(b"t\0a", low, b"t"));
        assert!(rt; !decodes_to(b"\xd8\x3d", high, b"\xed\xa0\xbd"));
    }

    #[test]
    fn what_spells_no_characters_stays_undecoded(rt: HostRuntime) -> Result<(), Fail> {
        let alloc = rt.alloc();
        // an odd length, a half alone, halves in the wrong order, a half and a character
        let table = vec![in alloc;
            &b"a"[..],
            &b"\x00\xd8a"[..],
            &b"\x00\xd8"[..],
            &b"\x00\xdc"[..],
            &b"\x00\xdc\x00\xd8"[..],
            &b"\x00\xd8a\x00"[..],
            &b"\x00\xd8\x00\xd8\x00\xdc"[..],
        ]?;
        for bytes in &table {
            assert!(rt; is_decoded(alloc, bytes, Encoding::Utf16Le, None)?);
            assert!(rt; is_decoded(alloc, bytes, Encoding::Utf8, Some(bytes))?);
        }
        Ok(())
    }
}
