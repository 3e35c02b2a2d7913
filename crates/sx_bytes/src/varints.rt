//! Variable-length integers.
ghost use Rattle.std.specs.Prelude.{◌≡◌, ◌↔◌, ℕ, ◌+◌, ◌^◌, ◌<◌, ◌≤◌, List, ◌++◌, length, Some, IsNone, IfSome};
ghost use Rattle.sx_bytes.specs.Decoding.{IsBytes};
ghost use Rattle.sx_bytes.specs.Varints.{IsVarint, BeginsWith, EndsInside, varint_at, shortest, short_at};

/// The number at the front of `bytes`, and how many bytes it has there, from 1 to 9 ("B-tree Pages").
///
/// None where the bytes end inside it. At most 9 bytes are read, and most numbers have one.
#[inline]
#[tactic(auto, using(crate::proofs::VarintLemmas::one_byte))]
pub fn varint(bytes: &[u8]) -> Option<(u64, usize)>
    ensures value { result ≡ varint_at bytes.now }
    ensures some { IfSome result (λ found. 0 < found.1) }
    ensures nine { IfSome result (λ found. found.1 ≤ 9) }
    ensures within { IfSome result (λ found. found.1 ≤ length bytes.now) }
{
    match bytes {
        [byte, ..] if *byte < 0x80 => Some((u64::from(*byte), 1)),
        _ => longer_varint(bytes),
    }
}

/// The same byte for byte.
#[tactic(auto, unfolding(crate::specs::Varints::varint_at))]
fn longer_varint(bytes: &[u8]) -> Option<(u64, usize)>
    ensures value { result ≡ varint_at bytes.now }
    ensures some { IfSome result (λ found. 0 < found.1) }
    ensures nine { IfSome result (λ found. found.1 ≤ 9) }
    ensures within { IfSome result (λ found. found.1 ≤ length bytes.now) }
{
    let mut value = 0;
    for (read, byte) in bytes.iter().enumerate() {
        let byte = u64::from(*byte);
        if read == 8 {
            return Some((value * 256 + byte, 9));
        }
        if byte < 128 {
            return Some((value * 128 + byte, read + 1));
        }
        value = value * 128 + byte % 128;
    }
    None
}

/// The number at the front of `bytes` in its shortest spelling, and how many bytes that has, from 1 to 9.
///
/// None where the bytes end inside the number, and where a shorter spelling of it is possible.
#[inline]
#[tactic(auto, using(crate::proofs::VarintLemmas::short_byte))]
pub fn short_varint(bytes: &[u8]) -> Option<(u64, usize)>
    ensures value { result ≡ short_at bytes.now }
    ensures some { IfSome result (λ found. 0 < found.1) }
    ensures nine { IfSome result (λ found. found.1 ≤ 9) }
    ensures within { IfSome result (λ found. found.1 ≤ length bytes.now) }
{
    match bytes {
        [byte, ..] if *byte < 0x80 => Some((u64::from(*byte), 1)),
        _ => longer_short_varint(bytes),
    }
}

/// The same of a number of any length.
#[tactic(auto, unfolding(crate::specs::Varints::short_at))]
fn longer_short_varint(bytes: &[u8]) -> Option<(u64, usize)>
    ensures value { result ≡ short_at bytes.now }
    ensures some { IfSome result (λ found. 0 < found.1) }
    ensures nine { IfSome result (λ found. found.1 ≤ 9) }
    ensures within { IfSome result (λ found. found.1 ≤ length bytes.now) }
{
    let (value, read) = longer_varint(bytes)?;
    if read == varint_len(value) {
        Some((value, read))
    } else {
        None
    }
}

/// How many bytes the shortest spelling of `v` has, from 1 to 9.
#[tactic(auto, unfolding(crate::specs::Varints::shortest))]
pub fn varint_len(v: u64) -> usize
    ensures value { result ≡ shortest v }
    ensures some { 0 < result }
    ensures nine { result ≤ 9 }
{
    if v < 1 << 7 {
        1
    } else if v < 1 << 14 {
        2
    } else if v < 1 << 21 {
        3
    } else if v < 1 << 28 {
        4
    } else if v < 1 << 35 {
        5
    } else if v < 1 << 42 {
        6
    } else if v < 1 << 49 {
        7
    } else if v < 1 << 56 {
        8
    } else {
        9
    }
}

/// What is read is spelled at the front, and what is spelled there is read, whatever follows; nothing is read exactly
/// where the bytes end inside the number. This is a law of the definitions; the function has no code.
#[tactic(auto, using(crate::proofs::VarintLemmas::found, crate::proofs::VarintLemmas::found_back, crate::proofs::VarintLemmas::again, crate::proofs::VarintLemmas::none_ends))]
pub fn varint_both_ways()
    ensures read { (bytes : List ℕ) (value read : ℕ) → (varint_at bytes ≡ Some (value, read)) ↔ BeginsWith bytes value read }
    ensures again { (text rest : List ℕ) (value : ℕ) → IsVarint text value → varint_at (text ++ rest) ≡ Some (value, length text) }
    ensures ends { (bytes : List ℕ) → IsNone (varint_at bytes) ↔ EndsInside bytes }
{}

/// Bytes begin with one number alone: two spellings at one place are the same bytes and spell the same number. This is
/// a law of the definitions; the function has no code.
#[tactic(auto, using(crate::proofs::VarintLemmas::one_text, crate::proofs::VarintLemmas::one_value))]
pub fn one_varint()
    ensures text { (a b x y : List ℕ) (v w : ℕ) → IsVarint a v → IsVarint b w → a ++ x ≡ b ++ y → a ≡ b }
    ensures value { (a b x y : List ℕ) (v w : ℕ) → IsVarint a v → IsVarint b w → a ++ x ≡ b ++ y → v ≡ w }
{}

/// No spelling of a number has fewer bytes than `varint_len` says, and one, of bytes, has as many. This is a law of the
/// definitions; the function has no code.
#[tactic(auto, using(crate::proofs::VarintLengths::none_shorter, crate::proofs::VarintLengths::one_as_short))]
pub fn varint_len_is_least()
    ensures none { (text : List ℕ) (value : ℕ) → IsVarint text value → shortest value ≤ length text }
    ensures one { (value : ℕ) → value < 2 ^ 64 → (text : List ℕ) × IsBytes text × IsVarint text value × (length text ≡ shortest value) }
{}

#[cfg(test)]
mod tests {
    use super::*;
    use std::process::Abort;

    /// The bytes spell that number, they do so whatever follows, and each shorter front of them is cut.
    fn assert_spells(rt: &impl Abort, bytes: &[u8], value: u64, least: usize) {
        let whole = Some((value, bytes.len()));
        assert_eq!(rt; varint(bytes), whole, "in {bytes:?}");
        for cut in 0..bytes.len() {
            assert_eq!(rt; varint(&bytes[..cut]), None, "in {cut} bytes of {bytes:?}");
        }
        assert_eq!(rt; varint_len(value), least, "of {value}");
        let short = if bytes.len() == least { whole } else { None };
        assert_eq!(rt; short_varint(bytes), short, "in {bytes:?}");
    }

    #[test]
    fn shortest_spellings_of_each_length(rt: HostRuntime) {
        assert_spells(&rt, &[0x00], 0, 1);
        assert_spells(&rt, &[0x7f], 127, 1);
        assert_spells(&rt, &[0x81, 0x00], 128, 2);
        assert_spells(&rt, &[0xff, 0x7f], 16383, 2);
        assert_spells(&rt, &[0x81, 0x80, 0x00], 16384, 3);
        assert_spells(&rt, &[0x81, 0x80, 0x80, 0x00], 2097152, 4);
        assert_spells(&rt, &[0x88, 0x80, 0x80, 0x80, 0x00], 2147483648, 5);
        assert_spells(&rt, &[0x81, 0x80, 0x80, 0x80, 0x80, 0x00], 34359738368, 6);
        assert_spells(
            &rt,
            &[0xff, 0xff, 0xff, 0xff, 0xff, 0xff, 0x7f],
            562949953421311,
            7,
        );
        assert_spells(
            &rt,
            &[0x81, 0x80, 0x80, 0x80, 0x80, 0x80, 0x80, 0x00],
            562949953421312,
            8,
        );
        assert_spells(
            &rt,
            &[0xff, 0xff, 0xff, 0xff, 0xff, 0xff, 0xff, 0x7f],
            72057594037927935,
            8,
        );
        assert_spells(
            &rt,
            &[0x80, 0xc0, 0x80, 0x80, 0x80, 0x80, 0x80, 0x80, 0x00],
            72057594037927936,
            9,
        );
        assert_spells(&rt, &[0xff; 9], u64::MAX, 9);
    }

    #[test]
    fn longer_spellings(rt: HostRuntime) {
        assert_spells(&rt, &[0x80, 0x00], 0, 1);
        assert_spells(&rt, &[0x80, 0xff, 0x7f], 16383, 2);
        assert_spells(&rt, &[0x80, 0x81, 0x80, 0x00], 16384, 3);
        assert_spells(
            &rt,
            &[0x80, 0x80, 0x80, 0x80, 0x80, 0x80, 0x80, 0x80, 0x85],
            133,
            2,
        );
    }

    #[test]
    fn what_follows_is_left(rt: HostRuntime) {
        assert_eq!(rt; varint(&[0x81, 0x00, 0x81]), Some((128, 2)));
        assert_eq!(rt; varint(&[0xff; 12]), Some((u64::MAX, 9)));
    }
}
