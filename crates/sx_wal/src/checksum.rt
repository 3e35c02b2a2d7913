//! The checksum that runs through a write-ahead log.
ghost use Rattle.std.specs.Prelude.{◌≡◌, ℕ, ◌+◌, ◌≤◌, ◌%◌, Bool, List, ◌++◌, length};
ghost use Rattle.sx_base.specs.Bytes.{little_word_at};
ghost use Rattle.sx_wal.specs.Checksum.{Sums, ordered_word_at, sums_of};

use sx_bytes::be32;

/// Continues the checksum `s` over `bytes`, pairs of words in the byte order of the log's magic: the high byte first
/// where `big` is true ("Checksum Algorithm").
///
/// A checksum begins with the sums 0, 0. It takes time in proportion to the bytes, and no memory.
pub fn sums(big: bool, s: (u32, u32), bytes: &[u8]) -> (u32, u32)
    requires { length bytes.now % 8 ≡ 0 }
    ensures { result ≡ sums_of big s bytes.now }
{
    let (mut first, mut second) = s;
    for pair in 0..bytes.len() / 8 {
        let x = ordered_word(big, bytes, 8 * pair);
        let y = ordered_word(big, bytes, 8 * pair + 4);
        first = first.wrapping_add(x).wrapping_add(second);
        second = second.wrapping_add(y).wrapping_add(first);
    }
    (first, second)
}

/// The word at place `at`, in the byte order of the checksum.
#[inline(always)]
fn ordered_word(big: bool, bytes: &[u8], at: usize) -> u32
    requires { at + 4 ≤ length bytes.now }
    ensures { result ≡ ordered_word_at big bytes.now at }
{
    if big {
        be32(bytes, at)
    } else {
        little_word(bytes, at)
    }
}

/// The word at place `at`, the low byte first.
#[inline(always)]
fn little_word(bytes: &[u8], at: usize) -> u32
    requires { at + 4 ≤ length bytes.now }
    ensures { result ≡ little_word_at bytes.now at }
{
    u32::from_le_bytes([bytes[at], bytes[at + 1], bytes[at + 2], bytes[at + 3]])
}

/// The checksum of two pieces, the first of whole pairs, is that of the second continued from that of the first.
pub fn sums_continue()
    ensures { (big : Bool) (s : Sums) (front back : List ℕ) → length front % 8 ≡ 0
        → sums_of big s (front ++ back) ≡ sums_of big (sums_of big s front) back }
{}
