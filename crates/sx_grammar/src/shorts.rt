//! Numbers and serial types in their shortest spellings.
ghost use Rattle.std.specs.Prelude.{◌≡◌, ◌^◌, ◌<◌, ◌≤◌, length, IfSome};
ghost use Rattle.sx_bytes.specs.Varints.{short_at};
ghost use Rattle.sx_grammar.specs.Shorts.{Finds, short_field, two_bytes, used_types, leaves, lowered, AreCounted};

use sx_record::{body_len, is_unused};

/// The number at the front of `bytes` in its shortest spelling, and how many bytes that has: one of one or two bytes is read
/// without a call.
#[inline(always)]
#[tactic(auto, using(crate::proofs::ShortLemmas::byte_at_front, crate::proofs::TwoBytes::two_at_front))]
pub fn short_varint(bytes: &[u8]) -> Option<(u64, usize)>
    ensures value { result ≡ short_at bytes.now }
    ensures some { IfSome result (λ found. 0 < found.1) }
    ensures within { IfSome result (λ found. found.1 ≤ length bytes.now) }
{
    match bytes {
        [byte, ..] if *byte < 0x80 => Some((u64::from(*byte), 1)),
        [first, second, ..] if *second < 0x80 => two_bytes(u64::from(*first), u64::from(*second)),
        _ => sx_bytes::short_varint(bytes),
    }
}

/// A number of two bytes, where one wouldn't do.
#[inline(always)]
fn two_bytes(first: u64, second: u64) -> Option<(u64, usize)>
    requires goes_on { 128 ≤ first }
    requires first { first < 256 }
    requires second { second < 128 }
    ensures { result ≡ two_bytes first second }
{
    if first == 128 {
        None
    } else {
        Some(((first - 128) * 128 + second, 2))
    }
}

/// A number in its shortest spelling and the bytes behind it.
#[tactic(auto, unfolding(crate::specs::Shorts::short_field))]
pub fn short_field(bytes: &[u8]) -> Option<(u64, &[u8])>
    ensures finds { Finds (λ field. (field.0, field.1.now)) result (short_field bytes.now) }
    ensures shorter { IfSome result (λ field. length field.1.now ≤ length bytes.now) }
{
    let (value, len) = short_varint(bytes)?;
    Some((value, bytes.split_at(len).1))
}

/// How many types stand in these bytes, and what their bodies leave of the room.
///
/// None as soon as one isn't spelled as short as can be, is unused, doesn't end by the end of the bytes or has a body that
/// is longer than what is left.
#[tactic(auto, using(crate::proofs::Counting::none_left, crate::proofs::Counting::one_more, crate::proofs::Counting::unfit, crate::proofs::Counting::unread, crate::proofs::Counting::are_counted))]
pub fn count_types(types: &[u8], room: u64) -> Option<(u32, u64)>
    requires { length types.now < 2 ^ 32 }
    ensures leaves { result ≡ leaves 0 room (used_types types.now) }
    ensures less { IfSome result (λ read. read.1 ≤ room) }
    ensures counted { IfSome result (λ read. AreCounted types.now read.0) }
{
    let mut rest = types;
    let mut columns = 0;
    let mut left = room;
    while !rest.is_empty() {
        let (serial_type, len) = short_varint(rest)?;
        left = lowered(left, serial_type)?;
        columns += 1;
        rest = rest.split_at(len).1;
    }
    Some((columns, left))
}

/// What is left of the room behind the body of a type that a record may have.
#[tactic(auto, unfolding(crate::specs::Shorts::lowered))]
fn lowered(room: u64, serial_type: u64) -> Option<u64>
    ensures value { result ≡ lowered room serial_type }
    ensures less { IfSome result (λ left. left ≤ room) }
{
    if is_unused(serial_type) {
        return None;
    }
    room.checked_sub(body_len(serial_type))
}
