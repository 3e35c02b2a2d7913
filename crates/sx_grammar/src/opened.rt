//! The front of a record.
ghost use Rattle.std.specs.Prelude.{◌≡◌, ◌^◌, ◌+◌, ◌-◌, ◌<◌, ◌≤◌, length, IfSome};
ghost use Rattle.sx_grammar.specs.Shorts.{Finds, used_types, AreCounted};
ghost use Rattle.sx_grammar.specs.Records.{header_parts, record_in};

use crate::shorts::{count_types, short_varint};

/// The header of a record, and what of its bodies is there.
#[derive(Clone, Copy)]
pub struct Opened<'a> {
    /// The bytes of the types.
    pub types: &'a [u8],
    /// The bytes behind the header.
    pub bodies: &'a [u8],
    /// How many types there are.
    pub columns: u32,
    /// What the bodies leave of the record's bytes.
    pub left: u64,
}

/// The bytes of the types and those behind the header.
#[tactic(auto, unfolding(crate::specs::Records::header_parts))]
fn split_header(bytes: &[u8]) -> Option<(&[u8], &[u8])>
    ensures parts { Finds (λ parts. (parts.0.now, parts.1.now)) result (header_parts bytes.now) }
    ensures shorter { IfSome result (λ parts. length parts.0.now + length parts.1.now ≤ length bytes.now) }
{
    let (size, len) = short_varint(bytes)?;
    if size < len as u64 || size > bytes.len() as u64 {
        return None;
    }
    let (_, behind) = bytes.split_at(len);
    Some(behind.split_at(size as usize - len))
}

/// The record of so many bytes that begins with these.
#[tactic(auto, unfolding(crate::specs::Records::record_in))]
pub fn open_record(payload: u64, bytes: &[u8]) -> Option<Opened<'_>>
    requires small { length bytes.now < 2 ^ 32 }
    requires part { length bytes.now ≤ payload }
    ensures finds { Finds (λ parts. record { types = parts.types.now; bodies = parts.bodies.now; columns = parts.columns; left = parts.left }) result (record_in payload bytes.now) }
    ensures shorter { IfSome result (λ parts. length parts.bodies.now ≤ length bytes.now) }
    ensures left { IfSome result (λ parts. parts.left + (length bytes.now - length parts.bodies.now) ≤ payload) }
    ensures counted { IfSome result (λ parts. AreCounted parts.types.now parts.columns) }
{
    let (types, bodies) = split_header(bytes)?;
    let header = bytes.len() - bodies.len();
    let (columns, left) = count_types(types, payload - header as u64)?;
    if columns == 0 {
        return None;
    }
    Some(Opened {
        types,
        bodies,
        columns,
        left,
    })
}
