//! The serial types at the front of a header.
ghost use Rattle.std.specs.Prelude.{◌≡◌, ◌↔◌, ℕ, List};
ghost use Rattle.sx_record.specs.Spelled.{spelled_types, AreSpelled};

use std::marker::Model;
use sx_bytes::varint;

/// The serial types that are still to come, each with how many bytes its spelling has, from 1 to 9.
#[derive(Drop)]
pub struct SerialTypes<'a> {
    rest: &'a [u8],
}

impl<'a> Model for SerialTypes<'a> {
    ghost use Rattle.std.specs.Prelude.{ℕ, List};
    ghost use Rattle.sx_record.specs.Spelled.{spelled_types};

    ghost Value = { List (ℕ × ℕ) };

    ghost view = { λ types. spelled_types types.rest.now };
}

/// The serial types that stand one after the other in these bytes, each with how many bytes its spelling has, up to the
/// first that doesn't end by their end ("Record Format").
///
/// The bytes may be any front of a header behind its size. Going over them costs the front once; takes no memory.
pub fn serial_types(bytes: &[u8]) -> SerialTypes<'_>
    ensures { result ≡ spelled_types bytes.now }
{
    SerialTypes { rest: bytes }
}

/// The types given are those that the bytes spell one after the other until they end inside one. This is a law of the
/// definitions; the function has no code.
#[tactic(auto, using(crate::proofs::Spelled::spelled_both))]
pub fn serial_types_both_ways()
    ensures { (bytes : List ℕ) (types : List (ℕ × ℕ)) → (spelled_types bytes ≡ types) ↔ AreSpelled types bytes }
{}

impl<'a> Iterator for SerialTypes<'a> {
    ghost use Rattle.std.specs.Iterator.{YieldsFirst, item_count};

    type Item = (u64, usize);

    ghost next_gives = { YieldsFirst (λ types. types) };

    ghost remaining = { item_count (λ types. types) };

    #[tactic(auto, using(crate::proofs::Spelled::none_spelled, crate::proofs::Spelled::one_spelled))]
    fn next(&mut self) -> Option<(u64, usize)> {
        let (serial_type, len) = varint(self.rest)?;
        self.rest = self.rest.split_at(len).1;
        Some((serial_type, len))
    }
}
