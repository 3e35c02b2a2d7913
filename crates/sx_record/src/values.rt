//! The values of a record's columns, one after the other.
ghost use Rattle.std.specs.Prelude.{◌≡◌};
ghost use Rattle.sx_record.specs.Records.{columns_in, IsFilled};

use crate::serial::{body_len, value_in};
use crate::value::Value;
use std::marker::Model;
use sx_bytes::varint;

/// The values that are still to come, each a borrow of the payload.
#[derive(Drop)]
pub struct Values<'a> {
    types: &'a [u8],
    bodies: &'a [u8],
}

impl<'a> Model for Values<'a> {
    ghost use Rattle.std.specs.Prelude.{List};
    ghost use Rattle.sx_record.specs.Content.{Content};
    ghost use Rattle.sx_record.specs.Records.{columns_in, IsFilled};

    ghost Value = { List Content };

    ghost view = { λ values. columns_in values.types.now values.bodies.now };

    ghost invariant = { λ values. IsFilled values.types.now values.bodies.now };
}

impl<'a> Values<'a> {
    /// The values of these types and bodies.
    pub fn new(types: &'a [u8], bodies: &'a [u8]) -> Self
        requires { IsFilled types.now bodies.now }
        ensures { result ≡ columns_in types.now bodies.now }
    {
        Values { types, bodies }
    }
}

impl<'a> Iterator for Values<'a> {
    ghost use Rattle.std.specs.Iterator.{YieldsFirstBy, item_count};
    ghost use Rattle.sx_record.specs.Content.{content_of};

    type Item = Value<'a>;

    ghost next_gives = { YieldsFirstBy content_of (λ values. values) };

    ghost remaining = { item_count (λ values. values) };

    #[tactic(auto, using(crate::proofs::Columns::no_column, crate::proofs::Columns::one_column, crate::proofs::Columns::body_there, crate::proofs::Columns::filled_behind))]
    fn next(&mut self) -> Option<Value<'a>> {
        let (serial_type, len) = varint(self.types)?;
        let (body, bodies) = self.bodies.split_at(body_len(serial_type) as usize);
        self.types = self.types.split_at(len).1;
        self.bodies = bodies;
        Some(value_in(serial_type, body))
    }
}
