//! The columns of a record.
ghost use Rattle.std.specs.Prelude.{◌≡◌, ◌↔◌, ℕ, ◌^◌, ◌<◌, ◌≤◌, List, length, slice_get, IfSome, MatchOption, MatchResult, Some, None, Ok, Err};
ghost use Rattle.sx_record.specs.Content.{Content, content_of};
ghost use Rattle.sx_record.specs.Layout.{HasHeader, IsRecord, IsUnusable, IsMisfilled};
ghost use Rattle.sx_record.specs.Records.{types_in, parts_of, typed_record, record_of};

use crate::fault::RecordFault;
use crate::survey::survey_types;
use crate::value::Value;
use crate::values::Values;
use std::marker::Model;
use sx_bytes::varint;

/// The columns of a record whose header reads and whose bodies are the rest of its payload ("Record Format").
#[derive(Drop)]
pub struct Fields<'a> {
    types: &'a [u8],
    bodies: &'a [u8],
    columns: u32,
}

impl<'a> Model for Fields<'a> {
    ghost use Rattle.std.specs.Prelude.{◌≡◌, List, length};
    ghost use Rattle.sx_record.specs.Content.{Content};
    ghost use Rattle.sx_record.specs.Records.{columns_in, IsFilled};

    ghost Value = { List Content };

    ghost view = { λ fields. columns_in fields.types.now fields.bodies.now };

    ghost invariant = { λ fields. IsFilled fields.types.now fields.bodies.now × (fields.columns ≡ length (columns_in fields.types.now fields.bodies.now)) };
}

/// Reads the header of a payload of at most 4,294,967,295 bytes ("Record Format").
///
/// The fault is the first in the order of [`RecordFault`]. The cost is linear in the header; it takes no memory, and no
/// body is read.
#[tactic(auto, unfolding(crate::specs::Records::record_of))]
pub fn read_types(payload: &[u8]) -> Result<Fields<'_>, RecordFault>
    requires { length payload.now < 2 ^ 32 }
    ensures { MatchResult result (λ fields. record_of payload.now ≡ Ok fields) (λ fault. record_of payload.now ≡ Err fault) }
{
    match split_header(payload) {
        Some((types, bodies)) => read_parts(types, bodies),
        None => Err(RecordFault::HeaderSize),
    }
}

/// The bytes of the types and those behind the header.
#[tactic(auto, unfolding(crate::specs::Records::parts_of))]
fn split_header(payload: &[u8]) -> Option<(&[u8], &[u8])>
    ensures parts { MatchOption result (parts_of payload.now ≡ None) (λ parts. parts_of payload.now ≡ Some (parts.0.now, parts.1.now)) }
    ensures shorter { IfSome result (λ parts. length parts.0.now ≤ length payload.now) }
{
    let (size, len) = varint(payload)?;
    if size < len as u64 || size > payload.len() as u64 {
        return None;
    }
    let (_, behind) = payload.split_at(len);
    Some(behind.split_at(size as usize - len))
}

/// The columns of these types and bodies.
#[tactic(auto, using(crate::proofs::Surveying::unread, crate::proofs::Surveying::unused_found, crate::proofs::Surveying::unfilled_found, crate::proofs::Surveying::filled_found, crate::proofs::Surveying::filled_is, crate::proofs::Surveying::filled_count))]
fn read_parts<'a>(types: &'a [u8], bodies: &'a [u8]) -> Result<Fields<'a>, RecordFault>
    requires { length types.now < 2 ^ 32 }
    ensures { MatchResult result (λ fields. typed_record bodies.now (types_in types.now) ≡ Ok fields) (λ fault. typed_record bodies.now (types_in types.now) ≡ Err fault) }
{
    let Some(survey) = survey_types(types, bodies.len() as u64) else {
        return Err(RecordFault::HeaderSize);
    };
    if survey.unused {
        return Err(RecordFault::UnusedType);
    }
    if !survey.fits {
        return Err(RecordFault::BodyLength);
    }
    Ok(Fields {
        types,
        bodies,
        columns: survey.columns,
    })
}

/// A payload is read as a record exactly where it is one in the words of the format, with the same columns, and each
/// fault is answered exactly where it is the first one. This is a law of the definitions; the function has no code.
#[tactic(auto, using(crate::proofs::Layouts::unusable_both, crate::proofs::Layouts::misfilled_both))]
pub fn records_both_ways()
    ensures record { (payload : List ℕ) (columns : List Content) → (record_of payload ≡ Ok columns) ↔ IsRecord payload columns }
    ensures header_size { (payload : List ℕ) → (record_of payload ≡ Err RecordFault.HeaderSize) ↔ ((types bodies : List ℕ) → HasHeader payload types bodies → ⊥) }
    ensures unused_type { (payload : List ℕ) → (record_of payload ≡ Err RecordFault.UnusedType) ↔ IsUnusable payload }
    ensures body_length { (payload : List ℕ) → (record_of payload ≡ Err RecordFault.BodyLength) ↔ IsMisfilled payload }
{}

impl<'a> Fields<'a> {
    /// How many columns there are.
    pub fn columns(&self) -> u32
        ensures { result ≡ length self.now }
    {
        self.columns
    }

    /// The value of the column of this number, from 0: a borrow of the payload.
    ///
    /// The cost is linear in the header up to this column. Takes no memory.
    pub fn value(&self, i: u32) -> Value<'a>
        requires { i < length self.now }
        ensures { slice_get self.now i ≡ Some (content_of result) }
    {
        let mut values = self.values();
        for _ in 0..i {
            let _ = values.next();
        }
        values.next().unwrap()
    }

    /// The values of all columns in order.
    ///
    /// Going over them costs the header once. Takes no memory.
    pub fn values(&self) -> Values<'a>
        ensures { result ≡ self.now }
    {
        Values::new(self.types, self.bodies)
    }
}
