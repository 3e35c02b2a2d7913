//! The types of a record's header, read once.
ghost use Rattle.std.specs.Prelude.{◌≡◌, ◌^◌, ◌<◌, length, Some};
ghost use Rattle.std.specs.Option.{option_map};
ghost use Rattle.sx_record.specs.Records.{types_in, survey_of};
ghost use Rattle.sx_record.specs.Surveys.{lowered};

use crate::serial::{body_len, is_unused};
use sx_bytes::varint;

/// What the types of a header say.
#[derive(Clone, Copy)]
pub struct Survey {
    /// How many there are.
    pub columns: u32,
    /// Whether one of them is unused.
    pub unused: bool,
    /// Whether their bodies are of the wanted length.
    pub fits: bool,
}

/// Reads the types in these bytes, whose bodies should have `room` bytes; `None` where one doesn't end by their end.
///
/// The bodies' lengths are taken off the room as long as it lasts, so no sum of them is ever above it.
#[tactic(auto, using(crate::proofs::Surveying::surveyed_start, crate::proofs::Surveying::surveyed_all, crate::proofs::Surveying::surveyed_more, crate::proofs::Surveying::surveyed_none))]
pub fn survey_types(types: &[u8], room: u64) -> Option<Survey>
    requires { length types.now < 2 ^ 32 }
    ensures { result ≡ option_map (survey_of room) (types_in types.now) }
{
    let mut rest = types;
    let mut columns = 0;
    let mut unused = false;
    let mut left = Some(room);
    while !rest.is_empty() {
        let (serial_type, len) = varint(rest)?;
        columns += 1;
        unused |= is_unused(serial_type);
        left = lowered(left, serial_type);
        rest = rest.split_at(len).1;
    }
    let fits = match left {
        Some(room) => room == 0,
        None => false,
    };
    Some(Survey {
        columns,
        unused,
        fits,
    })
}

/// What is left of the room behind the body of this type, or `None` where it doesn't reach.
fn lowered(left: Option<u64>, serial_type: u64) -> Option<u64>
    ensures { result ≡ lowered left serial_type }
{
    match left {
        Some(room) => room.checked_sub(body_len(serial_type)),
        None => None,
    }
}
