//! The fields of a cell, each read from the front of the bytes that are left.
ghost use Rattle.std.specs.Prelude.{◌≡◌, ◌≤◌, length, IfOk};
ghost use Rattle.sx_cell.specs.Local.{longest_payload};
ghost use Rattle.sx_cell.specs.Fields.{Reads, word_field, varint_field, word_if, size_field, signed_field, key_field};

use crate::cell::{CellFault, Kind};
use crate::local::LONGEST_PAYLOAD;
use sx_bytes::{be32, varint};

/// A word and the bytes behind it.
#[tactic(auto, unfolding(crate::specs::Fields::word_field))]
fn read_word(bytes: &[u8]) -> Result<(u32, &[u8]), CellFault>
    ensures reads { Reads (λ field. (field.0, field.1.now)) result (word_field bytes.now) }
    ensures shorter { IfOk result (λ field. length field.1.now ≤ length bytes.now) }
{
    if bytes.len() < 4 {
        return Err(CellFault::Outside);
    }
    let (word, rest) = bytes.split_at(4);
    Ok((be32(word, 0), rest))
}

/// A variable-length integer and the bytes behind it.
#[tactic(auto, unfolding(crate::specs::Fields::varint_field))]
fn read_varint(bytes: &[u8]) -> Result<(u64, &[u8]), CellFault>
    ensures reads { Reads (λ field. (field.0, field.1.now)) result (varint_field bytes.now) }
    ensures shorter { IfOk result (λ field. length field.1.now ≤ length bytes.now) }
{
    match varint(bytes) {
        None => Err(CellFault::Outside),
        Some((value, read)) => {
            let (_, rest) = bytes.split_at(read);
            Ok((value, rest))
        }
    }
}

/// A page number and the bytes behind it, where there is one.
#[tactic(auto, unfolding(crate::specs::Fields::word_if))]
pub fn read_word_if(there: bool, bytes: &[u8]) -> Result<(Option<u32>, &[u8]), CellFault>
    ensures reads { Reads (λ field. (field.0, field.1.now)) result (word_if there bytes.now) }
    ensures shorter { IfOk result (λ field. length field.1.now ≤ length bytes.now) }
{
    if !there {
        return Ok((None, bytes));
    }
    let (word, rest) = read_word(bytes)?;
    Ok((Some(word), rest))
}

/// The length of the payload and the bytes behind it: 0 and all bytes for interior cells of a table.
#[tactic(auto, unfolding(crate::specs::Fields::size_field))]
pub fn read_size(kind: Kind, bytes: &[u8]) -> Result<(u64, &[u8]), CellFault>
    ensures reads { Reads (λ field. (field.0, field.1.now)) result (size_field kind bytes.now) }
    ensures shorter { IfOk result (λ field. length field.1.now ≤ length bytes.now) }
    ensures limited { IfOk result (λ field. field.0 ≤ longest_payload) }
{
    if kind == Kind::TableInner {
        return Ok((0, bytes));
    }
    let (size, rest) = read_varint(bytes)?;
    if size > LONGEST_PAYLOAD {
        return Err(CellFault::TooLong);
    }
    Ok((size, rest))
}

/// A signed number and the bytes behind it.
#[tactic(auto, unfolding(crate::specs::Fields::signed_field))]
fn read_signed(bytes: &[u8]) -> Result<(Option<i64>, &[u8]), CellFault>
    ensures reads { Reads (λ field. (field.0, field.1.now)) result (signed_field bytes.now) }
    ensures shorter { IfOk result (λ field. length field.1.now ≤ length bytes.now) }
{
    let (bits, rest) = read_varint(bytes)?;
    Ok((Some(bits.cast_signed()), rest))
}

/// The rowid or the key and the bytes behind it: none and all bytes for cells of an index.
#[tactic(auto, unfolding(crate::specs::Fields::key_field))]
pub fn read_key(kind: Kind, bytes: &[u8]) -> Result<(Option<i64>, &[u8]), CellFault>
    ensures reads { Reads (λ field. (field.0, field.1.now)) result (key_field kind bytes.now) }
    ensures shorter { IfOk result (λ field. length field.1.now ≤ length bytes.now) }
{
    match kind {
        Kind::TableLeaf | Kind::TableInner => read_signed(bytes),
        Kind::IndexLeaf | Kind::IndexInner => Ok((None, bytes)),
    }
}
