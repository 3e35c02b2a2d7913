//! A cell of a table leaf that still stands whole.
ghost use Rattle.std.specs.Prelude.{◌≡◌, ◌^◌, ◌<◌, ◌≤◌, length, IfSome};
ghost use Rattle.sx_grammar.specs.Shorts.{Finds};
ghost use Rattle.sx_grammar.specs.Full.{link_field, held_in, held_at, full_at, least_body, is_no_header, is_no_cell};

use crate::form::Form;
use crate::opened::open_record;
use crate::reading::Reading;
use crate::shorts::short_field;
use sx_bytes::be32;
use sx_cell::{Kind, local_len};

/// The longest payload that a cell may have.
const LONGEST_PAYLOAD: u64 = 2147483647;

/// The local part of a payload, the overflow page behind it, and the bytes behind both.
#[derive(Clone, Copy)]
struct Held<'a> {
    local: &'a [u8],
    overflow: Option<u32>,
    rest: &'a [u8],
}

/// Whether a look at the first bytes shows that no whole cell begins there.
///
/// Where the payload's length and the rowid have one byte each, as in runs of text, the header's size and the first two
/// types tell it. All tests are made, since which of them fails can't be foreseen in a run of text and a wrong guess of the
/// processor costs more than they do.
#[inline(always)]
pub fn is_no_cell(bytes: &[u8]) -> bool
    ensures { result ≡ is_no_cell bytes.now }
{
    bytes.len() > 4
        && ((bytes[0] < 0x80)
            & (bytes[1] < 0x80)
            & is_no_header(
                u32::from(bytes[0]),
                u32::from(bytes[2]),
                u32::from(bytes[3]),
                u32::from(bytes[4]),
            ))
}

/// Whether a header of such a size with such types has no place in a payload of so many bytes.
#[inline(always)]
fn is_no_header(payload: u32, header: u32, first: u32, second: u32) -> bool
    requires header { header < 2 ^ 8 }
    ensures { result ≡ is_no_header payload header first second }
{
    let one = header + least_body(first);
    let two = one + least_body(second);
    (header < 2)
        | (payload < header)
        | (payload < one)
        | ((first < 0x80) & (header >= 3) & (payload < two))
}

/// At most so many bytes as the body of a type of one byte has; a longer type isn't looked at.
#[inline(always)]
fn least_body(serial_type: u32) -> u32
    ensures value { result ≡ least_body serial_type }
    ensures small { result < 128 }
{
    if serial_type < 0x80 {
        serial_type.saturating_sub(12) / 2
    } else {
        0
    }
}

/// The whole cell at the front of these bytes, on pages with so many usable ones.
#[tactic(auto, unfolding(crate::specs::Full::full_at), using(crate::proofs::ColumnLemmas::shown_full))]
pub fn full_at(bytes: &[u8], usable: u32) -> Option<Reading<'_>>
    requires least { 480 ≤ usable }
    requires greatest { usable ≤ 65536 }
    requires small { length bytes.now ≤ 65536 }
    ensures finds { Finds (λ reading. reading) result (full_at usable bytes.now) }
{
    let (payload, behind_size) = short_field(bytes)?;
    if payload < 2 {
        return None;
    }
    let (rowid, behind_key) = short_field(behind_size)?;
    let held = split_local(payload, usable, behind_key)?;
    let parts = open_record(payload, held.local)?;
    if parts.left != 0 {
        return None;
    }
    Some(Reading {
        form: Form::Full,
        len: (bytes.len() - held.rest.len()) as u32,
        rowid: Some(rowid.cast_signed()),
        overflow: held.overflow,
        payload,
        local: held.local,
        columns: parts.columns,
        types: parts.types,
        bodies: parts.bodies,
    })
}

/// The local part of a payload and what is behind it.
#[tactic(auto, unfolding(crate::specs::Full::held_at))]
fn split_local(payload: u64, usable: u32, bytes: &[u8]) -> Option<Held<'_>>
    requires least { 480 ≤ usable }
    requires greatest { usable ≤ 65536 }
    ensures finds { Finds (λ held. record { local = held.local.now; overflow = held.overflow; rest = held.rest.now }) result (held_at usable payload bytes.now) }
    ensures shorter { IfSome result (λ held. length held.rest.now ≤ length bytes.now) }
    ensures part { IfSome result (λ held. length held.local.now ≤ payload) }
    ensures few { IfSome result (λ held. payload ≤ 2147483647) }
    ensures within { IfSome result (λ held. length held.local.now ≤ length bytes.now) }
{
    if payload > LONGEST_PAYLOAD {
        return None;
    }
    let local = local_len(Kind::TableLeaf, payload, usable) as usize;
    if bytes.len() < local {
        return None;
    }
    split_held(local, payload > usable as u64 - 35, bytes)
}

/// A local part of so many bytes and what is behind it.
#[tactic(auto, unfolding(crate::specs::Full::held_in))]
fn split_held(len: usize, spilled: bool, bytes: &[u8]) -> Option<Held<'_>>
    requires { len ≤ length bytes.now }
    ensures finds { Finds (λ held. record { local = held.local.now; overflow = held.overflow; rest = held.rest.now }) result (held_in len spilled bytes.now) }
    ensures shorter { IfSome result (λ held. length held.rest.now ≤ length bytes.now) }
    ensures long { IfSome result (λ held. length held.local.now ≡ len) }
{
    let (local, behind) = bytes.split_at(len);
    let (overflow, rest) = link_field(spilled, behind)?;
    Some(Held {
        local,
        overflow,
        rest,
    })
}

/// The number of the first overflow page, where there is one: it isn't 0.
#[tactic(auto, unfolding(crate::specs::Full::link_field))]
fn link_field(there: bool, bytes: &[u8]) -> Option<(Option<u32>, &[u8])>
    ensures finds { Finds (λ field. (field.0, field.1.now)) result (link_field there bytes.now) }
    ensures shorter { IfSome result (λ field. length field.1.now ≤ length bytes.now) }
{
    if !there {
        return Some((None, bytes));
    }
    if bytes.len() < 4 {
        return None;
    }
    let (word, rest) = bytes.split_at(4);
    let page = be32(word, 0);
    if page == 0 {
        return None;
    }
    Some((Some(page), rest))
}
