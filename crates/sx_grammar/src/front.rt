//! Types and bodies of cells whose headers were overwritten.
ghost use Rattle.std.specs.Prelude.{◌≡◌, take, ◌+◌, ◌-◌, ◌*◌, ◌^◌, ◌<◌, ◌≤◌, length, IfSome};
ghost use Rattle.sx_grammar.specs.Shorts.{Finds, AreCounted};
ghost use Rattle.sx_grammar.specs.Fronts.{fronted, front_more, front_of, is_typed, types_made, types_in, first_len, is_lost, lost_made, lost_in};

use crate::clip::{Setting, rowid_len_in};
use crate::form::Form;
use crate::reading::Reading;
use crate::shorts::short_field;
use sx_record::{body_len, is_unused};

/// Types that were read so far.
#[derive(Clone, Copy)]
pub struct Front<'a> {
    /// How many bytes their bodies have.
    pub sum: u64,
    /// What is behind the types.
    pub rest: &'a [u8],
}

/// What was read with one more type, where it fits.
fn fronted(len: usize, serial_type: u64, sum: u64, rest: &[u8]) -> Option<Front<'_>>
    requires { length rest.now ≤ len }
    ensures { Finds (λ read. record { sum = read.sum; rest = read.rest.now }) result (fronted len serial_type sum rest.now) }
{
    if is_unused(serial_type) {
        return None;
    }
    if len - rest.len() <= 126 && sum <= rest.len() as u64 {
        Some(Front { sum, rest })
    } else {
        None
    }
}

/// One more type.
#[tactic(auto, unfolding(crate::specs::Fronts::front_more))]
fn front_more<'a>(len: usize, before: &Front<'a>) -> Option<Front<'a>>
    requires within { length before.now.rest.now ≤ len }
    requires small { before.now.sum ≤ 65536 }
    requires few { len ≤ 65536 }
    ensures finds { Finds (λ read. record { sum = read.sum; rest = read.rest.now }) result (front_more len (record { sum = before.now.sum; rest = before.now.rest.now })) }
    ensures shorter { IfSome result (λ read. length read.rest.now ≤ length before.now.rest.now) }
    ensures fits { IfSome result (λ read. read.sum ≤ length read.rest.now) }
{
    let (serial_type, rest) = short_field(before.rest)?;
    fronted(len, serial_type, before.sum + body_len(serial_type), rest)
}

/// So many more types.
#[tactic(auto, using(crate::proofs::FrontLemmas::front_none, crate::proofs::FrontLemmas::front_step, crate::proofs::FrontLemmas::front_stop))]
pub fn front_of<'a>(len: usize, n: u32, before: &Front<'a>) -> Option<Front<'a>>
    requires within { length before.now.rest.now ≤ len }
    requires small { before.now.sum ≤ length before.now.rest.now }
    requires few { len ≤ 65536 }
    ensures finds { Finds (λ read. record { sum = read.sum; rest = read.rest.now }) result (front_of len n (record { sum = before.now.sum; rest = before.now.rest.now })) }
    ensures shorter { IfSome result (λ read. length read.rest.now ≤ length before.now.rest.now) }
    ensures fits { IfSome result (λ read. read.sum ≤ length read.rest.now) }
{
    let mut read = *before;
    for _ in 0..n {
        read = front_more(len, &read)?;
    }
    Some(read)
}

/// Whether the types of `n` columns stand in their place, behind a header's size.
#[tactic(auto, unfolding(crate::specs::Fronts::is_typed))]
fn is_typed(n: u32, setting: Setting, len: usize, read: &Front<'_>) -> bool
    requires within { length read.now.rest.now ≤ len }
    requires fits { read.now.sum ≤ length read.now.rest.now }
    requires few { len ≤ 65536 }
    ensures { result ≡ is_typed n (record { offset = setting.offset; block = setting.block; longest = setting.longest }) len (record { sum = read.now.sum; rest = read.now.rest.now }) }
{
    0 < n
        && 1 + (len - read.rest.len()) as u64 + read.sum <= setting.longest as u64
        && (setting.block || read.rest.len() as u64 == read.sum)
}

/// The types of `n` columns and their bodies.
#[tactic(auto, unfolding(crate::specs::Fronts::types_made), using(crate::proofs::ColumnLemmas::shown_types))]
pub fn types_made<'a>(
    n: u32,
    setting: Setting,
    behind: &'a [u8],
    read: &Front<'a>,
) -> Option<Reading<'a>>
    requires within { length read.now.rest.now ≤ length behind.now }
    requires fits { read.now.sum ≤ length read.now.rest.now }
    requires few { length behind.now ≤ 65536 }
    requires counted { AreCounted (take (length behind.now - length read.now.rest.now) behind.now) n }
    ensures { Finds (λ reading. reading) result (types_made n (record { offset = setting.offset; block = setting.block; longest = setting.longest }) behind.now (record { sum = read.now.sum; rest = read.now.rest.now })) }
{
    let len = behind.len() - read.rest.len();
    if !is_typed(n, setting, behind.len(), read) {
        return None;
    }
    let _rowid_len = rowid_len_in(1 + len as u64 + read.sum, 3)?;
    Some(Reading {
        form: Form::Types(n),
        len: 4 + len as u32 + read.sum as u32,
        rowid: None,
        overflow: None,
        payload: 0,
        local: &[],
        columns: n,
        types: behind.split_at(len).0,
        bodies: read.rest.split_at(read.sum as usize).0,
    })
}

/// How long the body is whose type is lost.
#[tactic(auto, unfolding(crate::specs::Fronts::first_len))]
fn first_len(alias: bool, whole: bool, left: usize) -> Option<usize>
    ensures value { result ≡ first_len alias whole left }
    ensures within { IfSome result (λ first. first ≤ left) }
{
    if alias {
        return Some(0);
    }
    if whole && left <= 57 {
        Some(left)
    } else {
        None
    }
}

/// Whether the types of all columns but the first stand in their place.
#[tactic(auto, unfolding(crate::specs::Fronts::is_lost))]
fn is_lost(setting: Setting, len: usize, read: &Front<'_>, first: usize) -> bool
    requires within { length read.now.rest.now ≤ len }
    requires fits { first + read.now.sum ≤ length read.now.rest.now }
    requires few { len ≤ 65536 }
    ensures { result ≡ is_lost (record { offset = setting.offset; block = setting.block; longest = setting.longest }) len (record { sum = read.now.sum; rest = read.now.rest.now }) first }
{
    let payload = 2 + (len - read.rest.len()) as u64 + first as u64 + read.sum;
    payload <= 127
        && payload <= setting.longest as u64
        && (setting.block || read.rest.len() as u64 == first as u64 + read.sum)
}

/// The types of all columns but the first, and the bodies of all.
#[tactic(auto, unfolding(crate::specs::Fronts::lost_made), using(crate::proofs::ColumnLemmas::shown_lost))]
pub fn lost_made<'a>(
    n: u32,
    alias: bool,
    setting: Setting,
    whole: bool,
    behind: &'a [u8],
    read: &Front<'a>,
) -> Option<Reading<'a>>
    requires some { 0 < n }
    requires within { length read.now.rest.now ≤ length behind.now }
    requires fits { read.now.sum ≤ length read.now.rest.now }
    requires few { length behind.now ≤ 65536 }
    requires counted { AreCounted (take (length behind.now - length read.now.rest.now) behind.now) (n - 1) }
    ensures { Finds (λ reading. reading) result (lost_made n alias (record { offset = setting.offset; block = setting.block; longest = setting.longest }) whole behind.now (record { sum = read.now.sum; rest = read.now.rest.now })) }
{
    let len = behind.len() - read.rest.len();
    let first = first_len(alias, whole, read.rest.len() - read.sum as usize)?;
    if !is_lost(setting, behind.len(), read, first) {
        return None;
    }
    Some(Reading {
        form: Form::Lost(n, alias),
        len: 4 + len as u32 + first as u32 + read.sum as u32,
        rowid: None,
        overflow: None,
        payload: 0,
        local: &[],
        columns: n,
        types: behind.split_at(len).0,
        bodies: read.rest.split_at(first).1.split_at(read.sum as usize).0,
    })
}
