//! Cells whose first four bytes were overwritten.
ghost use Rattle.std.specs.Prelude.{◌≡◌, take, ◌+◌, ◌-◌, ◌*◌, ◌^◌, ◌<◌, ◌≤◌, length, is_none, IfSome};
ghost use Rattle.sx_grammar.specs.Shorts.{Finds, AreCounted};
ghost use Rattle.sx_grammar.specs.Records.{Opened};
ghost use Rattle.sx_grammar.specs.Clips.{may_begin, cut_in, rowid_len_in, ends_rowid, is_placed, tail_made, tail_in, goes_on, has_short_header};

use crate::form::Form;
use crate::opened::{Opened, open_record};
use crate::reading::Reading;
use sx_bytes::{be16, varint_len};

/// Where a span begins.
#[derive(Clone, Copy)]
pub struct Setting {
    /// Its place in the page.
    pub offset: u32,
    /// Whether a freeblock begins there.
    pub block: bool,
    /// The longest payload that stands whole in its cell.
    pub longest: u32,
}

/// Whether four bytes with these numbers may begin a span.
#[inline(always)]
#[tactic(auto, unfolding(crate::specs::Clips::may_begin))]
fn may_begin(setting: Setting, len: usize, next: u32, size: u32) -> bool
    requires place { setting.offset ≤ 65535 }
    requires small { size < 65536 }
    ensures { result ≡ may_begin (record { offset = setting.offset; block = setting.block; longest = setting.longest }) len next size }
{
    size >= 4
        && (next == 0 || next >= setting.offset + size)
        && (setting.block || size as usize <= len)
}

/// Whether the first four bytes can't be those of a freeblock.
#[inline(always)]
#[tactic(auto, unfolding(crate::specs::Clips::cut_in))]
pub fn is_no_cut(setting: Setting, bytes: &[u8]) -> bool
    requires place { setting.offset ≤ 65535 }
    ensures { result ≡ is_none (cut_in (record { offset = setting.offset; block = setting.block; longest = setting.longest }) bytes.now) }
{
    if bytes.len() < 4 {
        return true;
    }
    let (four, _) = bytes.split_at(4);
    let next = u32::from(be16(four, 0));
    let size = u32::from(be16(four, 2));
    !may_begin(setting, bytes.len(), next, size)
}

/// What may stand behind the four bytes of a span.
#[tactic(auto, unfolding(crate::specs::Clips::cut_in))]
pub fn cut_in(setting: Setting, bytes: &[u8]) -> Option<&[u8]>
    requires place { setting.offset ≤ 65535 }
    ensures finds { Finds (λ behind. behind.now) result (cut_in (record { offset = setting.offset; block = setting.block; longest = setting.longest }) bytes.now) }
    ensures four { IfSome result (λ behind. 4 + length behind.now ≤ length bytes.now) }
{
    if bytes.len() < 4 {
        return None;
    }
    let (four, behind) = bytes.split_at(4);
    let next = u32::from(be16(four, 0));
    let size = u32::from(be16(four, 2));
    if !may_begin(setting, bytes.len(), next, size) {
        return None;
    }
    Some(front(behind, (size as usize).saturating_sub(4)))
}

/// The first bytes, at most so many.
fn front(bytes: &[u8], len: usize) -> &[u8]
    ensures value { result.now ≡ take len bytes.now }
    ensures within { length result.now ≤ length bytes.now }
{
    if len < bytes.len() {
        bytes.split_at(len).0
    } else {
        bytes
    }
}

/// How many bytes the rowid had.
#[tactic(auto, unfolding(crate::specs::Clips::rowid_len_in))]
pub fn rowid_len_in(payload: u64, together: usize) -> Option<usize>
    requires { together < 2 ^ 32 }
    ensures { result ≡ rowid_len_in payload together }
{
    let size = varint_len(payload);
    if size < together && together <= size + 9 {
        Some(together - size)
    } else {
        None
    }
}

/// Whether these can be the last bytes of a rowid, the ninth among them or not.
#[tactic(auto, using(crate::proofs::ClipLemmas::no_end, crate::proofs::ClipLemmas::last_end, crate::proofs::ClipLemmas::more_end, crate::proofs::ClipLemmas::stopped_end))]
fn ends_rowid(nine: bool, end: &[u8]) -> bool
    ensures { result ≡ ends_rowid nine end.now }
{
    let mut rest = end;
    while rest.len() > 1 {
        if rest[0] < 128 {
            return false;
        }
        rest = rest.split_at(1).1;
    }
    rest.is_empty() || nine || rest[0] < 128
}

/// Whether a record stands in its place.
#[tactic(auto, unfolding(crate::specs::Clips::is_placed))]
fn is_placed(setting: Setting, len: usize, parts: &Opened<'_>) -> bool
    requires bodies { length parts.now.bodies.now ≤ len }
    requires left { parts.now.left ≤ length parts.now.bodies.now }
    ensures { result ≡ is_placed (record { offset = setting.offset; block = setting.block; longest = setting.longest }) len (record { types = parts.now.types.now; bodies = parts.now.bodies.now; columns = parts.now.columns; left = parts.now.left }) }
{
    len - parts.bodies.len() <= 127
        && len as u64 - parts.left <= setting.longest as u64
        && (setting.block || parts.left == 0)
}

/// The record that stands behind the last bytes of a rowid.
#[tactic(auto, unfolding(crate::specs::Clips::tail_made), using(crate::proofs::ColumnLemmas::shown_tail))]
fn tail_made<'a>(
    e: u32,
    setting: Setting,
    end: &[u8],
    len: usize,
    parts: &Opened<'a>,
) -> Option<Reading<'a>>
    requires few { e ≤ 8 }
    requires small { len ≤ 65536 }
    requires bodies { length parts.now.bodies.now ≤ len }
    requires left { parts.now.left ≤ length parts.now.bodies.now }
    requires counted { AreCounted parts.now.types.now parts.now.columns }
    ensures { Finds (λ reading. reading) result (tail_made e (record { offset = setting.offset; block = setting.block; longest = setting.longest }) end.now len (record { types = parts.now.types.now; bodies = parts.now.bodies.now; columns = parts.now.columns; left = parts.now.left })) }
{
    if !is_placed(setting, len, parts) {
        return None;
    }
    let payload = len as u64 - parts.left;
    let rowid_len = rowid_len_in(payload, 4 + e as usize)?;
    if !ends_rowid(rowid_len == 9, end) {
        return None;
    }
    Some(Reading {
        form: Form::Tail(e),
        len: 4 + e + payload as u32,
        rowid: None,
        overflow: None,
        payload: 0,
        local: &[],
        columns: parts.columns,
        types: parts.types,
        bodies: parts
            .bodies
            .split_at(parts.bodies.len() - parts.left as usize)
            .0,
    })
}

/// Whether so many bytes or more can be the last of a rowid, by the byte before the last of so many.
pub fn goes_on(behind: &[u8], e: u32) -> bool
    ensures { result ≡ goes_on behind.now e }
{
    e < 2 || ((e as usize - 2) < behind.len() && behind[e as usize - 2] >= 0x80)
}

/// Whether a record of a header of at most 127 bytes can begin behind so many bytes.
fn has_short_header(behind: &[u8], e: u32) -> bool
    ensures { result ≡ has_short_header behind.now e }
{
    (e as usize) < behind.len() && behind[e as usize] < 0x80
}

/// The record behind the last `e` bytes of a rowid, of what may stand behind the four bytes.
///
/// A header of more than 127 bytes is refused before its types are read.
#[tactic(auto, using(crate::proofs::EarlyLemmas::no_short_header))]
pub fn tail_in(e: u32, setting: Setting, behind: &[u8]) -> Option<Reading<'_>>
    requires few { e ≤ 8 }
    requires small { length behind.now ≤ 65536 }
    ensures { Finds (λ reading. reading) result (tail_in e (record { offset = setting.offset; block = setting.block; longest = setting.longest }) behind.now) }
{
    if !has_short_header(behind, e) {
        return None;
    }
    tail_record(e, setting, behind)
}

/// The same without a look at the header's size first.
#[tactic(auto, unfolding(crate::specs::Clips::tail_in))]
fn tail_record(e: u32, setting: Setting, behind: &[u8]) -> Option<Reading<'_>>
    requires few { e ≤ 8 }
    requires small { length behind.now ≤ 65536 }
    ensures { Finds (λ reading. reading) result (tail_in e (record { offset = setting.offset; block = setting.block; longest = setting.longest }) behind.now) }
{
    if behind.len() < e as usize {
        return None;
    }
    let (end, rest) = behind.split_at(e as usize);
    let parts = open_record(rest.len() as u64, rest)?;
    tail_made(e, setting, end, rest.len(), &parts)
}
