//! The candidate at a place.
ghost use Rattle.std.specs.Prelude.{◌≡◌, ℕ, List, true, ◌++◌, IsSome, drop, ◌-◌, ◌+◌, ◌<◌, ◌≤◌, length};
ghost use Rattle.sx_grammar.specs.Shorts.{Finds};
ghost use Rattle.sx_grammar.specs.Freed.{IsFreed};
ghost use Rattle.sx_grammar.specs.Choice.{Rises, setting_of, accepted_at};

use crate::choice::clipped_in;
use crate::clip::{Setting, cut_in, is_no_cut};
use crate::full::{full_at, is_no_cell};
use crate::reading::Reading;
use crate::shape::ShapeKey;
use sx_bytes::be16;

/// What the forms of a candidate depend on.
#[derive(Clone, Copy)]
pub struct Ctx<'s> {
    /// The usable bytes of a page, from 480 to 65536.
    pub usable: u32,
    /// The shapes of the tables: they rise by their columns, an alias first, are distinct, and have at least one column.
    pub shapes: &'s [ShapeKey],
}

/// Whether a look at the first five bytes at place `at` of a run shows that no form begins there, so that [`accept`] answers
/// `None`.
///
/// A scan asks it at each place before it asks for the candidate: it costs a few nanoseconds, and in a run of text it says so
/// nearly everywhere. The arguments are those of [`accept`]. Takes no memory.
#[inline(always)]
#[tactic(auto, using(crate::proofs::LookLemmas::looked_at))]
pub fn is_ruled_out(run: &[u8], at: u32, page_offset: u32, block: bool, ctx: &Ctx<'_>) -> bool
    requires within { at < length run.now }
    requires place { page_offset ≤ 65535 }
    requires least { 480 ≤ ctx.now.usable }
    ensures { result ≡ true → accepted_at ctx.now.usable ctx.now.shapes.now (setting_of page_offset block ctx.now.usable) (drop at run.now) ≡ None }
{
    let (_, bytes) = run.split_at(at as usize);
    let setting = Setting {
        offset: page_offset,
        block,
        longest: ctx.usable - 35,
    };
    is_no_cell(bytes) && is_no_cut(setting, bytes)
}

/// The candidate that begins at place `at` of a run: the first form, in the order of [`Form`], whose span begins there and
/// lies in the run. A freed cell that begins there is always one.
pub fn accept<'a>(
    run: &'a [u8],
    at: u32,
    page_offset: u32,
    block: bool,
    ctx: &Ctx<'_>,
) -> Option<Reading<'a>>
    requires within { at < length run.now }
    requires small { length run.now ≤ 65536 }
    requires place { page_offset ≤ 65535 }
    requires least { 480 ≤ ctx.now.usable }
    requires greatest { ctx.now.usable ≤ 65536 }
    requires rise { Rises 1 ctx.now.shapes.now }
    ensures first { Finds (λ reading. reading) result (accepted_at ctx.now.usable ctx.now.shapes.now (setting_of page_offset block ctx.now.usable) (drop at run.now)) }
    ensures freed { (span rest : List ℕ) → drop at run.now ≡ span ++ rest → IsFreed ctx.now.shapes.now (setting_of page_offset block ctx.now.usable) span → IsSome result }
{
    accept_first(run.split_at(at as usize).1, page_offset, block, ctx)
}

/// The first form whose span begins these bytes.
#[tactic(auto, using(crate::proofs::ChoiceLemmas::accepted_full, crate::proofs::ChoiceLemmas::accepted_none, crate::proofs::ChoiceLemmas::accepted_cut))]
fn accept_first<'a>(
    bytes: &'a [u8],
    page_offset: u32,
    block: bool,
    ctx: &Ctx<'_>,
) -> Option<Reading<'a>>
    requires small { length bytes.now ≤ 65536 }
    requires place { page_offset ≤ 65535 }
    requires least { 480 ≤ ctx.now.usable }
    requires greatest { ctx.now.usable ≤ 65536 }
    requires rise { Rises 1 ctx.now.shapes.now }
    ensures { Finds (λ reading. reading) result (accepted_at ctx.now.usable ctx.now.shapes.now (setting_of page_offset block ctx.now.usable) bytes.now) }
{
    if let Some(reading) = full_at(bytes, ctx.usable) {
        return Some(reading);
    }
    let setting = Setting {
        offset: page_offset,
        block,
        longest: ctx.usable - 35,
    };
    let behind = cut_in(setting, bytes)?;
    let whole = usize::from(be16(bytes, 2)) <= bytes.len();
    clipped_in(ctx.shapes, setting, whole, behind)
}
