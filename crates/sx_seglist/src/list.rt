//! What is claimed of each byte of a page.
ghost use Rattle.std.specs.Prelude.{◌≡◌, ℕ, ◌+◌, ◌<◌, ◌≤◌, length, vec_len, vec_capacity, [], IfOk, OnOk, OnErr};
ghost use Rattle.sx_seglist.specs.Claims.{AreCounted, Counts};
ghost use Rattle.sx_seglist.specs.Runs.{AreRuns};
ghost use Rattle.sx_seglist.specs.Links.{IsSegList, IsClaimed, len_of};

use crate::claimed::Claimed;
use crate::links::{cut, holder_of, join, raise};
use crate::segment::{END, Segment};
use crate::walk::Segments;
use std::alloc::{AllocError, Global};
use std::marker::Model;
use sx_base::{Label, Span};

/// What is claimed of each byte of a page. Contracts see it byte by byte.
///
/// The bytes stand in segments of which the same is claimed, in one vector, where each names the next one by its index. No
/// two neighbours have the same claimed of them, and each claim adds at most two segments: the memory is in proportion to
/// the claims, whatever their lengths.
#[derive(Drop)]
pub struct SegList {
    items: Vec<Segment>,
    from: usize,
}

impl Model for SegList {
    ghost use Rattle.std.specs.Prelude.{List};
    ghost use Rattle.sx_seglist.specs.declared.claimed.Claimed.{Claimed};
    ghost use Rattle.sx_seglist.specs.Links.{states_of, IsSegList};

    ghost Value = { List Claimed };

    ghost view = { λ list. states_of list.items.items };

    ghost invariant = { λ list. IsSegList list.items.items list.from };
}

impl SegList {
    /// A page of `len` bytes, from 1 to 65536, of which nothing is claimed.
    ///
    /// It answers `AllocError` where memory runs out. The cost is constant.
    pub fn fresh(alloc: Global, len: u32) -> Result<SegList, AllocError>
        requires some { 1 ≤ len }
        requires page { len ≤ 65536 }
        ensures len { IfOk result (λ made. length made ≡ len) }
        ensures none { IfOk result (λ made. AreCounted [] made) }
    {
        let first = Segment {
            start: 0,
            next: END,
            claimed: Claimed::None,
        };
        let mark = Segment {
            start: len,
            next: END,
            claimed: Claimed::None,
        };
        let items = vec![in alloc; first, mark]?;
        Ok(SegList { items, from: 0 })
    }

    /// Claims the bytes of a span, which lies within the page. A refusal changes nothing, nor does a span of no bytes.
    ///
    /// The search begins where the last claim began, or at the page's start where that is behind the span. Where claims
    /// come by rising start the cost of all of them is linear in their number; in any order a claim costs at most the
    /// segments, of which there are at most two for each claim before.
    /// It answers `AllocError` where memory runs out.
    pub fn claim(&mut self, span: Span, label: Label) -> Result<(), AllocError>
        requires { span.start + span.len ≤ length self.old }
        ensures ok { OnOk result (Counts self.old self.new (span, label)) }
        ensures err { OnErr result (self.new ≡ self.old) }
    {
        if span.len == 0 {
            return Ok(());
        }
        self.items.reserve(2)?;
        self.from = claim_bytes(&mut self.items, self.from, span, label);
        Ok(())
    }

    /// The maximal runs of bytes of which the same is claimed, in order.
    ///
    /// Going over them costs the number of runs. Takes no memory.
    pub fn walk(&self) -> Segments<'_>
        ensures { AreRuns self.now result }
    {
        Segments::new(self.items.as_slice())
    }
}

/// Claims the bytes of a span, and answers the segment at which the next search can begin.
fn claim_bytes(items: &mut Vec<Segment>, from: usize, span: Span, label: Label) -> usize
    requires list { IsSegList items.old.items from }
    requires some { 0 < span.len }
    requires within { span.start + span.len ≤ len_of items.old.items }
    requires room { vec_len items.old + 2 ≤ vec_capacity items.old }
    ensures list { IsSegList items.new.items result }
    ensures claimed { IsClaimed items.old.items items.new.items span label }
{
    let end = span.start + span.len;
    let holder = holder_of(items, from, span.start.saturating_sub(1));
    let first = cut(items, holder, span.start);
    let last = holder_of(items, first, end - 1);
    cut(items, last, end);
    raise(items, first, end, label);
    join(items, holder, end);
    holder
}
