//! The runs of bytes of a page of which the same is claimed.
ghost use Rattle.std.specs.Prelude.{◌≡◌, [], MatchOption};
ghost use Rattle.sx_seglist.specs.Links.{IsList, IsLinked, IsRun, runs_from};

use crate::claimed::Claimed;
use crate::segment::{END, Segment};
use std::marker::Model;
use sx_base::Span;

/// The maximal runs of bytes of a page of which the same is claimed that are still to come, in order.
#[derive(Drop)]
pub struct Segments<'l> {
    items: &'l [Segment],
    next: usize,
}

impl<'l> Model for Segments<'l> {
    ghost use Rattle.std.specs.Prelude.{List};
    ghost use Rattle.sx_base.specs.declared.evidence.Span.{Span};
    ghost use Rattle.sx_seglist.specs.declared.claimed.Claimed.{Claimed};
    ghost use Rattle.sx_seglist.specs.Links.{IsLinked, runs_from};

    ghost Value = { List (Span × Claimed) };

    ghost view = { λ runs. runs_from runs.items.now runs.next };

    ghost invariant = { λ runs. IsLinked runs.items.now runs.next };
}

impl<'l> Segments<'l> {
    /// The runs of a list from its first segment on.
    pub(crate) fn new(items: &'l [Segment]) -> Self
        requires { IsList items.now }
        ensures { result ≡ runs_from items.now 0 }
    {
        Segments { items, next: 0 }
    }
}

impl<'l> Iterator for Segments<'l> {
    ghost use Rattle.std.specs.Iterator.{YieldsFirst, item_count};

    type Item = (Span, Claimed);

    ghost next_gives = { YieldsFirst (λ runs. runs) };

    ghost remaining = { item_count (λ runs. runs) };

    fn next(&mut self) -> Option<(Span, Claimed)> {
        let (run, next) = run_at(self.items, self.next)?;
        self.next = next;
        Some(run)
    }
}

/// The run of the segment of this index, and the index behind it; none at the end mark.
#[tactic(auto, using(crate::proofs::Walking::index_length, crate::proofs::Walking::next_index_length))]
fn run_at(items: &[Segment], index: usize) -> Option<((Span, Claimed), usize)>
    requires { IsLinked items.now index }
    ensures { MatchOption result (runs_from items.now index ≡ []) (λ found. IsRun items.now index found.0 found.1) }
{
    if index == END {
        return None;
    }
    let segment = items[index];
    let span = Span {
        start: segment.start,
        len: items[segment.next].start - segment.start,
    };
    Some(((span, segment.claimed), segment.next))
}
