//! The spans of an image that nothing owns.
ghost use Rattle.std.specs.Prelude.{◌≡◌, ◌≤◌, [], ◌∷◌, MatchOption, IfSome, length};
ghost use Rattle.sx_owned.specs.Runs.{Apart, free_from};

use crate::run::Run;
use std::marker::Model;
use sx_base::Span;

/// The maximal spans of unowned bytes of an image that are still to come, in order.
#[derive(Drop)]
pub struct Unowned<'t> {
    runs: &'t [Run],
    from: u32,
    end: u32,
}

impl<'t> Model for Unowned<'t> {
    ghost use Rattle.std.specs.Prelude.{List};
    ghost use Rattle.sx_base.specs.declared.evidence.Span.{Span};
    ghost use Rattle.sx_owned.specs.Runs.{Apart, free_from};

    ghost Value = { List Span };

    ghost view = { λ free. free_from free.from free.end free.runs.now };

    ghost invariant = { λ free. Apart free.from free.runs.now };
}

impl<'t> Unowned<'t> {
    /// The spans between these runs, up to an end.
    pub(crate) fn new(runs: &'t [Run], end: u32) -> Self
        requires { Apart 0 runs.now }
        ensures { result ≡ free_from 0 end runs.now }
    {
        Unowned { runs, from: 0, end }
    }
}

impl<'t> Iterator for Unowned<'t> {
    ghost use Rattle.std.specs.Iterator.{YieldsFirst, item_count};

    type Item = Span;

    ghost next_gives = { YieldsFirst (λ free. free) };

    ghost remaining = { item_count (λ free. free) };

    fn next(&mut self) -> Option<Span> {
        let (span, from, runs) = next_gap(self.from, self.end, self.runs)?;
        self.from = from;
        self.runs = runs;
        Some(span)
    }
}

/// The first span between runs, and what comes behind it.
#[tactic(auto, using(crate::proofs::RunLemmas::no_gap, crate::proofs::RunLemmas::last_gap, crate::proofs::RunLemmas::skipped, crate::proofs::RunLemmas::one_gap, crate::proofs::RunLemmas::nothing_behind, crate::proofs::RunLemmas::apart_behind))]
fn next_gap<'t>(from: u32, end: u32, runs: &'t [Run]) -> Option<(Span, u32, &'t [Run])>
    requires apart { Apart from runs.now }
    ensures gap { MatchOption result (free_from from end runs.now ≡ []) (λ found. free_from from end runs.now ≡ found.0 ∷ free_from found.1 end found.2.now) }
    ensures apart { IfSome result (λ found. Apart found.1 found.2.now) }
{
    let mut at = from;
    let mut left = runs;
    while let Some((first, others)) = left.split_first() {
        if at < first.start {
            return Some((
                Span {
                    start: at,
                    len: first.start - at,
                },
                first.end,
                others,
            ));
        }
        at = first.end;
        left = others;
    }
    if at < end {
        let (_, none) = left.split_at(left.len());
        return Some((
            Span {
                start: at,
                len: end - at,
            },
            end,
            none,
        ));
    }
    None
}
