//! What is kept while targets are counted.
ghost use Rattle.std.specs.Prelude.{◌≡◌, ◌+◌, ◌*◌, ◌^◌, ◌<◌, ◌≤◌, List, [], length, map, slice_index_or, fold, IfOk, MatchOption};
ghost use Rattle.sx_closure.specs.Graph.{Rises};
ghost use Rattle.sx_closure.specs.Tallying.{blank, added, numbered};

use crate::pair::{Pair, Target};
use crate::rank::rank_of;
use crate::receiver::Receiver;
use crate::table::{Entry, RefTable};
use std::alloc::{AllocError, Global};
use std::marker::Model;

/// The roles in which a page may be named.
const ROLES: usize = 5;

/// What is kept while targets are counted: for each held page what refers to it, the pairs that were met in the order in
/// which they were met first, and how many targets aren't held.
#[derive(Drop)]
pub struct Tally {
    held: Vec<u32>,
    entries: Vec<Entry>,
    met: Vec<Pair>,
    dead: u64,
}

impl Model for Tally {
    ghost use Rattle.std.specs.Prelude.{◌≡◌, length};
    ghost use Rattle.sx_closure.specs.Graph.{Rises};
    ghost use Rattle.sx_closure.specs.Tallying.{Tallied};

    ghost Value = { Tallied };

    ghost view = { λ tally. record { held = tally.held.items; entries = tally.entries.items; met = tally.met.items; dead = tally.dead } };

    ghost invariant = { λ tally. Rises tally.held.items × (length tally.entries.items ≡ length tally.held.items) };
}

impl Tally {
    /// A tally of nothing, over pages whose numbers rise. It takes all memory that the counting needs.
    #[tactic(auto, using(crate::proofs::Tallies::blank_each))]
    pub(crate) fn fresh(alloc: Global, held: Vec<u32>) -> Result<Self, AllocError>
        requires rises { Rises held.items }
        requires few { length held.items < 2 ^ 32 }
        ensures { IfOk result (λ tally. tally ≡ record { held = held.items; entries = map (λ page. blank) held.items; met = []; dead = 0 }) }
    {
        let entries = vec![in alloc; Entry::blank(); held.len()]?;
        let met = Vec::with_capacity(alloc, ROLES * held.len())?;
        Ok(Tally {
            held,
            entries,
            met,
            dead: 0,
        })
    }

    /// Counts one target more. A pair that is met for the first time is put behind the others.
    #[tactic(auto, unfolding(crate::specs::Tallying::added))]
    fn add(&mut self, target: Target) -> Result<(), AllocError>
        ensures { IfOk result (λ _. self.new ≡ added self.old target) }
    {
        match rank_of(&self.held, target.pair.page) {
            None => self.dead = self.dead.saturating_add(1),
            Some(rank) => {
                let entry = self.entries[rank];
                if !entry.marks.has(target.pair.role) {
                    self.met.push(target.pair)?;
                }
                self.entries[rank] = entry.counted(target);
            }
        }
        Ok(())
    }

    /// The pair that was met at place `i`, counted from 0, if so many were met.
    pub(crate) fn met_at(&self, i: usize) -> Option<Pair>
        ensures { MatchOption result (length self.now.met ≤ i) (λ pair. (i < length self.now.met) × (pair ≡ slice_index_or self.now.met i pair)) }
    {
        if i < self.met.len() {
            Some(self.met[i])
        } else {
            None
        }
    }

    /// The table that was counted, with its chains numbered: the pages in the order in which they were met, so that the page
    /// before each comes first. `lefts` is as long as the list of held pages, and a page holds `body` bytes of a payload.
    pub(crate) fn table(self, lefts: Vec<Option<u32>>, body: u32) -> RefTable
        requires { length lefts.items ≡ length self.held }
        ensures { result ≡ fold (numbered body) (record { held = self.held; entries = self.entries; lefts = lefts.items; dead = self.dead }) self.met }
    {
        let mut table = RefTable::new(self.held, self.entries, lefts, self.dead);
        for pair in &self.met {
            table.number(*pair, body);
        }
        table
    }
}

impl Receiver for Tally {
    ghost use Rattle.sx_closure.specs.Tallying.{added_all};
    ghost use Rattle.sx_closure.specs.Laws.{added_none, added_joins};

    ghost after = { added_all };

    #[tactic(auto, unfolding(crate::specs::Tallying::added_all))]
    fn take(&mut self, target: Target) -> Result<(), AllocError> {
        self.add(target)
    }

    ghost none = { added_none };

    ghost joins = { added_joins };
}
