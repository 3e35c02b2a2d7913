//! Pairs that rise: those that are reached now and weren't before.
ghost use Rattle.std.specs.Prelude.{◌≡◌, ◌<◌, ◌≤◌, List, [], length, slice_index_or, IfOk, MatchOption};
ghost use Rattle.sx_follow.specs.Risen.{IsRising, CanRise, HasRisen};
ghost use Rattle.sx_follow.specs.Keeping.{Keeps};
ghost use Rattle.sx_closure.specs.declared.pair.Pair.{Pair as ThePair};
ghost use Rattle.sx_closure.specs.declared.pair.Target.{Target as TheTarget};

use crate::names::Names;
use crate::sums::Sums;
use std::alloc::{AllocError, Global};
use std::marker::Model;
use sx_closure::{Pair, Receiver, Target};

/// Sums that targets are added to, the pairs that were named, and those that none named before, in the order in which they
/// were.
#[derive(Drop)]
pub struct Rising {
    sums: Sums,
    named: Vec<Pair>,
    todo: Vec<Pair>,
}

impl Model for Rising {
    ghost use Rattle.sx_follow.specs.Rising.{Rise};

    ghost Value = { Rise };

    ghost view = { λ rising. record { sums = rising.sums; named = rising.named.items; todo = rising.todo.items } };
}

impl Rising {
    /// These sums, and no pair that was named.
    pub fn from(alloc: Global, sums: Sums) -> Self
        ensures { result ≡ record { sums = sums; named = []; todo = [] } }
    {
        Rising {
            sums,
            named: Vec::new(alloc),
            todo: Vec::new(alloc),
        }
    }

    /// The sums, and the pairs that were named.
    pub fn parts(self) -> (Sums, Vec<Pair>)
        ensures sums { result.0 ≡ self.sums }
        ensures named { result.1.items ≡ self.named }
    {
        (self.sums, self.named)
    }

    /// The pair that rose at place `i`, counted from 0, if so many rose.
    fn todo_at(&self, i: usize) -> Option<Pair>
        ensures { MatchOption result (length self.now.todo ≤ i) (λ pair. (i < length self.now.todo) × (pair ≡ slice_index_or self.now.todo i pair)) }
    {
        if i < self.todo.len() {
            Some(self.todo[i])
        } else {
            None
        }
    }
}

/// Lets rise what is reached by the pairs that rose, until each has been asked.
pub fn rise<N: Names>(names: &N, rising: &mut Rising) -> Result<(), AllocError>
    requires { CanRise (N.graph names.now) rising.old }
    ensures risen { IfOk result (λ _. (lost base : List ThePair) (first : List TheTarget) → IsRising (N.graph names.now) lost base first rising.old → HasRisen (N.graph names.now) lost base first rising.new) }
    ensures kept { IfOk result (λ _. Keeps rising.old.named rising.old.sums rising.new.named rising.new.sums) }
{
    let mut next = 0;
    while let Some(pair) = rising.todo_at(next) {
        names.give(pair, rising)?;
        next += 1;
    }
    Ok(())
}

impl Receiver for Rising {
    ghost use Rattle.sx_follow.specs.Rising.{rose_all};
    ghost use Rattle.sx_follow.specs.Laws.{rose_none, rose_joins};

    ghost after = { rose_all };

    #[tactic(auto, unfolding(crate::specs::Rising::rose_all, crate::specs::Rising::rose))]
    fn take(&mut self, target: Target) -> Result<(), AllocError> {
        let first = self.sums.has_many(0, target.pair);
        self.sums.add(target)?;
        self.named.push(target.pair)?;
        if first {
            self.todo.push(target.pair)?;
        }
        Ok(())
    }

    ghost none = { rose_none };

    ghost joins = { rose_joins };
}
