//! Pairs that fall: those that were reached before and are named no more.
ghost use Rattle.std.specs.Prelude.{◌≡◌, ◌<◌, ◌≤◌, [], length, slice_index_or, IfOk, IfSome, MatchOption};
ghost use Rattle.sx_follow.specs.Falling.{CanFall, HasFallen};
ghost use Rattle.sx_follow.specs.Keeping.{Keeps};
ghost use Rattle.sx_follow.specs.Climbing.{AllHaveWays};

use crate::followed::Followed;
use crate::names::Names;
use crate::sums::Sums;
use std::alloc::{AllocError, Global};
use std::marker::Model;
use sx_closure::{Pair, Receiver, Target};

/// Sums that targets are taken back from, the pairs that lost a name, and those that lost their last one, in the order in
/// which they did.
#[derive(Drop)]
pub struct Falling {
    sums: Sums,
    lost: Vec<Pair>,
    todo: Vec<Pair>,
}

impl Model for Falling {
    ghost use Rattle.sx_follow.specs.Falling.{Fall};

    ghost Value = { Fall };

    ghost view = { λ falling. record { sums = falling.sums; lost = falling.lost.items; todo = falling.todo.items } };
}

impl Falling {
    /// These sums, and no pair that lost a name.
    pub fn from(alloc: Global, sums: Sums) -> Self
        ensures { result ≡ record { sums = sums; lost = []; todo = [] } }
    {
        Falling {
            sums,
            lost: Vec::new(alloc),
            todo: Vec::new(alloc),
        }
    }

    /// The sums and the pairs that lost a name, with those that were named before, where each pair that lost a name and is
    /// named still has a way of single references from a root, in so many steps together.
    pub(crate) fn checked(self, named: Vec<Pair>, steps: u64) -> Option<Followed>
        ensures sums { IfSome result (λ followed. followed.sums ≡ self.sums) }
        ensures ways { IfSome result (λ followed. AllHaveWays self.sums self.lost) }
        ensures named { IfSome result (λ followed. followed.named.items ≡ named.items) }
        ensures lost { IfSome result (λ followed. followed.lost.items ≡ self.lost) }
    {
        if self.sums.all_have_ways(&self.lost, steps) {
            Some(Followed {
                sums: self.sums,
                named,
                lost: self.lost,
            })
        } else {
            None
        }
    }

    /// The pair that fell at place `i`, counted from 0, if so many fell.
    fn todo_at(&self, i: usize) -> Option<Pair>
        ensures { MatchOption result (length self.now.todo ≤ i) (λ pair. (i < length self.now.todo) × (pair ≡ slice_index_or self.now.todo i pair)) }
    {
        if i < self.todo.len() {
            Some(self.todo[i])
        } else {
            None
        }
    }
}

/// Takes back what the pairs that fell name, until all is taken back.
pub fn fall<N: Names>(names: &N, falling: &mut Falling) -> Result<(), AllocError>
    requires { CanFall (N.graph names.now) falling.old }
    ensures fallen { IfOk result (λ _. HasFallen (N.graph names.now) falling.new) }
    ensures kept { IfOk result (λ _. Keeps falling.old.lost falling.old.sums falling.new.lost falling.new.sums) }
{
    let mut next = 0;
    while let Some(pair) = falling.todo_at(next) {
        names.give(pair, falling)?;
        next += 1;
    }
    Ok(())
}

impl Receiver for Falling {
    ghost use Rattle.sx_follow.specs.Falling.{fell_all};
    ghost use Rattle.sx_follow.specs.Laws.{fell_none, fell_joins};

    ghost after = { fell_all };

    #[tactic(auto, unfolding(crate::specs::Falling::fell_all, crate::specs::Falling::fell))]
    fn take(&mut self, target: Target) -> Result<(), AllocError> {
        let last = self.sums.has_many(1, target.pair);
        self.sums.take_back(target);
        self.lost.push(target.pair)?;
        if last {
            self.todo.push(target.pair)?;
        }
        Ok(())
    }

    ghost none = { fell_none };

    ghost joins = { fell_joins };
}
