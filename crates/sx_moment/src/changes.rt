//! The ranks that changed since a place in a row of moments.
ghost use Rattle.std.specs.Prelude.{◌≡◌, ◌<◌, ◌≤◌, ◌++◌, ◌∷◌, [], if◌then◌else◌, false, length, replicate, slice_set, take, IfOk, All};
ghost use Rattle.std.specs.List.{range_with_len};
ghost use Rattle.sx_moment.specs.Changes.{AreListed};

use std::alloc::{AllocError, Global};
use std::marker::Model;

/// For each rank the turn at which it changed last, and the ranks that changed past a turn. Turns count from 1.
///
/// It takes 8 bytes a rank when it is made, and none later.
#[derive(Drop)]
pub struct Changes {
    turns: Vec<u32>,
    listed: Vec<u32>,
    count: usize,
    settled: u32,
}

impl Model for Changes {
    ghost use Rattle.std.specs.Prelude.{◌≡◌, ◌≤◌, take, length};
    ghost use Rattle.sx_moment.specs.Changes.{Changing, AreListed};

    ghost Value = { Changing };

    ghost view = { λ changes. record { turns = changes.turns.items; settled = changes.settled; listed = take changes.count changes.listed.items } };

    ghost invariant = { λ changes. (length changes.listed.items ≡ length changes.turns.items)
        × (changes.count ≤ length changes.listed.items)
        × AreListed changes.settled changes.turns.items (take changes.count changes.listed.items) };
}

impl Changes {
    /// So many ranks, each changed at turn 1, and none settled.
    pub fn fresh(alloc: Global, ranks: u32) -> Result<Self, AllocError>
        ensures { IfOk result (λ changes. (changes.turns ≡ replicate ranks 1) × (changes.settled ≡ 0)) }
    {
        let turns = vec![in alloc; 1u32; ranks as usize]?;
        let listed = all_ranks(alloc, ranks)?;
        Ok(Changes {
            turns,
            listed,
            count: ranks as usize,
            settled: 0,
        })
    }

    /// The ranks that changed past the turn that was settled last, each once.
    pub fn listed(&self) -> &[u32]
        ensures value { result.now ≡ self.now.listed }
        ensures listed { AreListed self.now.settled self.now.turns self.now.listed }
    {
        &self.listed[..self.count]
    }

    /// A rank changed at a turn that isn't settled.
    pub fn mark(&mut self, rank: u32, turn: u32)
        requires rank { rank < length self.old.turns }
        requires later { self.old.settled < turn }
        ensures turns { self.new.turns ≡ slice_set self.old.turns rank turn }
        ensures settled { self.new.settled ≡ self.old.settled }
    {
        let late = self.settled < self.turns[rank as usize];
        self.count = enter(&mut self.listed, self.count, late, rank);
        self.turns[rank as usize] = turn;
    }

    /// All turns up to this one are settled: no rank changed past it.
    pub fn settle(&mut self, turn: u32)
        requires { All (λ other. other ≤ turn) self.old.turns }
        ensures turns { self.new.turns ≡ self.old.turns }
        ensures settled { self.new.settled ≡ turn }
    {
        self.count = 0;
        self.settled = turn;
    }
}

// Puts a rank behind so many others, unless it is late and so stands among them. Answers how many there are now.
fn enter(listed: &mut Vec<u32>, count: usize, late: bool, rank: u32) -> usize
    requires count { count ≤ length listed.old.items }
    requires room { late ≡ false → count < length listed.old.items }
    ensures long { length listed.new.items ≡ length listed.old.items }
    ensures count { result ≤ length listed.new.items }
    ensures listed { take result listed.new.items ≡ take count listed.old.items ++ (if late then [] else rank ∷ []) }
{
    if late {
        return count;
    }
    listed[count] = rank;
    count + 1
}

// The ranks from 0 on.
fn all_ranks(alloc: Global, ranks: u32) -> Result<Vec<u32>, AllocError>
    ensures { IfOk result (λ all. all.items ≡ range_with_len 0 ranks) }
{
    let mut all = Vec::with_capacity(alloc, ranks as usize)?;
    for rank in 0..ranks {
        all.push(rank)?;
    }
    Ok(all)
}
