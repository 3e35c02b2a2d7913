//! What refers to each page, as sums: each reference can be added and taken back.
ghost use Rattle.std.specs.Prelude.{◌≡◌, ◌+◌, ◌*◌, ◌^◌, ◌<◌, length, map, slice_index_or, IsTrue, IfOk, IfSome};
ghost use Rattle.sx_closure.specs.Graph.{Rises, role_number};
ghost use Rattle.sx_closure.specs.Tallying.{rank_of};
ghost use Rattle.sx_follow.specs.Sums.{of_role, kind_of, page_in, cell_in, plus, minus, nothing, many_of, added, taken};
ghost use Rattle.sx_follow.specs.Rising.{has_many};
ghost use Rattle.sx_follow.specs.Ones.{role_in, source_in, one_in, the_one};
ghost use Rattle.sx_follow.specs.Following.{sum_of};
ghost use Rattle.sx_follow.specs.Climbing.{all_of, way_of, way_at, is_marked_in, HasWay, AllHaveWays};

use std::alloc::{AllocError, Global};
use std::marker::Model;
use sx_base::Role;
use sx_closure::{Pair, Source, Target, rank_of};

/// What is kept of the references to a page: how many of each role, and sums over all of them, which are those of the one
/// where there is one.
#[derive(Clone, Copy)]
pub(crate) struct Sum {
    node: u32,
    overflow: u32,
    trunk: u32,
    free_leaf: u32,
    pointer_map: u32,
    kind: u64,
    page: u64,
    cell: u64,
    rest: u64,
}

/// A number that tells roles apart.
fn role_number(role: Role) -> u32
    ensures { result ≡ role_number role }
{
    match role {
        Role::Node => 0,
        Role::Overflow => 1,
        Role::Trunk => 2,
        Role::FreeLeaf => 3,
        Role::PointerMap => 4,
    }
}

/// 1 where a target is of the role, else 0.
fn of_role(role: Role, target: Target) -> u32
    ensures { result ≡ of_role role target }
{
    if role_number(role) == role_number(target.pair.role) {
        1
    } else {
        0
    }
}

/// A number for the kind of a source.
fn kind_of(source: Source) -> u64
    ensures { result ≡ kind_of source }
{
    match source {
        Source::Root => 0,
        Source::Cell { .. } => 1,
        Source::Page(_) => 2,
    }
}

/// The page of a source, 0 for a root.
fn page_in(source: Source) -> u64
    ensures { result ≡ page_in source }
{
    match source {
        Source::Root => 0,
        Source::Cell { page, .. } | Source::Page(page) => u64::from(page),
    }
}

/// The cell of a source, 0 where it is none.
fn cell_in(source: Source) -> u64
    ensures { result ≡ cell_in source }
{
    match source {
        Source::Cell { cell, .. } => u64::from(cell),
        Source::Root | Source::Page(_) => 0,
    }
}

impl Sum {
    /// The sums where nothing names the page.
    fn nothing() -> Self
        ensures { result ≡ nothing }
    {
        Sum {
            node: 0,
            overflow: 0,
            trunk: 0,
            free_leaf: 0,
            pointer_map: 0,
            kind: 0,
            page: 0,
            cell: 0,
            rest: 0,
        }
    }

    /// The sums with one target more, if they are numbers of their size.
    fn plus(self, target: Target) -> Option<Self>
        ensures { IfSome result (λ sum. sum ≡ plus self target) }
    {
        Some(Sum {
            node: self.node.checked_add(of_role(Role::Node, target))?,
            overflow: self.overflow.checked_add(of_role(Role::Overflow, target))?,
            trunk: self.trunk.checked_add(of_role(Role::Trunk, target))?,
            free_leaf: self.free_leaf.checked_add(of_role(Role::FreeLeaf, target))?,
            pointer_map: self
                .pointer_map
                .checked_add(of_role(Role::PointerMap, target))?,
            kind: self.kind.checked_add(kind_of(target.source))?,
            page: self.page.checked_add(page_in(target.source))?,
            cell: self.cell.checked_add(cell_in(target.source))?,
            rest: self.rest.checked_add(u64::from(target.rest))?,
        })
    }

    /// The sums with one target taken back.
    fn minus(self, target: Target) -> Self
        ensures { result ≡ minus self target }
    {
        Sum {
            node: self.node.saturating_sub(of_role(Role::Node, target)),
            overflow: self
                .overflow
                .saturating_sub(of_role(Role::Overflow, target)),
            trunk: self.trunk.saturating_sub(of_role(Role::Trunk, target)),
            free_leaf: self
                .free_leaf
                .saturating_sub(of_role(Role::FreeLeaf, target)),
            pointer_map: self
                .pointer_map
                .saturating_sub(of_role(Role::PointerMap, target)),
            kind: self.kind.saturating_sub(kind_of(target.source)),
            page: self.page.saturating_sub(page_in(target.source)),
            cell: self.cell.saturating_sub(cell_in(target.source)),
            rest: self.rest.saturating_sub(u64::from(target.rest)),
        }
    }

    /// How many references there are.
    fn all_of(&self) -> u64
        ensures { result ≡ all_of self.now }
    {
        u64::from(self.node)
            + (u64::from(self.overflow)
                + (u64::from(self.trunk)
                    + (u64::from(self.free_leaf) + u64::from(self.pointer_map))))
    }

    /// Where the one reference stands, `Some(None)` for a root; `None` where there isn't one.
    fn way_of(&self) -> Option<Option<u64>>
        ensures { result ≡ way_of self.now }
    {
        if self.all_of() != 1 {
            return None;
        }
        if self.kind == 0 {
            return Some(None);
        }
        Some(Some(self.page))
    }

    /// Of which role the one reference is.
    fn role(&self) -> Role
        ensures { result ≡ role_in self.now }
    {
        if self.node == 1 {
            return Role::Node;
        }
        if self.overflow == 1 {
            return Role::Overflow;
        }
        if self.trunk == 1 {
            return Role::Trunk;
        }
        if self.free_leaf == 1 {
            return Role::FreeLeaf;
        }
        Role::PointerMap
    }

    /// Where the one reference stands, where the sums are numbers of 32 bits.
    fn source(&self) -> Option<Source>
        ensures { IfSome result (λ source. source ≡ source_in self.now) }
    {
        if self.kind == 0 {
            return Some(Source::Root);
        }
        let page = u32::try_from(self.page).ok()?;
        if self.kind == 1 {
            let cell = u32::try_from(self.cell).ok()?;
            return Some(Source::Cell { page, cell });
        }
        Some(Source::Page(page))
    }

    /// The one reference to the page of that number, `Some(None)` where it hasn't one; `None` where its sums are no numbers
    /// of 32 bits.
    fn one(&self, page: u32) -> Option<Option<Target>>
        ensures { IfSome result (λ one. one ≡ one_in page self.now) }
    {
        if self.all_of() != 1 {
            return Some(None);
        }
        let source = self.source()?;
        let rest = u32::try_from(self.rest).ok()?;
        Some(Some(Target::new(page, self.role(), source, rest)))
    }

    /// How many are of the role.
    fn many_of(&self, role: Role) -> u32
        ensures { result ≡ many_of self.now role }
    {
        match role {
            Role::Node => self.node,
            Role::Overflow => self.overflow,
            Role::Trunk => self.trunk,
            Role::FreeLeaf => self.free_leaf,
            Role::PointerMap => self.pointer_map,
        }
    }
}

/// What is kept of the references to each held page as sums, and how many targets aren't held.
#[derive(Drop)]
pub struct Sums {
    held: Vec<u32>,
    sums: Vec<Sum>,
    dead: u64,
}

impl Model for Sums {
    ghost use Rattle.std.specs.Prelude.{◌≡◌, length};
    ghost use Rattle.sx_closure.specs.Graph.{Rises};
    ghost use Rattle.sx_follow.specs.Sums.{Sums as TheSums};

    ghost Value = { TheSums };

    ghost view = { λ all. record { held = all.held.items; sums = all.sums.items; dead = all.dead } };

    ghost invariant = { λ all. Rises all.held.items × (length all.sums.items ≡ length all.held.items) };
}

impl Sums {
    /// The sums of no targets, over pages whose numbers rise. It takes all memory that the sums need.
    #[tactic(auto, using(crate::proofs::Summing::nothing_each))]
    pub fn fresh(alloc: Global, held: Vec<u32>) -> Result<Self, AllocError>
        requires rises { Rises held.items }
        requires few { length held.items < 2 ^ 32 }
        ensures { IfOk result (λ all. all ≡ record { held = held.items; sums = map (λ page. nothing) held.items; dead = 0 }) }
    {
        let sums = vec![in alloc; Sum::nothing(); held.len()]?;
        Ok(Sums {
            held,
            sums,
            dead: 0,
        })
    }

    /// How many references page `no` has.
    pub fn count(&self, no: u32) -> u64
        ensures { result ≡ all_of (sum_of self.now no) }
    {
        match rank_of(&self.held, no) {
            Some(rank) => self.sums[rank].all_of(),
            None => 0,
        }
    }

    /// The one reference to page `no`, `Some(None)` where it hasn't one. `None` where a sum is no number of 32 bits, which no
    /// reference that was counted alone leaves.
    pub fn one(&self, no: u32) -> Option<Option<Target>>
        ensures { IfSome result (λ one. one ≡ the_one self.now no) }
    {
        match rank_of(&self.held, no) {
            Some(rank) => self.sums[rank].one(no),
            None => Some(None),
        }
    }

    /// How many dead links there are.
    pub fn dead(&self) -> u64
        ensures { result ≡ self.now.dead }
    {
        self.dead
    }

    /// Counts one target more. It answers `AllocError` where a sum would be no number of its size.
    #[tactic(auto, unfolding(crate::specs::Sums::added))]
    pub fn add(&mut self, target: Target) -> Result<(), AllocError>
        ensures { IfOk result (λ _. self.new ≡ added self.old target) }
    {
        match rank_of(&self.held, target.pair.page) {
            None => self.dead = self.dead.checked_add(1).ok_or(AllocError)?,
            Some(rank) => self.sums[rank] = self.sums[rank].plus(target).ok_or(AllocError)?,
        }
        Ok(())
    }

    /// Takes one target back.
    #[tactic(auto, unfolding(crate::specs::Sums::taken))]
    pub fn take_back(&mut self, target: Target)
        ensures { self.new ≡ taken self.old target }
    {
        match rank_of(&self.held, target.pair.page) {
            None => self.dead = self.dead.saturating_sub(1),
            Some(rank) => self.sums[rank] = self.sums[rank].minus(target),
        }
    }

    /// Whether the page of a pair is held, and so many references name the pair.
    pub(crate) fn has_many(&self, many: u32, pair: Pair) -> bool
        ensures { result ≡ has_many many self.now pair }
    {
        match rank_of(&self.held, pair.page) {
            Some(rank) => self.sums[rank].many_of(pair.role) == many,
            None => false,
        }
    }

    /// Where the one reference to a page stands, `Some(None)` for a root; `None` where there isn't one.
    fn way_at(&self, page: u32) -> Option<Option<u64>>
        ensures { result ≡ way_at self.now page }
    {
        match rank_of(&self.held, page) {
            Some(rank) => self.sums[rank].way_of(),
            None => None,
        }
    }

    /// Whether the page of a pair is held and a reference names the pair.
    pub fn is_marked(&self, pair: Pair) -> bool
        ensures { result ≡ is_marked_in self.now pair }
    {
        match rank_of(&self.held, pair.page) {
            Some(rank) => self.sums[rank].many_of(pair.role) != 0,
            None => false,
        }
    }

    /// How many steps are left of so many, where a way of single references leads from a root to the page in no more.
    fn steps_left(&self, page: u32, steps: u64) -> Option<u64>
        ensures { IfSome result (λ _. HasWay self.now page) }
    {
        let mut at = page;
        let mut left = steps;
        while left > 0 {
            left -= 1;
            match self.way_at(at) {
                None => return None,
                Some(None) => return Some(left),
                Some(Some(above)) => at = u32::try_from(above).ok()?,
            }
        }
        None
    }

    /// Whether a way of single references leads from a root to the page of each of these pairs that is named, in so many
    /// steps together.
    pub fn all_have_ways(&self, pairs: &[Pair], steps: u64) -> bool
        ensures { IsTrue result → AllHaveWays self.now pairs.now }
    {
        let mut left = steps;
        for pair in pairs {
            if self.is_marked(*pair) {
                match self.steps_left(pair.page, left) {
                    Some(more) => left = more,
                    None => return false,
                }
            }
        }
        true
    }
}
