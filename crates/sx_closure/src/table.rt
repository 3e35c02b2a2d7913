//! What refers to each page.
ghost use Rattle.std.specs.Prelude.{◌≡◌, ◌<◌, ◌+◌, ◌-◌, ◌^◌, Some, IfOk, IsTrue, length, min, option_map};
ghost use Rattle.sx_closure.specs.Graph.{Rises};
ghost use Rattle.sx_closure.specs.Chains.{page_before, number_of};
ghost use Rattle.sx_closure.specs.Tallying.{rank_of, entry_by_rank, widened_table, is_marked, with_mark, counted, blank, entry_of, entry_at, put, count_at, one_of, one_at, number_at, number_before, numbered, left_at, left_before, ruled, put_left};

use crate::chain::{number_of, page_before};
use crate::pair::{Pair, Source, Target};
use crate::rank::rank_of;
use std::alloc::{AllocError, Global};
use std::marker::Model;
use sx_base::Role;

/// The roles in which a page was named.
#[derive(Clone, Copy)]
pub(crate) struct Marks {
    pub node: bool,
    pub overflow: bool,
    pub trunk: bool,
    pub free_leaf: bool,
    pub pointer_map: bool,
}

impl Marks {
    /// Whether the page was named in the role.
    pub(crate) fn has(&self, role: Role) -> bool
        ensures { result ≡ is_marked self.now role }
    {
        match role {
            Role::Node => self.node,
            Role::Overflow => self.overflow,
            Role::Trunk => self.trunk,
            Role::FreeLeaf => self.free_leaf,
            Role::PointerMap => self.pointer_map,
        }
    }

    /// The same roles and one more.
    fn with(self, role: Role) -> Self
        ensures { result ≡ with_mark self role }
    {
        match role {
            Role::Node => Marks { node: true, ..self },
            Role::Overflow => Marks {
                overflow: true,
                ..self
            },
            Role::Trunk => Marks {
                trunk: true,
                ..self
            },
            Role::FreeLeaf => Marks {
                free_leaf: true,
                ..self
            },
            Role::PointerMap => Marks {
                pointer_map: true,
                ..self
            },
        }
    }
}

/// What is kept of a page: how many references it has, the last of them, and the roles in which it was named.
#[derive(Clone, Copy)]
pub(crate) struct Entry {
    pub count: u64,
    pub role: Role,
    pub source: Source,
    pub rest: u32,
    pub marks: Marks,
}

impl Entry {
    /// A page with so many references, and that one where it has no other.
    fn of(count: u64, one: Option<Target>) -> Self
        ensures { result ≡ entry_of count one }
    {
        match one {
            Some(target) => Entry {
                count,
                role: target.pair.role,
                source: target.source,
                rest: target.rest,
                ..Entry::blank()
            },
            None => Entry {
                count,
                ..Entry::blank()
            },
        }
    }

    /// A page that nothing names.
    pub(crate) fn blank() -> Self
        ensures { result ≡ blank }
    {
        Entry {
            count: 0,
            role: Role::Node,
            source: Source::Root,
            rest: 0,
            marks: Marks {
                node: false,
                overflow: false,
                trunk: false,
                free_leaf: false,
                pointer_map: false,
            },
        }
    }

    /// The page with one reference more.
    pub(crate) fn counted(self, target: Target) -> Self
        ensures { result ≡ counted self target }
    {
        Entry {
            count: self.count.saturating_add(1),
            role: target.pair.role,
            source: target.source,
            rest: target.rest,
            marks: self.marks.with(target.pair.role),
        }
    }

    /// The one reference to the page of that number, where it has no other.
    fn one(self, page: u32) -> Option<Target>
        ensures { result ≡ one_of page (Some self) }
    {
        if self.count != 1 {
            return None;
        }
        Some(Target {
            pair: Pair {
                page,
                role: self.role,
            },
            source: self.source,
            rest: self.rest,
        })
    }
}

/// How many references each page has, and for a page with one its role and its source; and how many bytes of a payload are
/// still to come at an overflow page.
#[derive(Drop)]
pub struct RefTable {
    held: Vec<u32>,
    entries: Vec<Entry>,
    lefts: Vec<Option<u32>>,
    dead: u64,
}

impl Model for RefTable {
    ghost use Rattle.std.specs.Prelude.{◌≡◌, length};
    ghost use Rattle.sx_closure.specs.Graph.{Rises};
    ghost use Rattle.sx_closure.specs.Tallying.{Table};

    ghost Value = { Table };

    ghost view = { λ table. record { held = table.held.items; entries = table.entries.items; lefts = table.lefts.items; dead = table.dead } };

    ghost invariant = { λ table. Rises table.held.items × (length table.entries.items ≡ length table.held.items) × (length table.lefts.items ≡ length table.held.items) };
}

impl RefTable {
    /// The table of so many dead links, with an entry and a number for each held page.
    pub(crate) fn new(
        held: Vec<u32>,
        entries: Vec<Entry>,
        lefts: Vec<Option<u32>>,
        dead: u64,
    ) -> Self
        requires rises { Rises held.items }
        requires long { length entries.items ≡ length held.items }
        requires as_long { length lefts.items ≡ length held.items }
        ensures { result ≡ record { held = held.items; entries = entries.items; lefts = lefts.items; dead = dead } }
    {
        RefTable {
            held,
            entries,
            lefts,
            dead,
        }
    }

    /// Numbers a page by its one reference, where the page that this comes from is numbered already.
    #[tactic(auto, unfolding(crate::specs::Tallying::numbered))]
    pub(crate) fn number(&mut self, pair: Pair, body: u32)
        ensures { self.new ≡ numbered body self.old pair }
    {
        if let Some(rank) = rank_of(&self.held, pair.page) {
            let one = self.entries[rank].one(pair.page);
            let before = self.number_before(page_before(one));
            self.lefts[rank] = number_of(body, one, before);
        }
    }

    /// Writes anew how many references page `no` has, and that one where it has no other. Nothing else changes. It answers
    /// whether the page is held: where it isn't, nothing changes.
    #[tactic(auto, unfolding(crate::specs::Tallying::put))]
    pub fn put(&mut self, no: u32, count: u64, one: Option<Target>) -> bool
        ensures value { self.new ≡ put self.old no (entry_of count one) }
        ensures held { IsTrue result → entry_at self.new.held self.new.entries no ≡ Some (entry_of count one) }
    {
        match rank_of(&self.held, no) {
            Some(rank) => {
                self.entries[rank] = Entry::of(count, one);
                true
            }
            None => false,
        }
    }

    /// How many bytes of a payload are still to come at page `no` by its one reference, where the table is right for the page
    /// that this comes from and each page holds `body` of them.
    pub fn ruled(&self, no: u32, body: u32) -> Option<u32>
        ensures { result ≡ ruled body self.now no }
    {
        let one = self.one(no);
        let before = self.left_before(page_before(one));
        number_of(body, one, before)
    }

    /// The number of the page before, if there is one and it is an overflow page.
    fn left_before(&self, before: Option<u32>) -> Option<u32>
        ensures { result ≡ left_before self.now before }
    {
        match before {
            Some(page) => self.left(page),
            None => None,
        }
    }

    /// Writes anew how many bytes of a payload are still to come at page `no`. Nothing else changes. It answers whether the
    /// page is held: where it isn't, nothing changes.
    #[tactic(auto, unfolding(crate::specs::Tallying::put_left))]
    pub fn put_left(&mut self, no: u32, left: Option<u32>) -> bool
        ensures value { self.new ≡ put_left self.old no left }
        ensures held { IsTrue result → number_at self.new no ≡ left }
    {
        match rank_of(&self.held, no) {
            Some(rank) => {
                self.lefts[rank] = left;
                true
            }
            None => false,
        }
    }

    /// Writes anew how many dead links there are. Nothing else changes.
    pub fn put_dead(&mut self, dead: u64)
        ensures { self.new ≡ record self.old { dead = dead } }
    {
        self.dead = dead;
    }

    /// The number of a page, if it is held and has one.
    fn number_at(&self, no: u32) -> Option<u32>
        ensures { result ≡ number_at self.now no }
    {
        match rank_of(&self.held, no) {
            Some(rank) => self.lefts[rank],
            None => None,
        }
    }

    /// The number of the page before, if there is one.
    fn number_before(&self, before: Option<u32>) -> Option<u32>
        ensures { result ≡ number_before self.now before }
    {
        match before {
            Some(page) => self.number_at(page),
            None => None,
        }
    }

    /// The one reference to page `no`, where it has no other.
    pub fn one(&self, no: u32) -> Option<Target>
        ensures { result ≡ one_at self.now no }
    {
        match rank_of(&self.held, no) {
            Some(rank) => self.entries[rank].one(no),
            None => None,
        }
    }

    /// How many references page `no` has.
    pub fn count(&self, no: u32) -> u64
        ensures { result ≡ count_at self.now no }
    {
        match rank_of(&self.held, no) {
            Some(rank) => self.entries[rank].count,
            None => 0,
        }
    }

    /// The role of page `no`, and `None` exactly where it hasn't one reference.
    pub fn role_of(&self, no: u32) -> Option<Role>
        ensures { result ≡ option_map (λ target. target.pair.role) (one_at self.now no) }
    {
        match self.one(no) {
            Some(target) => Some(target.pair.role),
            None => None,
        }
    }

    /// Where the one reference to page `no` stands, and `None` exactly where it hasn't one.
    pub fn source(&self, no: u32) -> Option<Source>
        ensures { result ≡ option_map (λ target. target.source) (one_at self.now no) }
    {
        match self.one(no) {
            Some(target) => Some(target.source),
            None => None,
        }
    }

    /// How many bytes of its cell's payload are still to come at overflow page `no`, 0 where the chain goes on past the
    /// payload; `None` exactly where its one reference isn't of the role of overflow pages, or no cell is at the front of
    /// its chain ("Cell Payload Overflow Pages").
    pub fn left(&self, no: u32) -> Option<u32>
        ensures { result ≡ left_at self.now no }
    {
        match self.role_of(no) {
            Some(Role::Overflow) => self.number_at(no),
            _ => None,
        }
    }

    /// The same table over more pages: with an entry for each of these, so that each can be written anew. Nothing names one
    /// that wasn't held; what was kept of a page that isn't among these is lost.
    ///
    /// The numbers rise. The cost is a look-up for each number; 56 bytes are taken for each. It answers `AllocError` where
    /// memory runs out.
    #[tactic(auto, unfolding(crate::specs::Tallying::widened_table))]
    pub fn widened(&self, alloc: Global, numbers: &[u32]) -> Result<RefTable, AllocError>
        requires { Rises numbers.now }
        ensures { IfOk result (λ table. table ≡ widened_table numbers.now self.now) }
    {
        let mut entries = Vec::with_capacity(alloc, numbers.len())?;
        let mut lefts = Vec::with_capacity(alloc, numbers.len())?;
        for number in numbers {
            entries.push(self.entry(*number))?;
            lefts.push(self.number_at(*number))?;
        }
        let held = numbers.to_vec(alloc)?;
        Ok(RefTable::new(held, entries, lefts, self.dead))
    }

    /// What is kept of a page, or of one that nothing names.
    fn entry(&self, no: u32) -> Entry
        ensures { result ≡ entry_by_rank self.now.entries (rank_of self.now.held no) }
    {
        match rank_of(&self.held, no) {
            Some(rank) => self.entries[rank],
            None => Entry::blank(),
        }
    }

    /// How many dead links there are.
    pub fn dead(&self) -> u64
        ensures { result ≡ self.now.dead }
    {
        self.dead
    }
}
