//! The pages of a tree, as they are named.
ghost use Rattle.std.specs.Prelude.{◌≡◌, ◌^◌, ◌<◌, [], nat_eq, slice_get, OnOk};
ghost use Rattle.std.specs.Map.{lookup, keys_of};
ghost use Rattle.sx_tree.specs.Tables.{with_name};

use std::alloc::{AllocError, Global};
use std::collections::BTreeMap;
use std::marker::Model;

/// Pages that were named, each once in the order in which they were named first, and whether each was named again.
///
/// Page numbers may be any numbers of 32 bits, as the evidence has them. So they stand in an ordered map: a look-up costs a
/// logarithm of the number of pages, whatever they are.
#[derive(Drop)]
pub(crate) struct Table {
    order: Vec<u32>,
    again: BTreeMap<u32, bool>,
}

impl Model for Table {
    ghost use Rattle.std.specs.Prelude.{ℕ, Bool, List};
    ghost use Rattle.std.specs.Ordering.{nat_cmp};
    ghost use Rattle.std.specs.BTreeMap.{get};
    ghost use Rattle.sx_tree.specs.Tables.{entries_of, IsMarked};

    ghost Value = { List (ℕ × Bool) };

    ghost view = { λ it. entries_of (get nat_cmp it.again) it.order.items };

    ghost invariant = { λ it. IsMarked (get nat_cmp it.again) it.order.items };
}

impl Table {
    /// No pages.
    pub(crate) fn new(alloc: Global) -> Self
        ensures { result ≡ [] }
    {
        Table {
            order: Vec::new(alloc),
            again: BTreeMap::new(alloc),
        }
    }

    /// Notes that page `no` was named.
    #[tactic(auto, unfolding(crate::specs::Tables::with_name))]
    pub(crate) fn note(&mut self, no: u32) -> Result<(), AllocError>
        ensures { OnOk result (self.new ≡ with_name self.old no) }
    {
        self.order.reserve(1)?;
        match self.again.insert(no, false)? {
            None => self.order.push(no).unwrap(),
            Some(_) => {
                self.again.insert(no, true)?;
            }
        }
        Ok(())
    }

    /// The page at a place of the order.
    pub(crate) fn page_at(&self, place: usize) -> Option<u32>
        ensures { result ≡ slice_get (keys_of self.now) place }
    {
        if place < self.order.len() {
            Some(self.order[place])
        } else {
            None
        }
    }

    /// Whether page `no` was named again; `None` where it wasn't named.
    pub(crate) fn named_again(&self, no: u32) -> Option<bool>
        ensures { result ≡ lookup (nat_eq no) self.now }
    {
        self.again.get(&no).copied()
    }
}
