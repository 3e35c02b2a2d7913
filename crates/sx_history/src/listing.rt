//! What a tree holds under a rowid.
ghost use Rattle.std.specs.Prelude.{◌≡◌, ◌+◌, ◌++◌, ◌^◌, ◌<◌, IfOk, OnOk, cond};
ghost use Rattle.std.specs.Option.{option_to_list};

use crate::found::Found;
use std::alloc::{AllocError, Global};

/// What a tree holds under a rowid at a moment, and how many faults the tree has.
#[derive(Drop)]
pub struct History {
    items: Vec<Found>,
    faults: u64,
}

impl History {
    ghost use Rattle.std.specs.Prelude.{[]};
    ghost use Rattle.sx_history.specs.Given.{faults_by, items_by};

    /// No row and no fault yet.
    pub(crate) fn new(alloc: Global) -> Self
        ensures found { items_by result ≡ [] }
        ensures faults { faults_by result ≡ 0 }
    {
        History {
            items: Vec::new(alloc),
            faults: 0,
        }
    }

    /// Adds a row, if there is one, and a fault, if it is one. Fewer than 2^64 - 1 faults were added before.
    pub(crate) fn add(&mut self, found: Option<Found>, faulty: bool) -> Result<(), AllocError>
        requires { faults_by self.old + 1 < 2 ^ 64 }
        ensures found { OnOk result (items_by self.new ≡ items_by self.old ++ option_to_list found) }
        ensures faults { OnOk result (faults_by self.new ≡ faults_by self.old + cond faulty 1 0) }
    {
        if let Some(found) = found {
            self.items.push(found)?;
        }
        if faulty {
            self.faults += 1;
        }
        Ok(())
    }

    /// The same once more, for one that goes on by itself. It answers `AllocError` where memory runs out.
    pub fn again(&self, alloc: Global) -> Result<Self, AllocError>
        ensures found { IfOk result (λ history. items_by history ≡ items_by self.now) }
        ensures faults { IfOk result (λ history. faults_by history ≡ faults_by self.now) }
    {
        let items = self.items.to_vec(alloc)?;
        Ok(History {
            items,
            faults: self.faults,
        })
    }

    /// The rows with the rowid, in the order of the tree: more than one only where the tree is damaged. A row whose columns
    /// can't be shown is among them, with its fault. Takes no memory.
    pub fn items(&self) -> &[Found]
        ensures { result.now ≡ items_by self.now }
    {
        self.items.as_slice()
    }

    /// How many faults the tree has: those of its pages and cells, and the rows of any rowid, or of none, whose columns can't
    /// be shown.
    pub fn faults(&self) -> u64
        ensures { result ≡ faults_by self.now }
    {
        self.faults
    }
}
