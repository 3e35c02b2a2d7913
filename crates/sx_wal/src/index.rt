//! What a reader keeps of a write-ahead log.
ghost use Rattle.std.specs.Prelude.{◌≡◌, ◌-◌, ◌<◌, ◌≤◌, [], Some, length, slice_index, slice_get};

use crate::slot::Slot;
use crate::state::WalState;
use std::marker::Model;

/// The state of a write-ahead log, its slots in file order, and which of them are commits. It holds no page bytes.
#[derive(Drop)]
pub struct WalIndex {
    pub(crate) state: WalState,
    pub(crate) slots: Vec<Slot>,
    pub(crate) commits: Vec<u32>,
}

impl Model for WalIndex {
    ghost use Rattle.sx_wal.specs.Wal.{Wal, IsIndex, wal};

    ghost Value = { Wal };

    ghost view = { λ index. wal index.state index.slots.items index.commits.items };

    ghost invariant = { λ index. IsIndex (wal index.state index.slots.items index.commits.items) };
}

impl WalIndex {
    /// What the log is.
    pub fn state(&self) -> WalState
        ensures { result ≡ self.now.state }
    {
        self.state
    }

    /// How many slots the log has. Only a log whose state is Good or BadHeaderSum has any.
    pub fn slots(&self) -> u32
        ensures { result ≡ length self.now.slots }
    {
        self.slots.len() as u32
    }

    /// Slot `i`, in file order from 0.
    pub fn slot(&self, i: u32) -> Slot
        requires { i < length self.now.slots }
        ensures { slice_get self.now.slots i ≡ Some result }
    {
        self.slots[i as usize]
    }

    /// How many commits the log has.
    pub fn commits(&self) -> u32
        ensures { result ≡ length self.now.commits }
    {
        self.commits.len() as u32
    }

    /// The slot of commit `k`, in file order from 1.
    pub fn commit(&self, k: u32) -> u32
        requires first { 1 ≤ k }
        requires last { k ≤ length self.now.commits }
        ensures slot { result ≡ slice_index self.now.commits (k - 1) }
        ensures within { result < length self.now.slots }
    {
        self.commits[k as usize - 1]
    }
}
