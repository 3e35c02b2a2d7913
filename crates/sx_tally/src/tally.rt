//! A list of counts.
ghost use Rattle.std.specs.Prelude.{◌≡◌, ℕ, ◌+◌, ◌-◌, ◌*◌, ◌^◌, ◌<◌, ◌≤◌, length, take, sum, replicate, slice_set, slice_index, IfOk};

use crate::nodes::{front, raise};
use std::alloc::{AllocError, Global};
use std::marker::Model;

/// A list of counts, any front of which can be summed after each change at the cost of a logarithm of its length.
///
/// The counts stand behind as many sums: item `i` below the length is the sum of the items `2 * i` and `2 * i + 1`, so
/// that item 1 is the sum of all. Contracts see the list of counts.
#[derive(Drop)]
pub struct Tally {
    len: usize,
    sums: Vec<u32>,
}

impl Model for Tally {
    ghost use Rattle.std.specs.Prelude.{ℕ, List, drop};
    ghost use Rattle.sx_tally.specs.Tallied.{IsTallied};

    ghost Value = { List ℕ };

    ghost view = { λ tally. drop tally.len tally.sums.items };

    ghost invariant = { λ tally. IsTallied tally.len tally.sums.items };
}

impl Tally {
    /// As many counts of 0, fewer than 2^63. They take 8 bytes each. It answers `AllocError` where memory runs out, and
    /// nothing else.
    pub fn zeros(alloc: Global, len: usize) -> Result<Self, AllocError>
        requires { len < 2 ^ 63 }
        ensures { IfOk result (λ tally. tally ≡ replicate len 0) }
    {
        let sums = vec![in alloc; 0u32; 2 * len]?;
        Ok(Tally { len, sums })
    }

    /// Raises the count at a place, from 0, by one. All counts together are below 4,294,967,295.
    pub fn raise(&mut self, place: usize)
        requires within { place < length self.old }
        requires few { sum self.old < 2 ^ 32 - 1 }
        ensures { self.new ≡ slice_set self.old place (slice_index self.old place + 1) }
    {
        raise(&mut self.sums, self.len, place);
    }

    /// The sum of the counts at the places below `end`, which is at most the number of counts.
    pub fn front(&self, end: usize) -> u32
        requires { end ≤ length self.now }
        ensures { result ≡ sum (take end self.now) }
    {
        front(&self.sums, self.len, end)
    }
}
