//! The newest place of each number, by the number's rank.
ghost use Rattle.std.specs.Prelude.{◌≡◌, ℕ, ◌+◌, ◌<◌, Contains, length, slice_index, slice_set, IfOk, IfSome, IfNone};
ghost use Rattle.std.specs.List.Sorted.{IsStrictlyIncreasing};
ghost use Rattle.sx_chain.specs.Heads.{AreDistinct, place_below};

use crate::node::place_below;
use std::alloc::{AllocError, Global};

/// The numbers of a list, each once, in rising order. The cost is that of a sort.
pub fn distinct(alloc: Global, numbers: &[u32]) -> Result<Vec<u32>, AllocError>
    ensures { IfOk result (λ distinct. AreDistinct numbers.now distinct.items) }
{
    let mut distinct = numbers.to_vec(alloc)?;
    distinct.sort_unstable();
    distinct.dedup();
    Ok(distinct)
}

/// The rank of a number among those that rise, from 0, where it is one of them. The cost is that of a binary search.
pub fn rank_of(distinct: &[u32], number: u32) -> Option<usize>
    requires { IsStrictlyIncreasing distinct.now }
    ensures some { IfSome result (λ rank. (rank < length distinct.now) × (slice_index distinct.now rank ≡ number)) }
    ensures none { IfNone result (Contains distinct.now number → ⊥) }
{
    match distinct.binary_search(&number) {
        Ok(rank) => Some(rank),
        Err(_) => None,
    }
}

/// The rank of a number that is one of them.
pub fn known_rank(distinct: &[u32], number: u32) -> usize
    requires rising { IsStrictlyIncreasing distinct.now }
    requires known { Contains distinct.now number }
    ensures within { result < length distinct.now }
    ensures is { slice_index distinct.now result ≡ number }
{
    match rank_of(distinct, number) {
        Some(rank) => rank,
        None => unreachable!(),
    }
}

/// The newest place of the number of a rank. An end is one past it, and 0 where there is none yet.
pub fn head_at(ends: &[u32], rank: usize) -> Option<u32>
    requires { rank < length ends.now }
    ensures { result ≡ place_below (slice_index ends.now rank) }
{
    place_below(ends[rank])
}

/// Puts the end of the number of a rank.
pub fn put_end(ends: &mut Vec<u32>, rank: usize, end: u32)
    requires { rank < length ends.old.items }
    ensures { ends.new.items ≡ slice_set ends.old.items rank end }
{
    ends[rank] = end;
}
