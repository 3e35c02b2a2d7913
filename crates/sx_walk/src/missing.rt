//! How many references there are to pages without a view.
ghost use Rattle.std.specs.Prelude.{◌⊎◌, ◌<◌, ◌+◌, ℕ, IfSome, ◌≡◌, true, IsTrue, IfOk, is_some, length, map, sum, slice_set};
ghost use Rattle.std.specs.List.{All};
ghost use Rattle.sx_closure.specs.Graph.{Rises};
ghost use Rattle.sx_follow.specs.Keeping.{has_page};
ghost use Rattle.sx_walk.specs.Renewing.{unsaid_count, has_rank};
ghost use Rattle.sx_walk.specs.Missing.{Recounts};

use std::alloc::{AllocError, Global};
use std::marker::Model;
use sx_base::Pages;
use sx_closure::{Pair, rank_of};
use sx_follow::{Followed, Sums};

/// How many references there are to each page without a view, by the ranks of the numbers: none to a page with one.
///
/// Their sum is kept, so that it costs no look at each. Contracts see the list.
#[derive(Drop)]
pub(crate) struct Missing {
    counts: Vec<u64>,
    total: u64,
}

impl Model for Missing {
    ghost use Rattle.std.specs.Prelude.{◌≡◌, ℕ, List, sum};

    ghost Value = { List ℕ };

    ghost view = { λ missing. missing.counts.items };

    ghost invariant = { λ missing. missing.total ≡ sum missing.counts.items };
}

impl Missing {
    /// Of no numbers.
    pub fn none(alloc: Global) -> Self {
        Missing {
            counts: Vec::new(alloc),
            total: 0,
        }
    }

    /// Those that the sums tell.
    ///
    /// The cost is a look-up for each number. It answers `AllocError` where memory runs out, or all together are no number of
    /// 64 bits.
    pub fn of<'a, P: Pages<'a>>(
        alloc: Global,
        pages: &P,
        sums: &Sums,
        numbers: &[u32],
    ) -> Result<Self, AllocError>
        ensures { IfOk result (λ missing. missing ≡ map (unsaid_count (λ number. is_some (P.view pages.now number)) sums.now) numbers.now) }
    {
        let mut counts = Vec::with_capacity(alloc, numbers.len())?;
        let mut total: u64 = 0;
        for number in numbers {
            let count = unsaid_count(pages, sums, *number);
            counts.push(count)?;
            total = total.checked_add(count).ok_or(AllocError)?;
        }
        Ok(Missing { counts, total })
    }

    /// Puts the count of a rank: whether all together are still a number of 64 bits. Else nothing changes.
    fn put(&mut self, rank: usize, count: u64) -> bool
        requires { rank < length self.old }
        ensures { IsTrue result → self.new ≡ slice_set self.old rank count }
    {
        let others = self.total - self.counts[rank];
        match others.checked_add(count) {
            Some(total) => {
                self.counts[rank] = count;
                self.total = total;
                true
            }
            None => false,
        }
    }
}

/// Whether a page has a view.
pub(crate) fn is_shown<'a, P: Pages<'a>>(pages: &P, no: u32) -> bool
    ensures { result ≡ is_some (P.view pages.now no) }
{
    match pages.page(no) {
        Some(_) => true,
        None => false,
    }
}

/// How many references there are by its sums to a page without a view: none where it has one.
fn unsaid_count<'a, P: Pages<'a>>(pages: &P, sums: &Sums, no: u32) -> u64
    ensures { result ≡ unsaid_count (λ number. is_some (P.view pages.now number)) sums.now no }
{
    if is_shown(pages, no) {
        0
    } else {
        sums.count(no)
    }
}

/// Counts the references to page `no` anew, where it has a rank: whether that can be.
fn recount<'a, P: Pages<'a>>(
    missing: &mut Missing,
    pages: &P,
    sums: &Sums,
    numbers: &[u32],
    no: u32,
) -> bool
    requires rises { Rises numbers.now }
    requires long { length missing.old ≡ length numbers.now }
    ensures { IsTrue result → Recounts (λ number. is_some (P.view pages.now number)) (λ page. page ≡ no) sums.now numbers.now missing.old missing.new }
{
    match rank_of(numbers, no) {
        Some(rank) => missing.put(rank, unsaid_count(pages, sums, no)),
        None => true,
    }
}

/// Counts the references to the page of each of these pairs anew: whether that can be.
fn recount_all<'a, P: Pages<'a>>(
    missing: &mut Missing,
    pages: &P,
    sums: &Sums,
    numbers: &[u32],
    pairs: &[Pair],
) -> bool
    requires rises { Rises numbers.now }
    requires long { length missing.old ≡ length numbers.now }
    ensures { IsTrue result → Recounts (λ number. is_some (P.view pages.now number)) (λ page. has_page pairs.now page ≡ true) sums.now numbers.now missing.old missing.new }
{
    for pair in pairs {
        if !recount(missing, pages, sums, numbers, pair.page) {
            return false;
        }
    }
    true
}

/// The same of the page of each of these ranks.
fn recount_ranks<'a, P: Pages<'a>>(
    missing: &mut Missing,
    pages: &P,
    sums: &Sums,
    numbers: &[u32],
    changed: &[u32],
) -> bool
    requires rises { Rises numbers.now }
    requires long { length missing.old ≡ length numbers.now }
    requires ranks { All (λ rank. rank < length numbers.now) changed.now }
    ensures { IsTrue result → Recounts (λ number. is_some (P.view pages.now number)) (λ page. has_rank numbers.now changed.now page ≡ true) sums.now numbers.now missing.old missing.new }
{
    for rank in changed {
        if !recount(missing, pages, sums, numbers, numbers[*rank as usize]) {
            return false;
        }
    }
    true
}

/// How many dead links there are where the sums were followed, and the pages of these ranks may have other views: those that
/// the sums tell, and the references to pages without a view, of which only those that may be others are counted anew. `None`
/// where that is no number of 64 bits.
///
/// The cost is a few look-ups for each target that was added or taken back, and for each rank.
pub(crate) fn count_dead<'a, P: Pages<'a>>(
    missing: &mut Missing,
    pages: &P,
    followed: &Followed,
    numbers: &[u32],
    changed: &[u32],
) -> Option<u64>
    requires rises { Rises numbers.now }
    requires long { length missing.old ≡ length numbers.now }
    requires ranks { All (λ rank. rank < length numbers.now) changed.now }
    ensures recounted { IfSome result (λ _. Recounts (λ number. is_some (P.view pages.now number)) (λ page. (has_page followed.now.named.items page ≡ true) ⊎ ((has_page followed.now.lost.items page ≡ true) ⊎ (has_rank numbers.now changed.now page ≡ true))) followed.now.sums numbers.now missing.old missing.new) }
    ensures dead { IfSome result (λ dead. dead ≡ followed.now.sums.dead + sum missing.new) }
{
    let sums = &followed.sums;
    let counted = recount_all(missing, pages, sums, numbers, &followed.named)
        && recount_all(missing, pages, sums, numbers, &followed.lost)
        && recount_ranks(missing, pages, sums, numbers, changed);
    if counted {
        sums.dead().checked_add(missing.total)
    } else {
        None
    }
}
