//! The views of pages taken anew, and what comes and what goes by that.
ghost use Rattle.std.specs.Prelude.{◌≡◌, ℕ, ◌<◌, ◌≤◌, Option, None, map, length, slice_index_or, option_copied, IfOk};
ghost use Rattle.std.specs.List.{All};
ghost use Rattle.sx_closure.specs.Graph.{Rises};
ghost use Rattle.sx_walk.specs.Walks.{RanksStand};
ghost use Rattle.sx_walk.specs.Turning.{HasUsable};
ghost use Rattle.sx_walk.specs.Turning.{HasTurned};

use crate::exchange::exchange_page;
use std::alloc::{AllocError, Global};
use sx_base::Pages;
use sx_closure::Kept;
use sx_follow::Sums;

/// Takes the view of each page whose rank is listed anew, and puts behind the two lists what comes and what goes by that.
///
/// The cost is that of reading both views of each page, in the roles in which it is reached. It answers `AllocError` where
/// memory runs out.
pub(crate) fn gather<'a, P: Pages<'a>>(
    alloc: Global,
    pages: &P,
    sums: &Sums,
    usable: u32,
    numbers: &[u32],
    changed: &[u32],
    views: &mut Vec<Option<&'a [u8]>>,
    come: &mut Kept,
    gone: &mut Kept,
) -> Result<(), AllocError>
    requires rises { Rises numbers.now }
    requires long { length views.old.items ≡ length numbers.now }
    requires ranks { All (λ rank. rank < length numbers.now) changed.now }
    requires stand { RanksStand changed.now numbers.now (map option_copied views.old.items) (P.view pages.now) }
    requires least { 480 ≤ usable }
    requires within { usable ≤ P.page_size pages.now }
    requires small { P.page_size pages.now ≤ 65536 }
    requires before { (rank : ℕ) → HasUsable usable (slice_index_or (map option_copied views.old.items) rank None) }
    ensures looked { IfOk result (λ _. map option_copied views.new.items ≡ map (P.view pages.now) numbers.now) }
    ensures long { length views.new.items ≡ length numbers.now }
    ensures turned { IfOk result (λ _. HasTurned (P.view pages.now) sums.now usable numbers.now (map option_copied views.old.items) (map option_copied views.new.items) come.old come.new gone.old gone.new) }
{
    for rank in changed {
        let rank = *rank as usize;
        let number = numbers[rank];
        let view = pages.page(number);
        exchange_page(alloc, sums, usable, number, views[rank], view, come, gone)?;
        views[rank] = view;
    }
    Ok(())
}
