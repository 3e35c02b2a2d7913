//! One step of a walk: from the references of a moment to those of the next.
ghost use Rattle.std.specs.Prelude.{◌≡◌, ◌-◌, ◌<◌, ◌≤◌, map, length, is_some, option_copied, IfOk, IfSome};
ghost use Rattle.std.specs.List.{All};
ghost use Rattle.sx_closure.specs.Graph.{Rises};
ghost use Rattle.sx_base.specs.Held.{held_pages};
ghost use Rattle.sx_refs.specs.Pages.{all_roots, graph_of};
ghost use Rattle.sx_refs.specs.Covering.{Covers};
ghost use Rattle.sx_walk.specs.Walks.{RanksStand};
ghost use Rattle.sx_walk.specs.Keeping.{IsKept};
ghost use Rattle.sx_walk.specs.Renewing.{unsaid_count};
ghost use Rattle.sx_walk.specs.Stepping.{HasStepped};

use crate::exchange::{exchange, roots_of};
use crate::gather::gather;
use crate::missing::{Missing, count_dead};
use crate::renew::renew_table;
use crate::renumber::renumber;
use crate::wide::WideLinks;
use std::alloc::{AllocError, Global};
use std::marker::PhantomData;
use sx_base::{Layout, Pages};
use sx_closure::{Kept, RefTable};
use sx_follow::{Sums, follow};

/// How many steps a walk up to a root may take beside one for each page: enough for the ways of a few pages where the pages
/// are few.
const MORE_STEPS: u64 = 1000;

/// The sums and the root targets of the next moment, and the ranks of the pages of which the table says something else now.
#[derive(Drop)]
pub(crate) struct Step {
    pub sums: Sums,
    pub roots: Kept,
    pub touched: Vec<u32>,
}

/// Follows the table and the sums to a moment with the same usable bytes, and takes the views that changed anew. `None` where
/// that can't be done: where a way up can't be shown, or a chain that changed goes on past its payload. Then the table is of no
/// use.
///
/// The cost is that of reading both views of each changed page and a few look-ups for each target that comes or goes and for
/// each page behind it in a chain, and some more where ways up are long. It answers `AllocError` where memory runs out.
pub(crate) fn follow_step<'a, P: Pages<'a>>(
    alloc: Global,
    pages: &P,
    numbers: &[u32],
    changed: &[u32],
    views: &mut Vec<Option<&'a [u8]>>,
    layout: &Layout,
    roots: &[i64],
    sums: Sums,
    old: &Kept,
    table: &mut RefTable,
    missing: &mut Missing,
) -> Result<Option<Step>, AllocError>
    requires rises { Rises numbers.now }
    requires long { length views.old.items ≡ length numbers.now }
    requires ranks { All (λ rank. rank < length numbers.now) changed.now }
    requires covered { Covers numbers.now (P.view pages.now) }
    requires stand { RanksStand changed.now numbers.now (map option_copied views.old.items) (P.view pages.now) }
    requires page_size { 0 < layout.now.page_size }
    requires least { 480 ≤ layout.now.usable }
    requires within { layout.now.usable ≤ P.page_size pages.now }
    requires small { P.page_size pages.now ≤ 65536 }
    requires kept { IsKept numbers.now (map option_copied views.old.items) layout.now.usable table.old sums old.now missing.old }
    ensures views { IfOk result (λ _. map option_copied views.new.items ≡ map (P.view pages.now) numbers.now) }
    ensures long { length views.new.items ≡ length numbers.now }
    ensures stepped { IfOk result (λ found. IfSome found (λ step. HasStepped (graph_of (P.pages pages.now) (P.view pages.now) layout.now roots.now) (layout.now.usable - 4) numbers.now table.old table.new step.sums step.touched.items)) }
    ensures missing { IfOk result (λ found. IfSome found (λ step. missing.new ≡ map (unsaid_count (λ number. is_some (P.view pages.now number)) step.sums) numbers.now)) }
    ensures roots { IfOk result (λ found. IfSome found (λ step. step.roots ≡ all_roots (held_pages (P.pages pages.now) (P.view pages.now)) layout.now roots.now)) }
{
    let mut come = Kept::new(alloc);
    let mut gone = Kept::new(alloc);
    let new = roots_of(alloc, pages, layout, roots)?;
    exchange(old, &new, &mut come, &mut gone)?;
    gather(
        alloc,
        pages,
        &sums,
        layout.usable,
        numbers,
        changed,
        views,
        &mut come,
        &mut gone,
    )?;
    // That it fits bounds the pages.
    let _count = pages.held();
    let _size = pages.size();
    let links = WideLinks {
        pages,
        numbers,
        layout: *layout,
        roots,
        views: PhantomData,
    };
    let steps = numbers.len() as u64 + MORE_STEPS;
    let followed = match follow(alloc, &links, sums, &come, &gone, steps)? {
        Some(followed) => followed,
        None => return Ok(None),
    };
    let dead = match count_dead(missing, pages, &followed, numbers, changed) {
        Some(dead) => dead,
        None => return Ok(None),
    };
    let renewed = renew_table(alloc, table, pages, &followed, numbers, changed, dead)?;
    let mut touched = match renewed {
        Some(touched) => touched,
        None => return Ok(None),
    };
    if !renumber(table, pages, numbers, &mut touched, layout.usable)? {
        return Ok(None);
    }
    Ok(Some(Step {
        sums: followed.sums,
        roots: new,
        touched,
    }))
}
