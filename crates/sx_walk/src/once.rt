//! What refers to each page of a moment, counted by the step to it from a moment without pages.
ghost use Rattle.std.specs.Prelude.{◌≡◌, ◌-◌, ◌<◌, ◌≤◌, ◌^◌, map, length, replicate, is_some, None, IfOk, IfSome};
ghost use Rattle.std.specs.List.{range_with_len};
ghost use Rattle.sx_base.specs.Held.{held_pages};
ghost use Rattle.sx_closure.specs.Graph.{Rises, IsGraph};
ghost use Rattle.sx_closure.specs.Tallying.{IsTableOf};
ghost use Rattle.sx_follow.specs.Following.{HasFollowed};
ghost use Rattle.sx_follow.specs.Widened.{widened};
ghost use Rattle.sx_refs.specs.Covering.{Covers};
ghost use Rattle.sx_refs.specs.Pages.{all_roots, graph_of};
ghost use Rattle.sx_walk.specs.Renewing.{unsaid_count};

use crate::anew::{Counted, count_anew};
use crate::step::follow_step;
use std::alloc::{AllocError, Global};
use sx_base::{Layout, Pages, Sheets};

/// Counts what refers to each page of a moment into a table and into sums, each over all numbers.
///
/// The cost is that of reading each reached page once, and of a few look-ups for each target and each number; where a chain goes
/// on past its payload it is that of [`count_anew`] besides. It answers `AllocError` where memory runs out, or all references to
/// pages without a view are no number of 64 bits.
pub(crate) fn count<'a, P: Pages<'a>>(
    alloc: Global,
    pages: &P,
    numbers: &[u32],
    layout: &Layout,
    roots: &[i64],
) -> Result<Counted, AllocError>
    requires rises { Rises numbers.now }
    requires few { length numbers.now < 2 ^ 32 }
    requires covered { Covers numbers.now (P.view pages.now) }
    requires page_size { 0 < layout.now.page_size }
    requires least { 480 ≤ layout.now.usable }
    requires within { layout.now.usable ≤ P.page_size pages.now }
    requires small { P.page_size pages.now ≤ 65536 }
    ensures good { IfOk result (λ counted. IsGraph (graph_of (P.pages pages.now) (P.view pages.now) layout.now roots.now)) }
    ensures wide { IfOk result (λ counted. IsGraph (widened numbers.now (graph_of (P.pages pages.now) (P.view pages.now) layout.now roots.now))) }
    ensures table { IfOk result (λ counted. IsTableOf (graph_of (P.pages pages.now) (P.view pages.now) layout.now roots.now) (layout.now.usable - 4) counted.table) }
    ensures sums { IfOk result (λ counted. HasFollowed (widened numbers.now (graph_of (P.pages pages.now) (P.view pages.now) layout.now roots.now)) counted.sums) }
    ensures missing { IfOk result (λ counted. counted.missing ≡ map (unsaid_count (λ number. is_some (P.view pages.now number)) counted.sums) numbers.now) }
    ensures roots { IfOk result (λ counted. counted.roots ≡ all_roots (held_pages (P.pages pages.now) (P.view pages.now)) layout.now roots.now) }
{
    match count_once(alloc, pages, numbers, layout, roots)? {
        Some(counted) => Ok(counted),
        None => count_anew(alloc, pages, numbers, layout, roots),
    }
}

/// Follows a moment without pages to this one. `None` where that can't be done.
fn count_once<'a, P: Pages<'a>>(
    alloc: Global,
    pages: &P,
    numbers: &[u32],
    layout: &Layout,
    roots: &[i64],
) -> Result<Option<Counted>, AllocError>
    requires rises { Rises numbers.now }
    requires few { length numbers.now < 2 ^ 32 }
    requires covered { Covers numbers.now (P.view pages.now) }
    requires page_size { 0 < layout.now.page_size }
    requires least { 480 ≤ layout.now.usable }
    requires within { layout.now.usable ≤ P.page_size pages.now }
    requires small { P.page_size pages.now ≤ 65536 }
    ensures good { IfOk result (λ found. IfSome found (λ counted. IsGraph (graph_of (P.pages pages.now) (P.view pages.now) layout.now roots.now))) }
    ensures wide { IfOk result (λ found. IfSome found (λ counted. IsGraph (widened numbers.now (graph_of (P.pages pages.now) (P.view pages.now) layout.now roots.now)))) }
    ensures table { IfOk result (λ found. IfSome found (λ counted. IsTableOf (graph_of (P.pages pages.now) (P.view pages.now) layout.now roots.now) (layout.now.usable - 4) counted.table)) }
    ensures sums { IfOk result (λ found. IfSome found (λ counted. HasFollowed (widened numbers.now (graph_of (P.pages pages.now) (P.view pages.now) layout.now roots.now)) counted.sums)) }
    ensures missing { IfOk result (λ found. IfSome found (λ counted. counted.missing ≡ map (unsaid_count (λ number. is_some (P.view pages.now number)) counted.sums) numbers.now)) }
    ensures roots { IfOk result (λ found. IfSome found (λ counted. counted.roots ≡ all_roots (held_pages (P.pages pages.now) (P.view pages.now)) layout.now roots.now)) }
{
    let none = Sheets::new(layout.usable, &[]);
    let _size = none.size();
    let before = count_anew(alloc, &none, numbers, layout, roots)?;
    let mut table = before.table;
    let mut missing = before.missing;
    let mut views = no_views(alloc, numbers.len())?;
    let ranks = ranks_of(alloc, numbers)?;
    let found = follow_step(
        alloc,
        pages,
        numbers,
        &ranks,
        &mut views,
        layout,
        roots,
        before.sums,
        &before.roots,
        &mut table,
        &mut missing,
    )?;
    match found {
        Some(step) => Ok(Some(Counted {
            table,
            sums: step.sums,
            roots: step.roots,
            missing,
        })),
        None => Ok(None),
    }
}

/// The ranks of these numbers: all places in their list.
fn ranks_of(alloc: Global, numbers: &[u32]) -> Result<Vec<u32>, AllocError>
    requires { length numbers.now < 2 ^ 32 }
    ensures { IfOk result (λ ranks. ranks.items ≡ range_with_len 0 (length numbers.now)) }
{
    let mut ranks = Vec::with_capacity(alloc, numbers.len())?;
    for rank in 0..numbers.len() as u32 {
        ranks.push(rank)?;
    }
    Ok(ranks)
}

/// No view, of so many pages.
fn no_views<'a>(alloc: Global, count: usize) -> Result<Vec<Option<&'a [u8]>>, AllocError>
    ensures { IfOk result (λ views. views.items ≡ replicate count None) }
{
    vec![in alloc; None; count]
}
