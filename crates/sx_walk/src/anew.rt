//! What refers to each page of a moment, counted so that the next moment can be followed.
ghost use Rattle.std.specs.Prelude.{◌≡◌, ◌-◌, ◌<◌, ◌≤◌, ◌^◌, map, length, is_some, IfOk};
ghost use Rattle.sx_base.specs.Held.{held_pages};
ghost use Rattle.sx_closure.specs.Graph.{Rises, IsGraph};
ghost use Rattle.sx_closure.specs.Tallying.{IsTableOf};
ghost use Rattle.sx_follow.specs.Following.{HasFollowed};
ghost use Rattle.sx_follow.specs.Widened.{widened};
ghost use Rattle.sx_refs.specs.Pages.{all_roots, graph_of};
ghost use Rattle.sx_walk.specs.Renewing.{unsaid_count};
ghost use Rattle.sx_refs.specs.Covering.{Covers};

use crate::exchange::roots_of;
use crate::missing::Missing;
use crate::wide::WideLinks;
use std::alloc::{AllocError, Global};
use std::marker::PhantomData;
use sx_base::{Layout, Pages};
use sx_closure::{Kept, RefTable};
use sx_follow::{Sums, begin};
use sx_refs::references;

/// What refers to each page, as a table and as sums, each over all numbers; the root targets; and the references to pages
/// without a view.
#[derive(Drop)]
pub(crate) struct Counted {
    pub table: RefTable,
    pub sums: Sums,
    pub roots: Kept,
    pub missing: Missing,
}

/// Counts what refers to each page of a moment twice, once into a table and once into sums, each over all numbers.
///
/// The cost is twice that of [`references`](sx_refs::references), and a look at each number. It answers `AllocError` where
/// memory runs out, or all references to pages without a view are no number of 64 bits.
pub(crate) fn count_anew<'a, P: Pages<'a>>(
    alloc: Global,
    pages: &P,
    numbers: &[u32],
    layout: &Layout,
    roots: &[i64],
) -> Result<Counted, AllocError>
    requires rises { Rises numbers.now }
    requires few { length numbers.now < 2 ^ 32 }
    requires covered { Covers numbers.now (P.view pages.now) }
    requires page_size { 0 < layout.now.page_size }
    requires least { 480 ≤ layout.now.usable }
    requires within { layout.now.usable ≤ P.page_size pages.now }
    requires small { P.page_size pages.now ≤ 65536 }
    ensures good { IfOk result (λ counted. IsGraph (graph_of (P.pages pages.now) (P.view pages.now) layout.now roots.now)) }
    ensures wide { IfOk result (λ counted. IsGraph (widened numbers.now (graph_of (P.pages pages.now) (P.view pages.now) layout.now roots.now))) }
    ensures table { IfOk result (λ counted. IsTableOf (graph_of (P.pages pages.now) (P.view pages.now) layout.now roots.now) (layout.now.usable - 4) counted.table) }
    ensures sums { IfOk result (λ counted. HasFollowed (widened numbers.now (graph_of (P.pages pages.now) (P.view pages.now) layout.now roots.now)) counted.sums) }
    ensures missing { IfOk result (λ counted. counted.missing ≡ map (unsaid_count (λ number. is_some (P.view pages.now number)) counted.sums) numbers.now) }
    ensures roots { IfOk result (λ counted. counted.roots ≡ all_roots (held_pages (P.pages pages.now) (P.view pages.now)) layout.now roots.now) }
{
    // That it fits bounds the pages.
    let _count = pages.held();
    let _size = pages.size();
    let counted = references(alloc, pages, layout, roots)?;
    let table = counted.widened(alloc, numbers)?;
    let links = WideLinks {
        pages,
        numbers,
        layout: *layout,
        roots,
        views: PhantomData,
    };
    let held = numbers.to_vec(alloc)?;
    let kept = roots_of(alloc, pages, layout, roots)?;
    let sums = begin(alloc, &links, held, &kept)?;
    let missing = Missing::of(alloc, pages, &sums, numbers)?;
    Ok(Counted {
        table,
        sums,
        roots: kept,
        missing,
    })
}
