//! What refers to each page of a moment.
ghost use Rattle.std.specs.Prelude.{◌≡◌, ℕ, false, ◌-◌, ◌≤◌, ◌<◌, ◌^◌, [], ◌∷◌, length, IfOk};
ghost use Rattle.sx_base.specs.Held.{held_pages};
ghost use Rattle.sx_closure.specs.Graph.{IsGraph};
ghost use Rattle.sx_closure.specs.Tallying.{IsTableOf};
ghost use Rattle.sx_closure.specs.declared.pair.Source.TheVariants.{Root};
ghost use Rattle.sx_refs.specs.Pages.{root_page, root_targets, roots_targets, is_map_in, maps_targets, all_roots, if_held, graph_of};

use crate::targets::{give_linked, give_targets, may_name};
use std::alloc::{AllocError, Global};
use std::marker::PhantomData;
use sx_base::{Layout, PageViews, Pages, Role};
use sx_closure::{Links, Pair, Receiver, RefTable, Source, Tally, Target, close};

/// Counts what refers to each page of a moment, from page 1, the freelist, the roots of the schema and the pointer-map
/// pages on.
///
/// The layout's page size isn't 0, and its usable bytes are from 480 to the size of the pages, which is at most 65536.
/// All memory is taken before a page is read: at most 84 bytes for each held page. Each pair of a page and a role is asked
/// once; the cost is that of reading the reached pages and a look-up for each target. It answers `AllocError` where
/// memory runs out.
pub fn references<'a, P: Pages<'a>>(
    alloc: Global,
    pages: &P,
    layout: &Layout,
    roots: &[i64],
) -> Result<RefTable, AllocError>
    requires page_size { 0 < layout.now.page_size }
    requires least { 480 ≤ layout.now.usable }
    requires within { layout.now.usable ≤ P.page_size pages.now }
    requires small { P.page_size pages.now ≤ 65536 }
    ensures { IfOk result (IsTableOf (graph_of (P.pages pages.now) (P.view pages.now) layout.now roots.now) (layout.now.usable - 4)) }
{
    // That it fits bounds the pages.
    let _count = pages.held();
    let links = PageLinks {
        pages,
        layout: *layout,
        roots,
        views: PhantomData,
    };
    close(alloc, &links, layout.usable - 4)
}

/// The numbers of the held pages, in rising order.
pub(crate) fn held_numbers<'a, P: Pages<'a>>(
    alloc: Global,
    pages: &P,
) -> Result<Vec<u32>, AllocError>
    ensures numbers { IfOk result (λ held. held.items ≡ held_pages (P.pages pages.now) (P.view pages.now)) }
    ensures few { IfOk result (λ held. length held.items < 2 ^ 32) }
{
    let mut held = Vec::with_capacity(alloc, pages.held() as usize)?;
    let mut at = 0;
    while let Some(no) = pages.next_held(at) {
        held.push(no)?;
        at = no;
    }
    Ok(held)
}

/// The pages of a moment as what names pages: each question reads a page.
#[derive(Drop)]
pub(crate) struct PageLinks<'p, 'a, P: PageViews> {
    pub pages: &'p P,
    pub layout: Layout,
    pub roots: &'p [i64],
    pub views: PhantomData<&'a [u8]>,
    ghost page_size: { 0 < layout.page_size },
    ghost least: { 480 ≤ layout.usable },
    ghost within: { layout.usable ≤ P.page_size pages.now },
    ghost small: { P.page_size pages.now ≤ 65536 },
    ghost graph: { IsGraph (graph_of (P.pages pages.now) (P.view pages.now) layout roots.now) },
}

impl<'p, 'a, P: Pages<'a>> Links for PageLinks<'p, 'a, P> {
    ghost use Rattle.sx_refs.specs.Pages.{graph_of};

    ghost graph = { λ it. graph_of (P.pages it.pages.now) (P.view it.pages.now) it.layout it.roots.now };

    #[tactic(auto, unfolding(crate::specs::Pages::graph_of))]
    fn held(&self, alloc: Global) -> Result<Vec<u32>, AllocError> {
        held_numbers(alloc, self.pages)
    }

    #[tactic(auto, unfolding(crate::specs::Pages::graph_of))]
    fn add_roots(&self, tally: &mut Tally) -> Result<(), AllocError> {
        give_roots(self.pages, &self.layout, self.roots, tally)
    }

    #[tactic(auto, unfolding(crate::specs::Pages::graph_of))]
    fn add_targets(&self, pair: Pair, tally: &mut Tally) -> Result<(), AllocError> {
        give_named(self.pages, self.layout.usable, pair, tally)
    }

    ghost sound = { λ it. it.graph };
}

/// Gives what a pair names, if its page is held.
pub fn give_named<'a, P: Pages<'a>, R: Receiver>(
    pages: &P,
    usable: u32,
    pair: Pair,
    receiver: &mut R,
) -> Result<(), AllocError>
    requires least { 480 ≤ usable }
    requires within { usable ≤ P.page_size pages.now }
    requires small { P.page_size pages.now ≤ 65536 }
    ensures { IfOk result (λ _. receiver.new ≡ R.after receiver.old (if_held (P.view pages.now pair.page) pair usable)) }
{
    if !may_name(pair.role) {
        return Ok(());
    }
    match pages.page(pair.page) {
        Some(bytes) => give_targets(bytes, pair, usable, receiver),
        None => Ok(()),
    }
}

/// Gives the root targets: page 1, the first freelist trunk page, the roots of the schema, the held pointer-map pages.
#[tactic(auto, unfolding(crate::specs::Pages::all_roots))]
pub fn give_roots<'a, P: Pages<'a>, R: Receiver>(
    pages: &P,
    layout: &Layout,
    roots: &[i64],
    receiver: &mut R,
) -> Result<(), AllocError>
    requires page_size { 0 < layout.now.page_size }
    ensures { IfOk result (λ _. receiver.new ≡ R.after receiver.old (all_roots (held_pages (P.pages pages.now) (P.view pages.now)) layout.now roots.now)) }
{
    receiver.take(Target::new(1, Role::Node, Source::Root, 0))?;
    give_linked(layout.free_head, Role::Trunk, Source::Root, receiver)?;
    give_schema_roots(roots, receiver)?;
    give_maps(pages, layout, receiver)
}

/// Gives the roots of the schema.
#[tactic(auto, using(crate::proofs::RootLists::roots_none, crate::proofs::RootLists::roots_more))]
fn give_schema_roots<R: Receiver>(roots: &[i64], receiver: &mut R) -> Result<(), AllocError>
    ensures { IfOk result (λ _. receiver.new ≡ R.after receiver.old (roots_targets roots.now)) }
{
    for root in roots {
        give_root(*root, receiver)?;
    }
    Ok(())
}

/// Gives what one root of the schema names.
#[tactic(auto, unfolding(crate::specs::Pages::root_targets))]
fn give_root<R: Receiver>(root: i64, receiver: &mut R) -> Result<(), AllocError>
    ensures { IfOk result (λ _. receiver.new ≡ R.after receiver.old (root_targets root)) }
{
    if root == 0 {
        return Ok(());
    }
    receiver.take(Target::new(root_page(root), Role::Node, Source::Root, 0))
}

/// The page of a root, or 0, which no moment holds, where the root is no number of 32 bits.
#[tactic(auto, unfolding(crate::specs::Pages::root_page))]
fn root_page(root: i64) -> u32
    ensures { result ≡ root_page root }
{
    u32::try_from(root).unwrap_or(0)
}

/// Gives the held pointer-map pages. They are found by steps from one place of such a page to the next: no other page is
/// asked but the held one that follows a place.
fn give_maps<'a, P: Pages<'a>, R: Receiver>(
    pages: &P,
    layout: &Layout,
    receiver: &mut R,
) -> Result<(), AllocError>
    requires page_size { 0 < layout.now.page_size }
    ensures { IfOk result (λ _. receiver.new ≡ R.after receiver.old (maps_targets layout.now (held_pages (P.pages pages.now) (P.view pages.now)))) }
{
    if !layout.pointer_maps {
        return Ok(());
    }
    let size = pages.size();
    let mut at = 0;
    while let Some(no) = pages.next_held(at) {
        give_map(layout, no, receiver)?;
        at = before_next_map(layout, no).min(size);
    }
    Ok(())
}

/// A page at or above this one up to which no page above it is a pointer-map page: the last before the next such page.
fn before_next_map(layout: &Layout, no: u32) -> u32
    requires { 0 < layout.now.page_size }
    ensures above { no ≤ result }
    ensures none { (page : ℕ) → no < page → page ≤ result → is_map_in layout.now page ≡ false }
{
    if no < 2 {
        return 1;
    }
    let step = u64::from(layout.usable / 5 + 1);
    let place = (u64::from(no - 2) / step + 1) * step + 2;
    let last = last_below(place);
    let lock = layout.lock_page();
    // The page behind the lock-byte page may be a map in its place.
    if lock < no || last <= lock {
        return last;
    }
    lock
}

/// The last page number below this one.
fn last_below(place: u64) -> u32
    requires { 0 < place }
    ensures below { result < place }
    ensures last { (page : ℕ) → page < place → page < 2 ^ 32 → page ≤ result }
{
    if place > u64::from(u32::MAX) {
        return u32::MAX;
    }
    place as u32 - 1
}

/// Gives a page where it is a pointer-map page.
#[tactic(auto, unfolding(crate::specs::Pages::maps_targets))]
fn give_map<R: Receiver>(layout: &Layout, page: u32, receiver: &mut R) -> Result<(), AllocError>
    requires page_size { 0 < layout.now.page_size }
    ensures { IfOk result (λ _. receiver.new ≡ R.after receiver.old (maps_targets layout.now (page ∷ []))) }
{
    if !layout.is_map(page) {
        return Ok(());
    }
    receiver.take(Target::new(page, Role::PointerMap, Source::Root, 0))
}
