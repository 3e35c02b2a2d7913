//! What refers to each page, at one moment after the other.
ghost use Rattle.std.specs.Prelude.{◌≡◌, ℕ, ◌-◌, ◌<◌, ◌≤◌, ◌^◌, Option, None, IsTrue, true, map, length, is_some, slice_index_or, option_copied, IfOk, IfSome, OnOk};
ghost use Rattle.std.specs.List.{All};
ghost use Rattle.sx_closure.specs.Graph.{Rises};
ghost use Rattle.sx_base.specs.Held.{held_pages};
ghost use Rattle.sx_refs.specs.Pages.{all_roots, graph_of};
ghost use Rattle.sx_closure.specs.Tallying.{IsTableOf};
ghost use Rattle.sx_refs.specs.Covering.{Covers};
ghost use Rattle.sx_walk.specs.Walks.{RanksStand, StandBut, SayOther, StandsAt};
ghost use Rattle.sx_walk.specs.Keeping.{IfKept};
ghost use Rattle.sx_walk.specs.Renewing.{unsaid_count};
ghost use Rattle.sx_walk.specs.Steady.{IsStanding, IfStanding};
ghost use Rattle.sx_walk.specs.Stepping.{HasStepped};

use crate::missing::Missing;
use crate::once::count;
use crate::steady::all_steady;
use crate::step::{Step, follow_step};
use std::alloc::{AllocError, Global};
use std::marker::Model;
use sx_base::{Layout, Pages};
use sx_closure::{Kept, RefTable};
use sx_follow::Sums;
use sx_refs::references;

/// What refers to each page of a moment, for a walk over moments that hold pages of one list of numbers.
///
/// The rank of a page is its place in that list, from 0.
#[derive(Drop)]
pub struct RefWalk<'a> {
    alloc: Global,
    numbers: Vec<u32>,
    views: Vec<Option<&'a [u8]>>,
    setting: Setting,
    table: RefTable,
    // Whether the table and the views are those of the moment: not so where memory ran out on the way to it.
    stands: bool,
    sums: Option<Sums>,
    // The root targets that the sums have, where there are sums.
    trail: Kept,
    // The references to pages without a view by the sums, where there are sums.
    missing: Missing,
    touched: Option<Vec<u32>>,
}

impl<'a> Model for RefWalk<'a> {
    ghost use Rattle.std.specs.Prelude.{◌≡◌, length, map, option_map, option_copied};
    ghost use Rattle.sx_closure.specs.Graph.{Rises};
    ghost use Rattle.sx_walk.specs.Walks.{Walk};
    ghost use Rattle.sx_walk.specs.Keeping.{IfKept};
    ghost use Rattle.sx_walk.specs.Steady.{IfStanding};

    ghost Value = { Walk };

    ghost view = { λ walk. record { numbers = walk.numbers.items; views = map option_copied walk.views.items; table = walk.table; touched = option_map (λ ranks. ranks.items) walk.touched } };

    ghost invariant = { λ walk. Rises walk.numbers.items × (length walk.views.items ≡ length walk.numbers.items) × IfStanding walk.stands walk.numbers.items (map option_copied walk.views.items) walk.setting.size walk.setting.layout walk.setting.roots.items walk.table × IfKept walk.numbers.items (map option_copied walk.views.items) walk.setting.layout.usable walk.table walk.sums walk.trail walk.missing };
}

impl<'a> RefWalk<'a> {
    /// Counts what refers to each page of the first moment, as [`references`](sx_refs::references) does.
    ///
    /// The numbers rise, and each page with a view is among them. The cost is that of [`references`](sx_refs::references) and a
    /// few look-ups for each number; 20 bytes a number and the roots are taken besides. Where `follows` says that another moment
    /// is to come, what following it needs is counted too, at the same cost but where a chain goes on past its payload, and 128
    /// bytes a number are taken; else that is done at the first step that needs it. It answers `AllocError` where memory runs
    /// out.
    pub fn start<P: Pages<'a>>(
        alloc: Global,
        pages: &P,
        numbers: &[u32],
        layout: &Layout,
        roots: &[i64],
        follows: bool,
    ) -> Result<Self, AllocError>
        requires rise { Rises numbers.now }
        requires covered { Covers numbers.now (P.view pages.now) }
        requires page_size { 0 < layout.now.page_size }
        requires least { 480 ≤ layout.now.usable }
        requires within { layout.now.usable ≤ P.page_size pages.now }
        requires small { P.page_size pages.now ≤ 65536 }
        ensures numbers { IfOk result (λ walk. walk.numbers ≡ numbers.now) }
        ensures stands { IfOk result (StandsAt (P.view pages.now) (graph_of (P.pages pages.now) (P.view pages.now) layout.now roots.now) (layout.now.usable - 4)) }
    {
        if follows && is_few(numbers) {
            return RefWalk::start_followed(alloc, pages, numbers, layout, roots);
        }
        let size = pages.size();
        let views = views_of(alloc, pages, numbers)?;
        let table = references(alloc, pages, layout, roots)?;
        let numbers = numbers.to_vec(alloc)?;
        let setting = Setting::new(alloc, size, layout, roots)?;
        Ok(RefWalk {
            alloc,
            numbers,
            views,
            setting,
            table,
            stands: true,
            sums: None,
            trail: Kept::new(alloc),
            missing: Missing::none(alloc),
            touched: None,
        })
    }

    /// Counts what refers to each page of the first moment, so that the next can be followed.
    fn start_followed<P: Pages<'a>>(
        alloc: Global,
        pages: &P,
        numbers: &[u32],
        layout: &Layout,
        roots: &[i64],
    ) -> Result<Self, AllocError>
        requires rise { Rises numbers.now }
        requires few { length numbers.now < 2 ^ 32 }
        requires covered { Covers numbers.now (P.view pages.now) }
        requires page_size { 0 < layout.now.page_size }
        requires least { 480 ≤ layout.now.usable }
        requires within { layout.now.usable ≤ P.page_size pages.now }
        requires small { P.page_size pages.now ≤ 65536 }
        ensures numbers { IfOk result (λ walk. walk.numbers ≡ numbers.now) }
        ensures stands { IfOk result (StandsAt (P.view pages.now) (graph_of (P.pages pages.now) (P.view pages.now) layout.now roots.now) (layout.now.usable - 4)) }
    {
        let size = pages.size();
        let views = views_of(alloc, pages, numbers)?;
        let counted = count(alloc, pages, numbers, layout, roots)?;
        let numbers = numbers.to_vec(alloc)?;
        let setting = Setting::new(alloc, size, layout, roots)?;
        Ok(RefWalk {
            alloc,
            numbers,
            views,
            setting,
            table: counted.table,
            stands: true,
            sums: Some(counted.sums),
            trail: counted.roots,
            missing: counted.missing,
            touched: None,
        })
    }

    /// Goes to the next moment.
    ///
    /// Each page with a view is among the numbers; `changed` has ranks, and a page whose rank isn't there has the view
    /// that it had at the moment before.
    ///
    /// Where the page size and the usable bytes are those of the moment before, each page that lost a reference still has a way
    /// of single ones from a root, and no chain that changed goes on past its payload, the table is followed, also where pages
    /// come into view or go out of it: the cost is that of reading the changed pages twice, and of a few look-ups for each
    /// reference that comes or goes and for each page behind it in a chain. Else it is that of
    /// [`references`](sx_refs::references) and a look at each changed page. Where the page size and the usable bytes are the
    /// same, what following the next step needs is counted with it, and twice that cost is added where a chain goes on past its
    /// payload. But as long as there is nothing to follow, nothing is counted where the size, the layout and the roots are the
    /// same, and each changed page is held as before and names what it named, in each role in which it may be reached: the table
    /// stands, at the cost of reading the changed pages twice. Where it answers `AllocError`, for want of memory, nothing more is
    /// said of the walk but that it goes on.
    pub fn advance<P: Pages<'a>>(
        &mut self,
        pages: &P,
        changed: &[u32],
        layout: &Layout,
        roots: &[i64],
    ) -> Result<(), AllocError>
        requires covered { Covers self.old.numbers (P.view pages.now) }
        requires ranks { All (λ rank. rank < length self.old.numbers) changed.now }
        requires stand { StandBut changed.now self.old (P.view pages.now) }
        requires page_size { 0 < layout.now.page_size }
        requires least { 480 ≤ layout.now.usable }
        requires within { layout.now.usable ≤ P.page_size pages.now }
        requires small { P.page_size pages.now ≤ 65536 }
        ensures numbers { OnOk result (self.new.numbers ≡ self.old.numbers) }
        ensures stands { OnOk result (StandsAt (P.view pages.now) (graph_of (P.pages pages.now) (P.view pages.now) layout.now roots.now) (layout.now.usable - 4) self.new) }
        ensures touched { OnOk result (SayOther self.new.numbers self.old.table self.new.table self.new.touched) }
    {
        let sums = self.sums.take();
        if sums.is_none()
            && stands_still(
                self.alloc,
                pages,
                &self.numbers,
                changed,
                &self.views,
                self.stands,
                &self.setting,
                layout,
                roots,
                &self.table,
            )?
        {
            look_again(pages, &self.numbers, changed, &mut self.views);
            self.touched = Some(Vec::new(self.alloc));
            return Ok(());
        }
        self.stands = false;
        let size = pages.size();
        let fits = self.setting.fits(layout) && is_few(&self.numbers);
        let found = step_from(
            self.alloc,
            pages,
            &self.numbers,
            changed,
            &mut self.views,
            &self.setting,
            layout,
            roots,
            sums,
            &self.trail,
            &mut self.table,
            &mut self.missing,
        )?;
        self.setting = Setting::new(self.alloc, size, layout, roots)?;
        if let Some(step) = found {
            self.sums = Some(step.sums);
            self.trail = step.roots;
            self.touched = Some(step.touched);
            self.stands = true;
            return Ok(());
        }
        self.touched = None;
        if fits {
            let counted = count(self.alloc, pages, &self.numbers, layout, roots)?;
            self.table = counted.table;
            self.sums = Some(counted.sums);
            self.trail = counted.roots;
            self.missing = counted.missing;
            self.stands = true;
            return Ok(());
        }
        self.table = references(self.alloc, pages, layout, roots)?;
        self.stands = true;
        Ok(())
    }

    /// What refers to each page at the moment.
    pub fn table(&self) -> &RefTable
        ensures { result.now ≡ self.now.table }
    {
        &self.table
    }

    /// The ranks of the pages of which the table may say something else than at the moment before; None where it may of
    /// each.
    pub fn touched(&self) -> Option<&[u32]>
        ensures { option_copied result ≡ self.now.touched }
    {
        match &self.touched {
            Some(ranks) => Some(ranks.as_slice()),
            None => None,
        }
    }
}

/// What the table of a moment rests on besides the views of its pages.
#[derive(Drop)]
struct Setting {
    size: u32,
    layout: Layout,
    roots: Vec<i64>,
}

impl Setting {
    /// The setting of a moment.
    fn new(alloc: Global, size: u32, layout: &Layout, roots: &[i64]) -> Result<Self, AllocError>
        ensures { IfOk result (λ setting. (setting.size ≡ size) × (setting.layout ≡ layout.now) × (setting.roots.items ≡ roots.now)) }
    {
        let roots = roots.to_vec(alloc)?;
        Ok(Setting {
            size,
            layout: *layout,
            roots,
        })
    }

    /// Whether a moment has the same setting.
    fn is(&self, size: u32, layout: &Layout, roots: &[i64]) -> bool
        ensures { IsTrue result → (self.now.size ≡ size) × (self.now.layout ≡ layout.now) × (self.now.roots.items ≡ roots.now) }
    {
        if self.size != size || self.layout != *layout {
            return false;
        }
        same_roots(&self.roots, roots)
    }

    /// Whether a moment with this layout may be followed: it has pages of the same size with the same usable bytes.
    fn fits(&self, layout: &Layout) -> bool
        ensures { IsTrue result → self.now.layout.usable ≡ layout.now.usable }
    {
        self.layout.usable == layout.usable && self.layout.page_size == layout.page_size
    }
}

/// Whether two lists of roots are the same.
fn same_roots(some: &[i64], others: &[i64]) -> bool
    ensures { IsTrue result → some.now ≡ others.now }
{
    some == others
}

/// Whether the table of the moment before is that of the next too: it has the same size, layout and roots, and each page that
/// changed is held as before and names what it named, in each role in which it may be reached.
fn stands_still<'a, P: Pages<'a>>(
    alloc: Global,
    pages: &P,
    numbers: &[u32],
    changed: &[u32],
    views: &[Option<&'a [u8]>],
    stands: bool,
    setting: &Setting,
    layout: &Layout,
    roots: &[i64],
    table: &RefTable,
) -> Result<bool, AllocError>
    requires long { length views.now ≡ length numbers.now }
    requires ranks { All (λ rank. rank < length numbers.now) changed.now }
    requires covered { Covers numbers.now (P.view pages.now) }
    requires stand { RanksStand changed.now numbers.now (map option_copied views.now) (P.view pages.now) }
    requires least { 480 ≤ layout.now.usable }
    requires within { layout.now.usable ≤ P.page_size pages.now }
    requires small { P.page_size pages.now ≤ 65536 }
    requires standing { IfStanding stands numbers.now (map option_copied views.now) setting.now.size setting.now.layout setting.now.roots.items table.now }
    ensures table { IfOk result (λ still. IsTrue still → IsTableOf (graph_of (P.pages pages.now) (P.view pages.now) layout.now roots.now) (layout.now.usable - 4) table.now) }
    ensures standing { IfOk result (λ still. IsTrue still → (stands ≡ true) × IsStanding numbers.now (map (P.view pages.now) numbers.now) setting.now.size setting.now.layout setting.now.roots.items table.now) }
{
    if !stands || !setting.is(pages.size(), layout, roots) {
        return Ok(false);
    }
    if !all_steady(alloc, pages, table, layout.usable, numbers, views, changed)? {
        return Ok(false);
    }
    Ok(true)
}

/// Follows the table and the sums to the next moment, where there are sums and the setting fits, and takes the views that
/// changed anew in any case. `None` where the moment can't be followed: then the table is of no use.
fn step_from<'a, P: Pages<'a>>(
    alloc: Global,
    pages: &P,
    numbers: &[u32],
    changed: &[u32],
    views: &mut Vec<Option<&'a [u8]>>,
    setting: &Setting,
    layout: &Layout,
    roots: &[i64],
    sums: Option<Sums>,
    trail: &Kept,
    table: &mut RefTable,
    missing: &mut Missing,
) -> Result<Option<Step>, AllocError>
    requires rises { Rises numbers.now }
    requires long { length views.old.items ≡ length numbers.now }
    requires ranks { All (λ rank. rank < length numbers.now) changed.now }
    requires covered { Covers numbers.now (P.view pages.now) }
    requires stand { RanksStand changed.now numbers.now (map option_copied views.old.items) (P.view pages.now) }
    requires page_size { 0 < layout.now.page_size }
    requires least { 480 ≤ layout.now.usable }
    requires within { layout.now.usable ≤ P.page_size pages.now }
    requires small { P.page_size pages.now ≤ 65536 }
    requires kept { IfKept numbers.now (map option_copied views.old.items) setting.now.layout.usable table.old sums trail.now missing.old }
    ensures views { IfOk result (λ _. map option_copied views.new.items ≡ map (P.view pages.now) numbers.now) }
    ensures long { length views.new.items ≡ length numbers.now }
    ensures stepped { IfOk result (λ found. IfSome found (λ step. HasStepped (graph_of (P.pages pages.now) (P.view pages.now) layout.now roots.now) (layout.now.usable - 4) numbers.now table.old table.new step.sums step.touched.items)) }
    ensures missing { IfOk result (λ found. IfSome found (λ step. missing.new ≡ map (unsaid_count (λ number. is_some (P.view pages.now number)) step.sums) numbers.now)) }
    ensures roots { IfOk result (λ found. IfSome found (λ step. step.roots ≡ all_roots (held_pages (P.pages pages.now) (P.view pages.now)) layout.now roots.now)) }
{
    match sums {
        Some(sums) => {
            if setting.fits(layout) {
                return follow_step(
                    alloc, pages, numbers, changed, views, layout, roots, sums, trail, table,
                    missing,
                );
            }
            look_again(pages, numbers, changed, views);
            Ok(None)
        }
        None => {
            look_again(pages, numbers, changed, views);
            Ok(None)
        }
    }
}

/// Whether there are fewer numbers than there are numbers of 32 bits.
fn is_few(numbers: &[u32]) -> bool
    ensures { IsTrue result → length numbers.now < 2 ^ 32 }
{
    numbers.len() <= u32::MAX as usize
}

/// The view of each of these pages.
fn views_of<'a, P: Pages<'a>>(
    alloc: Global,
    pages: &P,
    numbers: &[u32],
) -> Result<Vec<Option<&'a [u8]>>, AllocError>
    ensures { IfOk result (λ views. map option_copied views.items ≡ map (P.view pages.now) numbers.now) }
{
    let mut views = Vec::with_capacity(alloc, numbers.len())?;
    for number in numbers {
        views.push(pages.page(*number))?;
    }
    Ok(views)
}

/// Takes the view of each page whose rank is listed anew.
fn look_again<'a, P: Pages<'a>>(
    pages: &P,
    numbers: &[u32],
    changed: &[u32],
    views: &mut Vec<Option<&'a [u8]>>,
)
    requires long { length views.old.items ≡ length numbers.now }
    requires ranks { All (λ rank. rank < length numbers.now) changed.now }
    requires stand { RanksStand changed.now numbers.now (map option_copied views.old.items) (P.view pages.now) }
    ensures looked { map option_copied views.new.items ≡ map (P.view pages.now) numbers.now }
    ensures long { length views.new.items ≡ length numbers.now }
{
    for rank in changed {
        let rank = *rank as usize;
        views[rank] = pages.page(numbers[rank]);
    }
}
