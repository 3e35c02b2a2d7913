//! The totals of a moment.
ghost use Rattle.std.specs.Prelude.{◌≡◌, ℕ, ◌+◌, ◌-◌, ◌*◌, ◌<◌, ◌≤◌, List, Option, length};
ghost use Rattle.sx_base.specs.Held.{held_pages};
ghost use Rattle.sx_base.specs.Maps.{lock_page_of};
ghost use Rattle.sx_closure.specs.Graph.{Graph};
ghost use Rattle.sx_sums.specs.Shown.{AreShown, AreMoment, lock_count};

use crate::sums::Sums;
use sx_base::Layout;

/// How many bytes of all pages of a moment are in each of the three groups of labels.
#[derive(Clone, Copy, Debug, PartialEq, Eq)]
pub struct PageTotals {
    /// What the database uses.
    pub owned: u64,
    /// What it leaves unused.
    pub slack: u64,
    /// What can't be said.
    pub fault: u64,
}

/// The totals of a moment of so many pages, of which so many have a view: those of the pages that are shown, the lock-byte
/// page, which the database uses ("The Lock-Byte Page"), and the pages without a view, of which nothing can be said.
///
/// The layout's page size is from 1 to 65536. It takes constant time and no memory.
pub fn moment_totals(sums: &Sums, size: u32, held: u32, layout: &Layout) -> PageTotals
    requires some { 0 < layout.now.page_size }
    requires small { layout.now.page_size ≤ 65536 }
    ensures { (graph : Graph) (view : ℕ → Option (List ℕ)) (numbers : List ℕ) → AreShown graph layout.now view size numbers sums.now → held ≡ length (held_pages size view) → AreMoment graph layout.now view size result }
{
    let page_size = u64::from(layout.page_size);
    let lock = lock_count(layout, size);
    let absent = size.saturating_sub(held).saturating_sub(lock);
    PageTotals {
        owned: sums.owned() + u64::from(lock) * page_size,
        slack: sums.slack(),
        fault: sums.fault() + u64::from(absent) * page_size,
    }
}

/// How many lock-byte pages are within the size: one or none.
fn lock_count(layout: &Layout, size: u32) -> u32
    requires { 0 < layout.now.page_size }
    ensures count { result ≡ lock_count (lock_page_of layout.now.page_size) size }
    ensures few { result ≤ 1 }
{
    if layout.lock_page() <= size { 1 } else { 0 }
}
