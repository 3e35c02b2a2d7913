//! The pages of a moment, in order, without a walk of its claimed size.
ghost use Rattle.std.specs.Prelude.{◌≡◌, ℕ, ◌≤◌, ◌<◌, [], MatchOption};
ghost use Rattle.sx_base.specs.Maps.{lock_page_of};
ghost use Rattle.sx_prov.specs.Stretches.{stretches_above, stretches_of, last_of};
ghost use Rattle.sx_prov.specs.Walking.{nearer, stretch_by, IsNext, NoneAbove, IsStretch};

use std::marker::{Model, PhantomData};
use sx_base::{Layout, PageViews, Pages};

/// Pages of a moment that stand side by side.
#[derive(Clone, Copy, Debug, PartialEq, Eq)]
pub enum Stretch {
    /// Pages that the evidence doesn't hold.
    Absent {
        /// The number of the first.
        first: u32,
        /// The number of the last, which may be the first.
        last: u32,
    },
    /// A page that has a view, or the lock-byte page.
    Present(u32),
}

impl Stretch {
    /// The number of its last page.
    fn last(&self) -> u32
        ensures { result ≡ last_of self.now }
    {
        match self {
            Stretch::Absent { last, .. } => *last,
            Stretch::Present(page) => *page,
        }
    }
}

/// The stretches of a moment's pages that are still to come, from page 1 to its size: each present page by itself, and the
/// absent ones between two of them as one.
///
/// They are at most two for each present page and one more, whatever size the moment claims. Each step costs two look-ups of
/// the next page that has a view, and takes no memory.
#[derive(Drop)]
pub struct Stretches<'p, 'a, P: PageViews> {
    pages: &'p P,
    lock: u32,
    size: u32,
    after: u32,
    views: PhantomData<&'a [u8]>,
}

impl<'p, 'a, P: PageViews> Model for Stretches<'p, 'a, P> {
    ghost use Rattle.std.specs.Prelude.{◌≡◌, ◌≤◌, List};
    ghost use Rattle.sx_prov.specs.declared.stretch.Stretch.{Stretch};
    ghost use Rattle.sx_prov.specs.Stretches.{stretches_above};

    ghost Value = { List Stretch };

    ghost view = { λ it. stretches_above it.lock (P.view it.pages.now) it.size it.after };

    ghost invariant = { λ it. (it.size ≡ P.pages it.pages.now) × (it.after ≤ it.size) };
}

impl<'p, 'a, P: Pages<'a>> Stretches<'p, 'a, P> {
    /// All pages of a moment. The layout's page size isn't 0.
    pub fn start(pages: &'p P, layout: &Layout) -> Self
        requires { 0 < layout.now.page_size }
        ensures { result ≡ stretches_of (lock_page_of layout.now.page_size) (P.view pages.now) (P.pages pages.now) }
    {
        Stretches {
            pages,
            lock: layout.lock_page(),
            size: pages.size(),
            after: 0,
            views: PhantomData,
        }
    }
}

impl<'p, 'a, P: Pages<'a>> Iterator for Stretches<'p, 'a, P> {
    ghost use Rattle.std.specs.Iterator.{YieldsFirst, item_count};

    type Item = Stretch;

    ghost next_gives = { YieldsFirst (λ it. it) };

    ghost remaining = { item_count (λ it. it) };

    fn next(&mut self) -> Option<Stretch> {
        let found = stretch_after(self.pages, self.lock, self.size, self.after)?;
        self.after = found.last();
        Some(found)
    }
}

/// The first stretch above a number.
fn stretch_after<'a, P: Pages<'a>>(pages: &P, lock: u32, size: u32, after: u32) -> Option<Stretch>
    requires size { size ≡ P.pages pages.now }
    requires within { after ≤ size }
    ensures { MatchOption result (stretches_above lock (P.view pages.now) size after ≡ []) (IsStretch lock (P.view pages.now) size after) }
{
    let next = present_after(pages, lock, size, after);
    stretch_by(after, size, next)
}

/// The next present page above a number.
fn present_after<'a, P: Pages<'a>>(pages: &P, lock: u32, size: u32, after: u32) -> Option<u32>
    requires { size ≡ P.pages pages.now }
    ensures { MatchOption result (NoneAbove lock (P.view pages.now) size after) (IsNext lock (P.view pages.now) size after) }
{
    let held = pages.next_held(after);
    nearer(lock, size, after, held)
}

/// The next present page above a number, where the next page that has a view is this.
fn nearer(lock: u32, size: u32, after: u32, held: Option<u32>) -> Option<u32>
    ensures { result ≡ nearer lock size after held }
{
    if lock <= after || size < lock {
        return held;
    }
    match held {
        Some(page) if page < lock => held,
        _ => Some(lock),
    }
}

/// The stretch above a number, where the next present page is this.
fn stretch_by(after: u32, size: u32, next: Option<u32>) -> Option<Stretch>
    requires within { after ≤ size }
    requires above { MatchOption next (after ≤ size) (λ page. after < page) }
    ensures { result ≡ stretch_by after size next }
{
    match next {
        Some(page) if page - after == 1 => Some(Stretch::Present(page)),
        Some(page) => Some(Stretch::Absent {
            first: after + 1,
            last: page - 1,
        }),
        None if after < size => Some(Stretch::Absent {
            first: after + 1,
            last: size,
        }),
        None => None,
    }
}
