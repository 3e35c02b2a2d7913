//! The pages of the database file that can have a view: a range, less the lock-byte page ("The Lock-Byte Page").
ghost use Rattle.std.specs.Prelude.{◌≡◌, ℕ, ◌+◌, ◌^◌, ◌<◌, ◌≤◌, IsTrue, length, find, min, nat_lt, slice_index};
ghost use Rattle.sx_moment.specs.Gathered.{page_count, size_at, is_moment};
ghost use Rattle.sx_moment.specs.Firsts.{file_pages};
ghost use Rattle.sx_moment.specs.Images.{file_pages_at};

use crate::sources::Sources;
use sx_base::Moment;

impl<'a> Sources<'a> {
    // How many whole pages of the file lie within the size of a moment.
    fn file_count(&self, moment: Moment) -> u32
        requires { IsTrue (is_moment self.now moment) }
        ensures value { result ≡ min (size_at self.now moment) (page_count self.now) }
        ensures few { result < 2 ^ 31 }
    {
        self.size(moment).min(self.page_count())
    }

    /// How many pages of the file have a view at a moment.
    pub fn file_held(&self, moment: Moment) -> u32
        requires { IsTrue (is_moment self.now moment) }
        ensures { result ≡ length (file_pages_at self.now moment) }
    {
        count_pages(self.lock_page(), self.file_count(moment))
    }

    /// The page at a place among them.
    pub fn file_at(&self, moment: Moment, i: u32) -> u32
        requires listed { IsTrue (is_moment self.now moment) }
        requires within { i < length (file_pages_at self.now moment) }
        ensures { result ≡ slice_index (file_pages_at self.now moment) i }
    {
        page_at(self.lock_page(), self.file_count(moment), i)
    }

    /// The least of them above a number.
    pub fn file_after(&self, moment: Moment, after: u32) -> Option<u32>
        requires { IsTrue (is_moment self.now moment) }
        ensures { result ≡ find (nat_lt after) (file_pages_at self.now moment) }
    {
        page_after(self.lock_page(), self.file_count(moment), after)
    }
}

// How many of the first `count` pages aren't the lock-byte page, which is `lock`.
#[tactic(auto, using(crate::proofs::FilePages::count_below, crate::proofs::FilePages::count_around))]
fn count_pages(lock: u32, count: u32) -> u32
    requires { 1 ≤ lock }
    ensures { result ≡ length (file_pages lock count) }
{
    if count < lock { count } else { count - 1 }
}

// The page at a place among them, in rising order from 0.
#[tactic(auto, using(crate::proofs::FilePages::page_before, crate::proofs::FilePages::page_behind))]
fn page_at(lock: u32, count: u32, place: u32) -> u32
    requires first { 1 ≤ lock }
    requires few { count < 2 ^ 31 }
    requires within { place < length (file_pages lock count) }
    ensures { result ≡ slice_index (file_pages lock count) place }
{
    if place + 1 < lock {
        place + 1
    } else {
        place + 2
    }
}

// The least of them above a number.
#[tactic(auto, using(crate::proofs::FilePages::next_is, crate::proofs::FilePages::next_second, crate::proofs::FilePages::next_none))]
fn page_after(lock: u32, count: u32, after: u32) -> Option<u32>
    requires few { count < 2 ^ 31 }
    ensures { result ≡ find (nat_lt after) (file_pages lock count) }
{
    if after >= count {
        return None;
    }
    if after + 1 != lock {
        return Some(after + 1);
    }
    if after + 2 <= count {
        Some(after + 2)
    } else {
        None
    }
}
