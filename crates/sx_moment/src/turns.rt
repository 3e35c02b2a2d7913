//! What changes from one moment to the next.
ghost use Rattle.std.specs.Prelude.{◌≡◌, ℕ, ◌-◌, ◌≤◌, false, length, map, IfOk};
ghost use Rattle.std.specs.List.{range_with_len};
ghost use Rattle.sx_base.specs.declared.moment.Moment.TheVariants.{Commit};
ghost use Rattle.sx_moment.specs.Gathered.{slot_at, size_at};
ghost use Rattle.sx_moment.specs.Views.{origin_of};
ghost use Rattle.sx_moment.specs.Turns.{moment_before, frame_pages, is_among, AreTurned};

use crate::case::Case;
use crate::sources::Sources;
use std::alloc::{AllocError, Global};
use sx_base::Moment;

impl<'a> Case<'a> {
    /// The pages whose views can differ at commit `k` from the moment before it: those that its frames hold, each once, in
    /// rising order. Commits count from 1; the moment before the first is the file's.
    ///
    /// Every other page within the sizes of both moments has the same view at both ([`Case::views_stay`]). Where the sizes
    /// differ, the pages between them appear or go besides. The cost is that of sorting the frames of this commit. It
    /// answers `AllocError` where memory runs out, and nothing else.
    pub fn turned(&self, alloc: Global, k: u32) -> Result<Vec<u32>, AllocError>
        requires first { 1 ≤ k }
        requires last { k ≤ length self.now.wal.commits }
        ensures { IfOk result (λ pages. AreTurned self.now k pages.items) }
    {
        let mut pages = self.frame_pages(alloc, k)?;
        pages.sort_unstable();
        pages.dedup();
        Ok(pages)
    }

    /// A page that no frame of commit `k` holds and that lies within the sizes of both moments comes at the commit from where
    /// it came before. This is a law of the definitions; the function has no code.
    pub fn views_stay(&self, k: u32)
        requires first { 1 ≤ k }
        requires last { k ≤ length self.now.wal.commits }
        ensures { (number : ℕ) → is_among (frame_pages self.now k) number ≡ false
            → number ≤ size_at self.now (moment_before k) → number ≤ size_at self.now (Commit k)
            → origin_of self.now (Commit k) number ≡ origin_of self.now (moment_before k) number }
    {
        let _sources = &self.sources;
    }

    // The pages that the frames of a commit hold, in file order.
    fn frame_pages(&self, alloc: Global, k: u32) -> Result<Vec<u32>, AllocError>
        requires first { 1 ≤ k }
        requires last { k ≤ length self.now.wal.commits }
        ensures { IfOk result (λ pages. pages.items ≡ frame_pages self.now k) }
    {
        let from = self.sources.limit_before(k);
        let end = self.sources.limit(Moment::Commit(k));
        slot_numbers(alloc, &self.sources, from, end)
    }
}

// The pages that the slots from one on and below another hold, in file order.
fn slot_numbers(
    alloc: Global,
    sources: &Sources<'_>,
    from: u32,
    end: u32,
) -> Result<Vec<u32>, AllocError>
    requires order { from ≤ end }
    requires there { end ≤ length sources.now.wal.slots }
    ensures { IfOk result (λ pages. pages.items ≡ map (λ i. (slot_at sources.now i).page) (range_with_len from (end - from))) }
{
    let mut pages = Vec::with_capacity(alloc, (end - from) as usize)?;
    for i in from..end {
        pages.push(sources.slot(i).page)?;
    }
    Ok(pages)
}
