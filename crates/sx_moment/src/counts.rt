//! How many pages each commit sees, counted for all commits by one sweep over the slots.
ghost use Rattle.std.specs.Prelude.{◌≡◌, ℕ, ◌+◌, ◌^◌, ◌<◌, ◌≤◌, length, slice_get, sum, Some, IfOk};
ghost use Rattle.sx_moment.specs.Gathered.{slot_at};
ghost use Rattle.sx_moment.specs.Counts.{seen_below, AreFirst, AreCounts};
ghost use Rattle.sx_moment.specs.declared.first_image.FirstImage.{FirstImage as Image};

use crate::first_image::FirstImage;
use crate::first_images::FirstImages;
use crate::sources::Sources;
use std::alloc::{AllocError, Global};
use sx_base::Moment;
use sx_tally::Tally;

/// For each commit, how many of the pages lie within its size and have their first slot up to the commit's.
///
/// The slots are gone through once: a page is flagged at its first slot, and at each commit the flags of the pages within
/// its size are summed. Each slot and each commit costs a logarithm of the number of pages.
pub fn counts_at_commits(
    alloc: Global,
    sources: &Sources<'_>,
    images: &FirstImages,
) -> Result<Vec<u32>, AllocError>
    requires { AreFirst sources.now images.now }
    ensures { IfOk result (λ counts. AreCounts sources.now images.now counts.items) }
{
    let mut seen = Tally::zeros(alloc, images.len())?;
    let mut counts = Vec::with_capacity(alloc, sources.commits() as usize)?;
    for k in 0..sources.commits() {
        let commit = Moment::Commit(k + 1);
        let from = sources.limit_before(k + 1);
        see_slots(&mut seen, images, sources, from, sources.limit(commit));
        let within = images.within(sources.size(commit));
        counts.push(seen.front(within as usize))?;
    }
    Ok(counts)
}

// Flags the pages whose first slots stand from one on and below another.
fn see_slots(seen: &mut Tally, images: &FirstImages, sources: &Sources<'_>, from: u32, end: u32)
    requires first { AreFirst sources.now images.now }
    requires seen { seen.old ≡ seen_below from images.now }
    requires few { sum seen.old ≤ from }
    requires order { from ≤ end }
    requires there { end ≤ length sources.now.wal.slots }
    requires small { end < 2 ^ 31 }
    ensures seen { seen.new ≡ seen_below end images.now }
    ensures few { sum seen.new ≤ end }
{
    for i in from..end {
        let page = sources.slot(i).page;
        see_slot(seen, images, FirstImage { page, first: i });
    }
}

// Flags a page at one of its slots, where that is its first.
fn see_slot(seen: &mut Tally, images: &FirstImages, image: FirstImage)
    requires only { (place : ℕ) → (other : Image) → slice_get images.now place ≡ Some other → other.first ≡ image.first → other ≡ image }
    requires seen { seen.old ≡ seen_below image.first images.now }
    requires few { sum seen.old ≤ image.first }
    requires small { image.first < 2 ^ 31 }
    ensures seen { seen.new ≡ seen_below (image.first + 1) images.now }
    ensures few { sum seen.new ≤ image.first + 1 }
{
    match images.place(image) {
        Some(place) => seen.raise(place),
        None => {}
    }
}
