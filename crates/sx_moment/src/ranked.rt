//! The pages that some moment of a case may hold.
ghost use Rattle.std.specs.Prelude.{◌≡◌, ℕ, ◌==◌, ◌||◌, ◌&&◌, not, is_some, IfOk, OnOk};
ghost use Rattle.sx_moment.specs.Gathered.{page_count};
ghost use Rattle.sx_moment.specs.Views.{lock_in};
ghost use Rattle.sx_moment.specs.Images.{is_in_file};
ghost use Rattle.sx_moment.specs.Firsts.{first_in};
ghost use Rattle.sx_moment.specs.Ranks.{AreRanked};
ghost use Rattle.sx_moment.specs.Turns.{is_among};

use crate::case::Case;
use crate::first_images::FirstImages;
use crate::ranks::Ranks;
use crate::sources::Sources;
use std::alloc::{AllocError, Global};
use sx_base::Moment;

/// The whole pages of the file, and the pages past its end that slots or Good records hold, in rising order.
///
/// The cost is that of sorting a list that mostly rises. It answers `AllocError` where memory runs out, and nothing else.
pub fn ranked(alloc: Global, case: &Case<'_>) -> Result<Ranks, AllocError>
    ensures { IfOk result (λ ranks. AreRanked case.now ranks) }
{
    let mut numbers = file_numbers(alloc, case.sources())?;
    push_pages(&mut numbers, case.past(Moment::File))?;
    push_pages(&mut numbers, case.past(Moment::Journal))?;
    numbers.sort_unstable();
    numbers.dedup();
    Ok(Ranks::new(numbers))
}

// The whole pages of the file but the lock-byte page.
fn file_numbers(alloc: Global, sources: &Sources<'_>) -> Result<Vec<u32>, AllocError>
    ensures { IfOk result (λ numbers. (number : ℕ) → is_among numbers.items number ≡ is_in_file (lock_in sources.now) (page_count sources.now) number) }
{
    let count = sources.page_count();
    let lock = sources.lock_page();
    let mut numbers = Vec::with_capacity(alloc, count as usize)?;
    for place in 0..count {
        push_other(&mut numbers, place + 1, lock)?;
    }
    Ok(numbers)
}

// Puts a page behind the others, where it isn't the lock-byte page.
fn push_other(numbers: &mut Vec<u32>, page: u32, lock: u32) -> Result<(), AllocError>
    ensures { OnOk result ((number : ℕ) → is_among numbers.new.items number ≡ (is_among numbers.old.items number || (page == number && not (number == lock)))) }
{
    if page != lock {
        numbers.push(page)?;
    }
    Ok(())
}

// Puts the pages of a list behind the others.
fn push_pages(numbers: &mut Vec<u32>, images: &FirstImages) -> Result<(), AllocError>
    ensures { OnOk result ((number : ℕ) → is_among numbers.new.items number ≡ (is_among numbers.old.items number || is_some (first_in images.now number))) }
{
    for i in 0..images.len() {
        numbers.push(images.at(i).page)?;
    }
    Ok(())
}
