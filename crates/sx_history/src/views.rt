//! The views of the pages of a moment, by rank.
ghost use Rattle.std.specs.Prelude.{◌≡◌, ◌<◌, length, map, option_copied, All, IfOk};
ghost use Rattle.sx_history.specs.Standing.{StandBut};

use std::alloc::{AllocError, Global};
use sx_base::Pages;

/// The view of each of these pages.
pub(crate) fn views_of<'a, P: Pages<'a>>(
    alloc: Global,
    pages: &P,
    numbers: &[u32],
) -> Result<Vec<Option<&'a [u8]>>, AllocError>
    ensures { IfOk result (λ views. map option_copied views.items ≡ map (P.view pages.now) numbers.now) }
{
    let mut views = Vec::with_capacity(alloc, numbers.len())?;
    for number in numbers {
        views.push(pages.page(*number))?;
    }
    Ok(views)
}

/// Takes the view of each page whose rank is listed anew.
pub(crate) fn look_again<'a, P: Pages<'a>>(
    pages: &P,
    numbers: &[u32],
    changed: &[u32],
    views: &mut Vec<Option<&'a [u8]>>,
)
    requires views { length views.old.items ≡ length numbers.now }
    requires ranks { All (λ rank. rank < length numbers.now) changed.now }
    requires stand { StandBut changed.now numbers.now (map option_copied views.old.items) (P.view pages.now) }
    ensures looked { map option_copied views.new.items ≡ map (P.view pages.now) numbers.now }
    ensures views { length views.new.items ≡ length numbers.now }
{
    for rank in changed {
        let rank = *rank as usize;
        views[rank] = pages.page(numbers[rank]);
    }
}
