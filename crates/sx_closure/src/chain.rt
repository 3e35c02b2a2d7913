//! How the pages of an overflow chain are numbered.
ghost use Rattle.std.specs.Prelude.{◌≡◌, None, replicate, option_map, IfOk};
ghost use Rattle.sx_closure.specs.Chains.{page_before, number_of};

use crate::pair::{Source, Target};
use std::alloc::{AllocError, Global};

/// No number yet for each of so many pages.
pub(crate) fn no_numbers(alloc: Global, count: usize) -> Result<Vec<Option<u32>>, AllocError>
    ensures { IfOk result (λ lefts. lefts.items ≡ replicate count None) }
{
    vec![in alloc; None; count]
}

/// The page that a reference comes from, where it comes from no cell.
pub(crate) fn page_before(one: Option<Target>) -> Option<u32>
    ensures { result ≡ page_before one }
{
    match one?.source {
        Source::Page(page) => Some(page),
        Source::Root | Source::Cell { .. } => None,
    }
}

/// How many bytes of a payload are still to come at a page with that one reference, where so many are at the page before
/// it and each page holds `body` of them.
pub(crate) fn number_of(body: u32, one: Option<Target>, before: Option<u32>) -> Option<u32>
    ensures { result ≡ number_of body one before }
{
    let target = one?;
    match target.source {
        Source::Root => None,
        Source::Cell { .. } => Some(target.rest),
        Source::Page(_) => before.map(|left| left.saturating_sub(body)),
    }
}
