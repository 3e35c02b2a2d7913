//! Whether pages that changed leave a tree as it is.
ghost use Rattle.std.specs.Prelude.{◌≡◌, ◌<◌, IsTrue, map, length, option_copied, All};
ghost use Rattle.sx_history.specs.Schemas.{AreStill, IsStillPage};

use sx_base::Pages;

/// Whether each page whose rank is listed is held as at the moment before, and is marked neither as a b-tree page nor as an
/// overflow page. The cost is a look at each of them.
pub(crate) fn all_still<'a, P: Pages<'a>>(
    pages: &P,
    numbers: &[u32],
    views: &[Option<&'a [u8]>],
    nodes: &[bool],
    chains: &[bool],
    changed: &[u32],
) -> bool
    requires views { length views.now ≡ length numbers.now }
    requires nodes { length nodes.now ≡ length numbers.now }
    requires chains { length chains.now ≡ length numbers.now }
    requires ranks { All (λ rank. rank < length numbers.now) changed.now }
    ensures { IsTrue result → AreStill numbers.now (map option_copied views.now) (P.view pages.now) nodes.now chains.now changed.now }
{
    for rank in changed {
        let rank = *rank as usize;
        let now = pages.page(numbers[rank]);
        if !is_still(views[rank], now, nodes[rank], chains[rank]) {
            return false;
        }
    }
    true
}

/// Whether a page is held as before and has no mark, or is held by neither view.
fn is_still(before: Option<&[u8]>, now: Option<&[u8]>, node: bool, chain: bool) -> bool
    ensures { IsTrue result → IsStillPage (option_copied before.entry) (option_copied now.entry) node chain }
{
    match (before, now) {
        (None, None) => true,
        (Some(_), Some(_)) => !node && !chain,
        _ => false,
    }
}
