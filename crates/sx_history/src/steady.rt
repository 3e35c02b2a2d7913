//! Whether pages that changed leave what a tree says of a rowid as it is.
ghost use Rattle.std.specs.Prelude.{◌≡◌, ℕ, ◌<◌, ◌≤◌, IsTrue, map, length, option_copied, All, IfOk, Some};
ghost use Rattle.sx_history.specs.Marks.{AreWhole, IsWhole};
ghost use Rattle.sx_history.specs.Standing.{AreSteady, IsSteadyPage};

use crate::leaf::says_same;
use std::alloc::{AllocError, Global};
use sx_base::Pages;

/// Whether each page whose rank is listed is held as at the moment before, and has the same view where it is marked as an
/// overflow page, and also where it is marked as a b-tree page, unless it is a leaf by both views and says the same of the rowid.
///
/// The cost is that of reading both views of each leaf. It answers `AllocError` where memory runs out.
pub(crate) fn all_steady<'a, P: Pages<'a>>(
    alloc: Global,
    pages: &P,
    usable: u32,
    rowid: i64,
    numbers: &[u32],
    views: &[Option<&'a [u8]>],
    nodes: &[bool],
    chains: &[bool],
    changed: &[u32],
) -> Result<bool, AllocError>
    requires views { length views.now ≡ length numbers.now }
    requires nodes { length nodes.now ≡ length numbers.now }
    requires chains { length chains.now ≡ length numbers.now }
    requires ranks { All (λ rank. rank < length numbers.now) changed.now }
    requires least { 480 ≤ usable }
    requires within { usable ≤ P.page_size pages.now }
    requires small { P.page_size pages.now ≤ 65536 }
    requires whole { AreWhole usable (map option_copied views.now) }
    ensures { IfOk result (λ steady. IsTrue steady → AreSteady usable rowid numbers.now (map option_copied views.now) (P.view pages.now) nodes.now chains.now changed.now) }
{
    for rank in changed {
        let rank = *rank as usize;
        let number = numbers[rank];
        if !is_steady(
            alloc,
            usable,
            number,
            rowid,
            views[rank],
            pages.page(number),
            nodes[rank],
            chains[rank],
        )? {
            return Ok(false);
        }
    }
    Ok(true)
}

/// Whether page `no` is held as before, and has the same view where it may be an overflow page of the tree, and also where it
/// may be a b-tree page of it, unless it is a leaf that says the same of the rowid.
fn is_steady(
    alloc: Global,
    usable: u32,
    no: u32,
    rowid: i64,
    before: Option<&[u8]>,
    now: Option<&[u8]>,
    node: bool,
    chain: bool,
) -> Result<bool, AllocError>
    requires least { 480 ≤ usable }
    requires before { IsWhole usable (option_copied before) }
    requires now { IsWhole usable (option_copied now) }
    ensures { IfOk result (λ steady. IsTrue steady → IsSteadyPage usable no rowid (option_copied before.entry) (option_copied now.entry) node chain) }
{
    match (before, now) {
        (None, None) => Ok(true),
        (Some(before), Some(now)) => view_steady(
            alloc, usable, no, rowid, before, now, node, chain,
        ),
        _ => Ok(false),
    }
}

/// The same of a page that is held by both views, which differ.
fn view_steady(
    alloc: Global,
    usable: u32,
    no: u32,
    rowid: i64,
    before: &[u8],
    now: &[u8],
    node: bool,
    chain: bool,
) -> Result<bool, AllocError>
    requires least { 480 ≤ usable }
    requires before { (usable ≤ length before.now) × (length before.now ≤ 65536) }
    requires now { (usable ≤ length now.now) × (length now.now ≤ 65536) }
    ensures { IfOk result (λ steady. IsTrue steady → IsSteadyPage usable no rowid (Some before.now) (Some now.now) node chain) }
{
    if chain {
        return Ok(false);
    }
    if !node {
        return Ok(true);
    }
    says_same(alloc, usable, no, rowid, before, now)
}
