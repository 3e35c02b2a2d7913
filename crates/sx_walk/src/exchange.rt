//! What comes and what goes where pages change.
ghost use Rattle.std.specs.Prelude.{◌≡◌, ◌≤◌, ◌<◌, ◌-◌, IsTrue, length, take, drop, option_copied, IfOk};
ghost use Rattle.sx_base.specs.Held.{held_pages};
ghost use Rattle.sx_follow.specs.Climbing.{is_marked_in};
ghost use Rattle.sx_refs.specs.Pages.{all_roots, if_held};
ghost use Rattle.sx_refs.specs.Targets.{targets_of};
ghost use Rattle.sx_walk.specs.Turning.{HasUsable};
ghost use Rattle.sx_walk.specs.Turning.{Exchanges, ExchangesIf, ExchangesPage};

use std::alloc::{AllocError, Global};
use sx_base::{Layout, Pages, Role};
use sx_closure::{Kept, Pair, Target, give_all};
use sx_follow::Sums;
use sx_refs::{give_roots, give_targets};

/// How many targets two lists have alike at the front.
fn alike(some: &[Target], others: &[Target]) -> usize
    ensures within { (result ≤ length some.now) × (result ≤ length others.now) }
    ensures alike { take result some.now ≡ take result others.now }
{
    let most = some.len().min(others.len());
    for place in 0..most {
        if !same(&some[place], &others[place]) {
            return place;
        }
    }
    most
}

/// Whether two targets are the same.
fn same(one: &Target, other: &Target) -> bool
    ensures { IsTrue result → one.now ≡ other.now }
{
    one == other
}

/// How many targets two lists have alike at the end.
fn alike_at_end(some: &[Target], others: &[Target]) -> usize
    ensures within { (result ≤ length some.now) × (result ≤ length others.now) }
    ensures alike { drop (length some.now - result) some.now ≡ drop (length others.now - result) others.now }
{
    let most = some.len().min(others.len());
    for back in 0..most {
        if !same(
            &some[some.len() - back - 1],
            &others[others.len() - back - 1],
        ) {
            return back;
        }
    }
    most
}

/// Puts behind what comes the new targets, and behind what goes the old ones, but for those that both have alike at the
/// front and at the end.
pub(crate) fn exchange(
    old: &Kept,
    new: &Kept,
    come: &mut Kept,
    gone: &mut Kept,
) -> Result<(), AllocError>
    ensures { IfOk result (λ _. Exchanges old.now new.now come.old come.new gone.old gone.new) }
{
    exchange_lists(old.as_slice(), new.as_slice(), come, gone)
}

/// The same, of the lists themselves.
fn exchange_lists(
    old: &[Target],
    new: &[Target],
    come: &mut Kept,
    gone: &mut Kept,
) -> Result<(), AllocError>
    ensures { IfOk result (λ _. Exchanges old.now new.now come.old come.new gone.old gone.new) }
{
    let front = alike(old, new);
    let (old_rest, new_rest) = (&old[front..], &new[front..]);
    let back = alike_at_end(old_rest, new_rest);
    give_all(&new_rest[..new_rest.len() - back], come)?;
    give_all(&old_rest[..old_rest.len() - back], gone)?;
    Ok(())
}

/// What a pair names.
pub(crate) fn names_of(
    alloc: Global,
    usable: u32,
    pair: Pair,
    bytes: &[u8],
) -> Result<Kept, AllocError>
    requires least { 480 ≤ usable }
    requires bytes { (usable ≤ length bytes.now) × (length bytes.now ≤ 65536) }
    ensures { IfOk result (λ names. names ≡ targets_of bytes.now pair usable) }
{
    let mut names = Kept::new(alloc);
    give_targets(bytes, pair, usable, &mut names)?;
    Ok(names)
}

/// What a pair names by a view: nothing where there is none.
fn names_by(alloc: Global, usable: u32, pair: Pair, view: Option<&[u8]>) -> Result<Kept, AllocError>
    requires least { 480 ≤ usable }
    requires view { HasUsable usable (option_copied view) }
    ensures { IfOk result (λ names. names ≡ if_held (option_copied view.entry) pair usable) }
{
    match view {
        Some(bytes) => names_of(alloc, usable, pair, bytes),
        None => Ok(Kept::new(alloc)),
    }
}

/// Exchanges what a pair names by two views, where the sums have it reached.
fn exchange_pair(
    alloc: Global,
    sums: &Sums,
    usable: u32,
    pair: Pair,
    before: Option<&[u8]>,
    after: Option<&[u8]>,
    come: &mut Kept,
    gone: &mut Kept,
) -> Result<(), AllocError>
    requires least { 480 ≤ usable }
    requires before { HasUsable usable (option_copied before) }
    requires after { HasUsable usable (option_copied after) }
    ensures { IfOk result (λ _. ExchangesIf (is_marked_in sums.now pair) (if_held (option_copied before.entry) pair usable) (if_held (option_copied after.entry) pair usable) come.old come.new gone.old gone.new) }
{
    if !sums.is_marked(pair) {
        return Ok(());
    }
    let old = names_by(alloc, usable, pair, before)?;
    let new = names_by(alloc, usable, pair, after)?;
    exchange(&old, &new, come, gone)
}

/// Exchanges what page `no` names by two views, in each role in which the sums have it reached; without a view it names
/// nothing.
///
/// The cost is that of reading both views in the roles in which the page is reached. It answers `AllocError` where memory
/// runs out.
pub(crate) fn exchange_page(
    alloc: Global,
    sums: &Sums,
    usable: u32,
    no: u32,
    before: Option<&[u8]>,
    after: Option<&[u8]>,
    come: &mut Kept,
    gone: &mut Kept,
) -> Result<(), AllocError>
    requires least { 480 ≤ usable }
    requires before { HasUsable usable (option_copied before) }
    requires after { HasUsable usable (option_copied after) }
    ensures { IfOk result (λ _. ExchangesPage sums.now usable no (option_copied before.entry) (option_copied after.entry) come.old come.new gone.old gone.new) }
{
    let node = Pair {
        page: no,
        role: Role::Node,
    };
    exchange_pair(alloc, sums, usable, node, before, after, come, gone)?;
    let overflow = Pair {
        page: no,
        role: Role::Overflow,
    };
    exchange_pair(alloc, sums, usable, overflow, before, after, come, gone)?;
    let trunk = Pair {
        page: no,
        role: Role::Trunk,
    };
    exchange_pair(alloc, sums, usable, trunk, before, after, come, gone)
}

/// The root targets.
pub(crate) fn roots_of<'a, P: Pages<'a>>(
    alloc: Global,
    pages: &P,
    layout: &Layout,
    roots: &[i64],
) -> Result<Kept, AllocError>
    requires page_size { 0 < layout.now.page_size }
    ensures { IfOk result (λ kept. kept ≡ all_roots (held_pages (P.pages pages.now) (P.view pages.now)) layout.now roots.now) }
{
    let mut kept = Kept::new(alloc);
    give_roots(pages, layout, roots, &mut kept)?;
    Ok(kept)
}
