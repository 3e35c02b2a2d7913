//! Whether a page that changed names what it named.
ghost use Rattle.std.specs.Prelude.{◌≡◌, ℕ, ◌<◌, ◌≤◌, Option, None, IsTrue, map, length, slice_index_or, option_copied, IfOk};
ghost use Rattle.std.specs.List.{All};
ghost use Rattle.sx_base.specs.declared.role.Role.{Role as AnyRole};
ghost use Rattle.sx_walk.specs.Turning.{HasUsable};
ghost use Rattle.sx_walk.specs.Steady.{MayBe, NamesSame, IsSteady, AreSteady};

use crate::exchange::names_of;
use std::alloc::{AllocError, Global};
use sx_base::{Pages, Role};
use sx_closure::{Pair, RefTable};

/// Whether each page whose rank is listed is held as at the moment before, and names what it named in each
/// role in which the table lets it be reached.
///
/// The cost is that of reading both views of each page. It answers `AllocError` where memory runs out.
pub(crate) fn all_steady<'a, P: Pages<'a>>(
    alloc: Global,
    pages: &P,
    table: &RefTable,
    usable: u32,
    numbers: &[u32],
    views: &[Option<&'a [u8]>],
    changed: &[u32],
) -> Result<bool, AllocError>
    requires long { length views.now ≡ length numbers.now }
    requires ranks { All (λ rank. rank < length numbers.now) changed.now }
    requires least { 480 ≤ usable }
    requires within { usable ≤ P.page_size pages.now }
    requires small { P.page_size pages.now ≤ 65536 }
    requires before { (rank : ℕ) → HasUsable usable (slice_index_or (map option_copied views.now) rank None) }
    ensures { IfOk result (λ steady. IsTrue steady → AreSteady table.now usable numbers.now (map option_copied views.now) (P.view pages.now) changed.now) }
{
    for rank in changed {
        let rank = *rank as usize;
        let number = numbers[rank];
        if !is_steady(
            alloc,
            table,
            usable,
            number,
            views[rank],
            pages.page(number),
        )? {
            return Ok(false);
        }
    }
    Ok(true)
}

/// Whether page `no` is held as before, and names what it named in each role in which the table of the moment before lets
/// it be reached.
///
/// The cost is that of reading both views. It answers `AllocError` where memory runs out.
fn is_steady(
    alloc: Global,
    table: &RefTable,
    usable: u32,
    no: u32,
    before: Option<&[u8]>,
    after: Option<&[u8]>,
) -> Result<bool, AllocError>
    requires least { 480 ≤ usable }
    requires before { HasUsable usable (option_copied before) }
    requires after { HasUsable usable (option_copied after) }
    ensures { IfOk result (λ steady. IsTrue steady → IsSteady table.now usable no (option_copied before.entry) (option_copied after.entry)) }
{
    match (before, after) {
        (None, None) => Ok(true),
        (Some(before), Some(after)) => names_same(alloc, table, usable, no, before, after),
        _ => Ok(false),
    }
}

/// Whether a page names the same by two views, in each role in which the table lets it be reached.
fn names_same(
    alloc: Global,
    table: &RefTable,
    usable: u32,
    no: u32,
    before: &[u8],
    after: &[u8],
) -> Result<bool, AllocError>
    requires least { 480 ≤ usable }
    requires before { (usable ≤ length before.now) × (length before.now ≤ 65536) }
    requires after { (usable ≤ length after.now) × (length after.now ≤ 65536) }
    ensures { IfOk result (λ same. IsTrue same → (role : AnyRole) → NamesSame table.now usable no before.now after.now role) }
{
    if !role_same(alloc, table, usable, no, Role::Node, before, after)? {
        return Ok(false);
    }
    if !role_same(alloc, table, usable, no, Role::Overflow, before, after)? {
        return Ok(false);
    }
    if !role_same(alloc, table, usable, no, Role::Trunk, before, after)? {
        return Ok(false);
    }
    Ok(true)
}

/// Whether a page names the same by two views in a role, where the table lets it be reached in that.
fn role_same(
    alloc: Global,
    table: &RefTable,
    usable: u32,
    no: u32,
    role: Role,
    before: &[u8],
    after: &[u8],
) -> Result<bool, AllocError>
    requires least { 480 ≤ usable }
    requires before { (usable ≤ length before.now) × (length before.now ≤ 65536) }
    requires after { (usable ≤ length after.now) × (length after.now ≤ 65536) }
    ensures { IfOk result (λ same. IsTrue same → NamesSame table.now usable no before.now after.now role) }
{
    if !may_be(table, no, role) {
        return Ok(true);
    }
    let pair = Pair { page: no, role };
    let named = names_of(alloc, usable, pair, before)?;
    let names = names_of(alloc, usable, pair, after)?;
    Ok(names.same(&named))
}

/// Whether page `no` may be reached in a role, as far as the table tells.
fn may_be(table: &RefTable, no: u32, role: Role) -> bool
    ensures { MayBe table.now no role → IsTrue result }
{
    if table.count(no) == 0 {
        return false;
    }
    match table.role_of(no) {
        Some(one) => one == role,
        None => true,
    }
}
