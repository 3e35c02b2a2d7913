//! How many bytes of a payload are still to come at each overflow page, numbered anew where references changed.
ghost use Rattle.std.specs.Prelude.{◌≡◌, ◌≢◌, ℕ, ◌≤◌, Some, true, IsTrue, IfOk, IfSome};
ghost use Rattle.std.specs.List.{All};
ghost use Rattle.sx_closure.specs.Graph.{Rises};
ghost use Rattle.sx_closure.specs.Chains.{is_overflow};
ghost use Rattle.sx_base.specs.declared.role.Role.TheVariants.{Overflow as OverflowRole};
ghost use Rattle.sx_closure.specs.declared.pair.Source.TheVariants.{Page as PageSource};
ghost use Rattle.sx_refs.specs.Targets.{linked};
ghost use Rattle.sx_walk.specs.Renumbering.{is_touched, SayButNumber, Grows, Renumbers, IsRuled, GoesOn, HoldsAt, IsRenumbered};

use std::alloc::AllocError;
use sx_base::{Pages, Role};
use sx_bytes::be32;
use sx_closure::{Pair, RefTable, Source, Target, rank_of};

/// Whether a reference is of the role of overflow pages.
fn is_overflow(one: Option<Target>) -> bool
    ensures { result ≡ is_overflow one }
{
    match one {
        Some(target) => target.pair.role == Role::Overflow,
        None => false,
    }
}

/// Whether both are the same number, or there is none at either.
fn same_left(left: Option<u32>, other: Option<u32>) -> bool
    ensures { IsTrue result → left ≡ other }
{
    match (left, other) {
        (Some(left), Some(other)) => left == other,
        (None, None) => true,
        _ => false,
    }
}

/// Numbers overflow page `no` by its one reference and by the page before it: whether it had another number. Nothing else
/// changes.
fn number(table: &mut RefTable, no: u32, body: u32) -> bool
    ensures { SayButNumber no table.old table.new }
{
    if !is_overflow(table.one(no)) {
        return false;
    }
    let left = table.ruled(no, body);
    if same_left(table.left(no), left) {
        return false;
    }
    table.put_left(no, left)
}

/// The overflow page that a page names by its view, where it is the page's one reference.
fn next_of<'a, P: Pages<'a>>(table: &RefTable, pages: &P, no: u32) -> Option<u32>
    requires { 480 ≤ P.page_size pages.now }
{
    // That the pages have a size says how long their views are.
    let _size = pages.size();
    let next = be32(pages.page(no)?, 0);
    match table.one(next) {
        Some(target) if target.pair.role == Role::Overflow && target.source == Source::Page(no) => {
            Some(next)
        }
        _ => None,
    }
}

/// Puts the rank of a page behind a list: whether it has one.
fn put_rank(numbers: &[u32], no: u32, touched: &mut Vec<u32>) -> Result<bool, AllocError>
    requires { Rises numbers.now }
    ensures grows { IfOk result (λ _. Grows touched.old.items touched.new.items) }
    ensures listed { IfOk result (λ put. IsTrue put → is_touched numbers.now touched.new.items no ≡ true) }
{
    let Some(rank) = rank_of(numbers, no) else {
        return Ok(false);
    };
    let Ok(rank) = u32::try_from(rank) else {
        return Ok(false);
    };
    touched.push(rank)?;
    Ok(true)
}

/// Numbers a page that is listed, and goes on along its chain as long as a page had another number, and as there are steps
/// left. Lists each page that it goes on to.
fn number_on<'a, P: Pages<'a>>(
    table: &mut RefTable,
    pages: &P,
    numbers: &[u32],
    no: u32,
    body: u32,
    touched: &mut Vec<u32>,
    steps: &mut u64,
) -> Result<(), AllocError>
    requires size { 480 ≤ P.page_size pages.now }
    requires rises { Rises numbers.now }
    requires listed { is_touched numbers.now touched.old.items no ≡ true }
    ensures grows { IfOk result (λ _. Grows touched.old.items touched.new.items) }
    ensures renumbers { IfOk result (λ _. Renumbers numbers.now touched.new.items table.old table.new) }
{
    let mut at = no;
    for _ in 0..*steps {
        *steps = steps.saturating_sub(1);
        if !number(table, at, body) {
            return Ok(());
        }
        let Some(next) = next_of(table, pages, at) else {
            return Ok(());
        };
        if !put_rank(numbers, next, touched)? {
            return Ok(());
        }
        at = next;
    }
    Ok(())
}

/// Whether a page's one reference comes from a cell, so that a chain begins there.
fn is_first(table: &RefTable, no: u32) -> bool {
    match table.source(no) {
        Some(Source::Cell { .. }) => true,
        _ => false,
    }
}

/// Numbers a page that is listed and what follows it, where a chain begins there or other pages are numbered too.
fn number_if<'a, P: Pages<'a>>(
    table: &mut RefTable,
    pages: &P,
    numbers: &[u32],
    no: u32,
    body: u32,
    touched: &mut Vec<u32>,
    firsts_alone: bool,
    steps: &mut u64,
) -> Result<(), AllocError>
    requires size { 480 ≤ P.page_size pages.now }
    requires rises { Rises numbers.now }
    requires listed { is_touched numbers.now touched.old.items no ≡ true }
    ensures grows { IfOk result (λ _. Grows touched.old.items touched.new.items) }
    ensures renumbers { IfOk result (λ _. Renumbers numbers.now touched.new.items table.old table.new) }
{
    if firsts_alone && !is_first(table, no) {
        return Ok(());
    }
    number_on(table, pages, numbers, no, body, touched, steps)?;
    Ok(())
}

/// Numbers the pages of the listed ranks, each with what follows it; those alone at which chains begin, where that is asked
/// for.
fn number_listed<'a, P: Pages<'a>>(
    table: &mut RefTable,
    pages: &P,
    numbers: &[u32],
    body: u32,
    touched: &mut Vec<u32>,
    firsts_alone: bool,
    steps: &mut u64,
) -> Result<(), AllocError>
    requires size { 480 ≤ P.page_size pages.now }
    requires rises { Rises numbers.now }
    ensures grows { IfOk result (λ _. Grows touched.old.items touched.new.items) }
    ensures renumbers { IfOk result (λ _. Renumbers numbers.now touched.new.items table.old table.new) }
{
    for place in 0..touched.len() {
        let no = match page_of_rank(numbers, touched, place) {
            Some(no) => no,
            None => return Ok(()),
        };
        number_if(
            table,
            pages,
            numbers,
            no,
            body,
            touched,
            firsts_alone,
            steps,
        )?;
    }
    Ok(())
}

/// The page of the rank at a place of a list; `None` where there is none.
fn page_of_rank(numbers: &[u32], touched: &[u32], place: usize) -> Option<u32>
    requires { Rises numbers.now }
    ensures { IfSome result (λ no. is_touched numbers.now touched.now no ≡ true) }
{
    let rank = *touched.get(place)?;
    let no = *numbers.get(rank as usize)?;
    Some(no)
}

/// Whether an overflow page has the number that its one reference gives it.
fn is_ruled(table: &RefTable, no: u32, body: u32) -> bool
    ensures { IsTrue result → IsRuled table.now body no }
{
    !is_overflow(table.one(no)) || same_left(table.left(no), table.ruled(no, body))
}

/// Whether some bytes are still to come, or none are known.
fn is_some_left(left: Option<u32>) -> bool
    ensures { IsTrue result → left ≢ Some 0 }
{
    match left {
        Some(left) => left > 0,
        None => true,
    }
}

/// Whether some bytes are still to come at the page that an overflow page's one reference comes from, or none are known there.
fn goes_on(table: &RefTable, no: u32) -> bool
    ensures { IsTrue result → GoesOn table.now no }
{
    match table.source(no) {
        Some(Source::Page(before)) => is_some_left(table.left(before)),
        _ => true,
    }
}

/// Whether the page that a link names has the number that its one reference gives it, if it is an overflow page; 0 names none.
fn is_link_ruled(table: &RefTable, no: u32, link: u32, body: u32) -> bool
    ensures { IsTrue result → All (λ target. IsRuled table.now body target.pair.page) (linked link OverflowRole (PageSource no)) }
{
    link == 0 || is_ruled(table, link, body)
}

/// Whether the numbers of a page and of that which its view names as an overflow page fit.
#[tactic(auto, unfolding(sx_refs::specs::Targets::targets_of))]
fn holds_at<'a, P: Pages<'a>>(table: &RefTable, pages: &P, usable: u32, no: u32) -> bool
    requires least { 480 ≤ usable }
    requires within { usable ≤ P.page_size pages.now }
    ensures { IsTrue result → HoldsAt (P.view pages.now) usable table.now no }
{
    let body = usable - 4;
    if !is_ruled(table, no, body) || !goes_on(table, no) {
        return false;
    }
    // That the pages have a size says how long their views are.
    let _size = pages.size();
    match pages.page(no) {
        Some(bytes) => is_link_ruled(table, no, be32(bytes, 0), body),
        None => true,
    }
}

/// Whether the numbers of all pages of these ranks fit. What is no rank is passed over.
fn all_hold<'a, P: Pages<'a>>(
    table: &RefTable,
    pages: &P,
    numbers: &[u32],
    touched: &[u32],
    usable: u32,
) -> bool
    requires rises { Rises numbers.now }
    requires least { 480 ≤ usable }
    requires within { usable ≤ P.page_size pages.now }
    ensures { IsTrue result → (page : ℕ) → is_touched numbers.now touched.now page ≡ true → HoldsAt (P.view pages.now) usable table.now page }
{
    for rank in touched {
        if let Some(no) = numbers.get(*rank as usize) {
            if !holds_at(table, pages, usable, *no) {
                return false;
            }
        }
    }
    true
}

/// Numbers the pages of the listed ranks anew, and what follows them as long as it had another number, and lists that too; and
/// looks whether the numbers fit: that of each listed page by the one before it, and those of the pages behind them. Else the
/// table is of no use.
///
/// They fit but where a chain goes on past its payload, or where too many pages are come by too often. The cost is a few
/// look-ups for each rank that is listed then. It answers `AllocError` where memory runs out.
pub(crate) fn renumber<'a, P: Pages<'a>>(
    table: &mut RefTable,
    pages: &P,
    numbers: &[u32],
    touched: &mut Vec<u32>,
    usable: u32,
) -> Result<bool, AllocError>
    requires rises { Rises numbers.now }
    requires least { 480 ≤ usable }
    requires within { usable ≤ P.page_size pages.now }
    ensures grows { IfOk result (λ _. Grows touched.old.items touched.new.items) }
    ensures fit { IfOk result (λ fit. IsTrue fit → IsRenumbered (P.view pages.now) usable numbers.now touched.new.items table.old table.new) }
{
    let body = usable - 4;
    let mut steps = numbers.len() as u64;
    number_listed(table, pages, numbers, body, touched, true, &mut steps)?;
    number_listed(table, pages, numbers, body, touched, false, &mut steps)?;
    Ok(all_hold(table, pages, numbers, touched, usable))
}
