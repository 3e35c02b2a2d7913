//! The entries of a table written anew from sums.
ghost use Rattle.std.specs.Prelude.{◌⊎◌, ◌<◌, [], IfSome, ◌≡◌, true, IsTrue, IfOk, is_some, length};
ghost use Rattle.std.specs.List.{All};
ghost use Rattle.sx_closure.specs.Graph.{Rises};
ghost use Rattle.sx_closure.specs.Tallying.{rank_of, count_at, one_at};
ghost use Rattle.sx_follow.specs.Keeping.{has_page};
ghost use Rattle.sx_walk.specs.Renewing.{said_count, said_one, has_rank, noted, Renews};

use crate::missing::is_shown;
use std::alloc::{AllocError, Global};
use sx_base::Pages;
use sx_closure::{Pair, RefTable, Target, rank_of};
use sx_follow::{Followed, Sums};

/// Whether the one reference is the same, or there is none at either.
fn same_one(one: Option<Target>, other: Option<Target>) -> bool
    ensures { IsTrue result → one ≡ other }
{
    match (one, other) {
        (Some(one), Some(other)) => one == other,
        (None, None) => true,
        _ => false,
    }
}

/// Whether the table says of a page how many references it has, and which one.
fn says(table: &RefTable, no: u32, count: u64, one: Option<Target>) -> bool
    ensures count { IsTrue result → count_at table.now no ≡ count }
    ensures one { IsTrue result → one_at table.now no ≡ one }
{
    table.count(no) == count && same_one(table.one(no), one)
}

/// Puts the rank of a page behind a list, where it has one: whether that is a number of 32 bits.
fn note(numbers: &[u32], no: u32, touched: &mut Vec<u32>) -> Result<bool, AllocError>
    requires { Rises numbers.now }
    ensures { IfOk result (λ fits. IsTrue fits → touched.new.items ≡ noted (rank_of numbers.now no) touched.old.items) }
{
    match rank_of(numbers, no) {
        Some(rank) => match u32::try_from(rank) {
            Ok(rank) => {
                touched.push(rank)?;
                Ok(true)
            }
            Err(_) => Ok(false),
        },
        None => Ok(true),
    }
}

/// How many references there are to a page by its sums: none where it has no view.
fn said_count<'a, P: Pages<'a>>(pages: &P, sums: &Sums, no: u32) -> u64
    ensures { result ≡ said_count (λ number. is_some (P.view pages.now number)) sums.now no }
{
    if is_shown(pages, no) {
        sums.count(no)
    } else {
        0
    }
}

/// Which is the one reference to a page by its sums: none where it has no view. `None` where the sums tell none that can be.
fn said_one<'a, P: Pages<'a>>(pages: &P, sums: &Sums, no: u32) -> Option<Option<Target>>
    ensures { IfSome result (λ one. one ≡ said_one (λ number. is_some (P.view pages.now number)) sums.now no) }
{
    if is_shown(pages, no) {
        sums.one(no)
    } else {
        Some(None)
    }
}

/// Writes the entry of page `no` anew where the sums say something else, and puts its rank behind the list of those that
/// changed: whether that can be done.
fn renew<'a, P: Pages<'a>>(
    table: &mut RefTable,
    pages: &P,
    sums: &Sums,
    numbers: &[u32],
    no: u32,
    touched: &mut Vec<u32>,
) -> Result<bool, AllocError>
    requires { Rises numbers.now }
    ensures { IfOk result (λ done. IsTrue done → Renews (λ number. is_some (P.view pages.now number)) (λ page. page ≡ no) sums.now numbers.now table.old table.new touched.old.items touched.new.items) }
{
    let count = said_count(pages, sums, no);
    let one = match said_one(pages, sums, no) {
        Some(one) => one,
        None => return Ok(false),
    };
    if says(table, no, count, one) {
        return Ok(true);
    }
    if !table.put(no, count, one) {
        return Ok(false);
    }
    let fits = note(numbers, no, touched)?;
    Ok(fits)
}

/// Writes the entry of the page of each of these pairs anew where the sums say something else, and puts its rank behind the
/// list of those that changed: whether that can be done. Where it can't, the table is of no use.
///
/// The cost is a few look-ups for each pair. It answers `AllocError` where memory runs out.
fn renew_all<'a, P: Pages<'a>>(
    table: &mut RefTable,
    pages: &P,
    sums: &Sums,
    numbers: &[u32],
    pairs: &[Pair],
    touched: &mut Vec<u32>,
) -> Result<bool, AllocError>
    requires { Rises numbers.now }
    ensures { IfOk result (λ done. IsTrue done → Renews (λ number. is_some (P.view pages.now number)) (λ page. has_page pairs.now page ≡ true) sums.now numbers.now table.old table.new touched.old.items touched.new.items) }
{
    for pair in pairs {
        if !renew(table, pages, sums, numbers, pair.page, touched)? {
            return Ok(false);
        }
    }
    Ok(true)
}

/// The same of the page of each of these ranks.
fn renew_ranks<'a, P: Pages<'a>>(
    table: &mut RefTable,
    pages: &P,
    sums: &Sums,
    numbers: &[u32],
    changed: &[u32],
    touched: &mut Vec<u32>,
) -> Result<bool, AllocError>
    requires rises { Rises numbers.now }
    requires ranks { All (λ rank. rank < length numbers.now) changed.now }
    ensures { IfOk result (λ done. IsTrue done → Renews (λ number. is_some (P.view pages.now number)) (λ page. has_rank numbers.now changed.now page ≡ true) sums.now numbers.now table.old table.new touched.old.items touched.new.items) }
{
    for rank in changed {
        let no = numbers[*rank as usize];
        if !renew(table, pages, sums, numbers, no, touched)? {
            return Ok(false);
        }
    }
    Ok(true)
}

/// Writes the table of one moment anew to that of the next, of which the sums were followed, and of which the pages of these
/// ranks may have other views: the ranks of the pages of which it says something else now, in the order in which they were
/// named. How many bytes of a payload are still to come at overflow pages isn't written. `None` where it can't be done: then
/// the table is of no use.
///
/// The cost is a few look-ups for each target that was added or taken back, and for each rank. It answers `AllocError` where
/// memory runs out.
pub(crate) fn renew_table<'a, P: Pages<'a>>(
    alloc: Global,
    table: &mut RefTable,
    pages: &P,
    followed: &Followed,
    numbers: &[u32],
    changed: &[u32],
    dead: u64,
) -> Result<Option<Vec<u32>>, AllocError>
    requires rises { Rises numbers.now }
    requires ranks { All (λ rank. rank < length numbers.now) changed.now }
    ensures renewed { IfOk result (λ found. IfSome found (λ touched. Renews (λ number. is_some (P.view pages.now number)) (λ page. (has_page followed.now.named.items page ≡ true) ⊎ ((has_page followed.now.lost.items page ≡ true) ⊎ (has_rank numbers.now changed.now page ≡ true))) followed.now.sums numbers.now table.old table.new [] touched.items)) }
    ensures dead { IfOk result (λ found. IfSome found (λ touched. table.new.dead ≡ dead)) }
{
    let mut touched = Vec::new(alloc);
    let sums = &followed.sums;
    if !renew_all(table, pages, sums, numbers, &followed.named, &mut touched)? {
        return Ok(None);
    }
    if !renew_all(table, pages, sums, numbers, &followed.lost, &mut touched)? {
        return Ok(None);
    }
    if !renew_ranks(table, pages, sums, numbers, changed, &mut touched)? {
        return Ok(None);
    }
    table.put_dead(dead);
    Ok(Some(touched))
}
