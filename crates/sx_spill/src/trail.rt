//! The way out along a chain of pages, and back.
ghost use Rattle.std.specs.Prelude.{◌≡◌, ℕ, ◌<◌, ◌≤◌, None, Some, true, [], List, length, nat_eq, slice_index, if◌then◌else◌, OnOk, IfOk};
ghost use Rattle.std.specs.List.{list_any};
ghost use Rattle.std.specs.Ordering.{nat_cmp};
ghost use Rattle.std.specs.BTreeMap.{get};
ghost use Rattle.sx_spill.specs.Marks.{Reaches, IsKnown, IsOut, IsBack};
ghost use Rattle.sx_spill.specs.Unused.{unused_by};

use crate::unused::UnusedPages;
use std::alloc::{AllocError, Global};
use std::collections::BTreeMap;
use sx_bytes::be32;

/// How many distinct pages follow one another from a link on. What is found is noted for each page on the way, so that each
/// is looked at once, however many chains lead to it.
pub fn reach(
    alloc: Global,
    pages: &UnusedPages<'_, '_, '_>,
    known: &mut BTreeMap<u32, u32>,
    link: u32,
) -> Result<u32, AllocError>
    requires { IsKnown (unused_by pages.now).view (get nat_cmp known.old) }
    ensures len { IfOk result (λ len. Reaches (unused_by pages.now).view link len) }
    ensures known { OnOk result (IsKnown (unused_by pages.now).view (get nat_cmp known.new)) }
{
    let mut trail: Vec<u32> = Vec::new(alloc);
    let at = go_out(pages, known, &mut trail, link)?;
    let len = end_len(pages, known, &mut trail, link, at)?;
    come_back(pages, known, trail, link, at, len)
}

/// Goes along the chain to a page that is noted, or to its end. Each page on the way is noted with 0.
fn go_out(
    pages: &UnusedPages<'_, '_, '_>,
    known: &mut BTreeMap<u32, u32>,
    trail: &mut Vec<u32>,
    link: u32,
) -> Result<u32, AllocError>
    requires known { IsKnown (unused_by pages.now).view (get nat_cmp known.old) }
    requires empty { trail.old.items ≡ [] }
    ensures out { IfOk result (λ at. IsOut (unused_by pages.now).view link at trail.new.items (get nat_cmp known.new)) }
    ensures end { IfOk result (λ at. get nat_cmp known.new at ≡ None → (unused_by pages.now).view at ≡ None) }
{
    let _usable = pages.usable();
    let _most = pages.most();
    let mut at = link;
    loop {
        if known.contains_key(&at) {
            return Ok(at);
        }
        let Some(page) = pages.page(at) else {
            return Ok(at);
        };
        known.insert(at, 0)?;
        trail.push(at)?;
        at = be32(page, 0);
    }
}

/// How many pages follow one another from where the way out ended. Where that is on the trail, the pages from there on go
/// round, and are taken off it.
fn end_len(
    pages: &UnusedPages<'_, '_, '_>,
    known: &mut BTreeMap<u32, u32>,
    trail: &mut Vec<u32>,
    link: u32,
    at: u32,
) -> Result<u32, AllocError>
    requires out { IsOut (unused_by pages.now).view link at trail.old.items (get nat_cmp known.old) }
    requires end { get nat_cmp known.old at ≡ None → (unused_by pages.now).view at ≡ None }
    ensures { IfOk result (λ len. IsBack (unused_by pages.now).view link at len trail.new.items (get nat_cmp known.new)) }
{
    match known.get(&at).copied() {
        None => Ok(0),
        Some(0) => close_round(pages, known, trail, link, at),
        Some(len) => Ok(len),
    }
}

/// Takes the pages that go round off the trail, and notes how many these are.
fn close_round(
    pages: &UnusedPages<'_, '_, '_>,
    known: &mut BTreeMap<u32, u32>,
    trail: &mut Vec<u32>,
    link: u32,
    at: u32,
) -> Result<u32, AllocError>
    requires out { IsOut (unused_by pages.now).view link at trail.old.items (get nat_cmp known.old) }
    requires round { get nat_cmp known.old at ≡ Some 0 }
    ensures { IfOk result (λ len. IsBack (unused_by pages.now).view link at len trail.new.items (get nat_cmp known.new)) }
{
    let _most = pages.most();
    let first = place_of(trail.as_slice(), at);
    let len = (trail.len() - first) as u32;
    note_round(known, trail.as_slice().split_at(first).1, len)?;
    trail.truncate(first);
    Ok(len)
}

/// Where a number stands in a list; the list's length where it doesn't.
fn place_of(trail: &[u32], at: u32) -> usize
    ensures within { result ≤ length trail.now }
    ensures before { (k : ℕ) → k < result → slice_index trail.now k ≡ at → ⊥ }
    ensures found { result < length trail.now → slice_index trail.now result ≡ at }
{
    for (place, number) in trail.iter().enumerate() {
        if *number == at {
            return place;
        }
    }
    trail.len()
}

/// Notes the same number of each of these pages.
fn note_round(known: &mut BTreeMap<u32, u32>, round: &[u32], len: u32) -> Result<(), AllocError>
    ensures { OnOk result ((number : ℕ) → get nat_cmp known.new number ≡ (if list_any (nat_eq number) round.now then Some len else get nat_cmp known.old number)) }
{
    for number in round {
        known.insert(*number, len)?;
    }
    Ok(())
}

/// Goes back, and notes of each page how many follow one another from there on.
fn come_back(
    pages: &UnusedPages<'_, '_, '_>,
    known: &mut BTreeMap<u32, u32>,
    mut trail: Vec<u32>,
    link: u32,
    _at: u32,
    last: u32,
) -> Result<u32, AllocError>
    requires { IsBack (unused_by pages.now).view link _at last trail.items (get nat_cmp known.old) }
    ensures len { IfOk result (λ len. Reaches (unused_by pages.now).view link len) }
    ensures known { OnOk result (IsKnown (unused_by pages.now).view (get nat_cmp known.new)) }
{
    let _most = pages.most();
    let mut len = last;
    while let Some(number) = trail.pop() {
        len += 1;
        known.insert(number, len)?;
    }
    Ok(len)
}
