//! The way out along a chain of overflow pages, and back.
ghost use Rattle.std.specs.Prelude.{◌≡◌, ℕ, ◌+◌, ◌≤◌, min, [], length, OnOk, IfOk, IfSome, option_copied};
ghost use Rattle.std.specs.Ordering.{nat_cmp};
ghost use Rattle.std.specs.BTreeMap.{get};
ghost use Rattle.sx_base.specs.Held.{held_pages};
ghost use Rattle.sx_overflow.specs.Chains.{linked, chain_of, IsTrail};
ghost use Rattle.sx_row.specs.Marks.{IsKnown, IsHalf};

use std::alloc::{AllocError, Global};
use std::collections::BTreeMap;
use sx_base::Pages;
use sx_bytes::be32;

/// How many pages follow one another from a link on, up to `most`, which is how many are held. What is found is noted for
/// each page on the way.
pub(crate) fn length_in<'a, P: Pages<'a>>(
    alloc: Global,
    pages: &P,
    known: &mut BTreeMap<u32, u32>,
    most: u32,
    link: u32,
) -> Result<u32, AllocError>
    requires sized { 4 ≤ P.page_size pages.now }
    requires held { most ≡ length (held_pages (P.pages pages.now) (P.view pages.now)) }
    requires known { IsKnown (P.view pages.now) most (get nat_cmp known.old) }
    ensures len { IfOk result (λ len. len ≡ length (chain_of (P.view pages.now) link most)) }
    ensures known { OnOk result (IsKnown (P.view pages.now) most (get nat_cmp known.new)) }
{
    let mut trail: Vec<u32> = Vec::new(alloc);
    let len = go_out(pages, known, &mut trail, most, link)?;
    come_back(pages, known, trail, most, link, len)
}

/// Goes along the chain to a page that is known, or to its end, and answers the length from there.
///
/// A page that is met again on the way is known by the greatest number, which is its length: its chain goes round.
fn go_out<'a, P: Pages<'a>>(
    pages: &P,
    known: &mut BTreeMap<u32, u32>,
    trail: &mut Vec<u32>,
    most: u32,
    link: u32,
) -> Result<u32, AllocError>
    requires sized { 4 ≤ P.page_size pages.now }
    requires held { most ≡ length (held_pages (P.pages pages.now) (P.view pages.now)) }
    requires known { IsKnown (P.view pages.now) most (get nat_cmp known.old) }
    requires empty { trail.old.items ≡ [] }
    ensures out { IfOk result (λ len. (at : ℕ) × IsTrail (P.view pages.now) link trail.new.items at × (len ≡ length (chain_of (P.view pages.now) at most))) }
    ensures half { OnOk result (IsHalf (P.view pages.now) most trail.new.items (get nat_cmp known.new)) }
{
    let _size = pages.size();
    let mut at = link;
    loop {
        if let Some(len) = known.get(&at) {
            return Ok(*len);
        }
        let Some(page) = linked(pages, at) else {
            return Ok(0);
        };
        known.insert(at, most)?;
        trail.push(at)?;
        at = be32(page, 0);
    }
}

/// Goes back, and notes the length from each page on.
fn come_back<'a, P: Pages<'a>>(
    _pages: &P,
    known: &mut BTreeMap<u32, u32>,
    mut trail: Vec<u32>,
    most: u32,
    link: u32,
    last: u32,
) -> Result<u32, AllocError>
    requires out { (at : ℕ) × IsTrail (P.view _pages.now) link trail.items at × (last ≡ length (chain_of (P.view _pages.now) at most)) }
    requires half { IsHalf (P.view _pages.now) most trail.items (get nat_cmp known.old) }
    ensures len { IfOk result (λ len. len ≡ length (chain_of (P.view _pages.now) link most)) }
    ensures known { OnOk result (IsKnown (P.view _pages.now) most (get nat_cmp known.new)) }
{
    let mut len = last;
    while let Some(at) = trail.pop() {
        len = one_more(len, most);
        known.insert(at, len)?;
    }
    Ok(len)
}

/// One page more, up to the greatest number.
fn one_more(len: u32, most: u32) -> u32
    ensures { result ≡ min (len + 1) most }
{
    if len < most { len + 1 } else { most }
}

/// The view that a link leads to: none where it is 0.
fn linked<'a, P: Pages<'a>>(pages: &P, link: u32) -> Option<&'a [u8]>
    ensures view { option_copied result ≡ linked (P.view pages.now) link }
    ensures whole { IfSome result (λ page. length page.now ≡ P.page_size pages.now) }
{
    if link == 0 { None } else { pages.page(link) }
}
