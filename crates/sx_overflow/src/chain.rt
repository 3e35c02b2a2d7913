//! Chains of overflow pages.
ghost use Rattle.std.specs.Prelude.{◌≡◌, ◌+◌, ◌-◌, ◌<◌, ◌≤◌, ◌==◌, true, length, min, take, drop, nat_le, option_copied, IsTrue, IfSome};
ghost use Rattle.sx_base.specs.Held.{held_pages};
ghost use Rattle.sx_overflow.specs.Chains.{link_of, linked, chain_of};

use sx_base::Pages;
use sx_bytes::be32;

/// The view that a link leads to: none where it is 0.
pub fn linked<'a, P: Pages<'a>>(pages: &P, link: u32) -> Option<&'a [u8]>
    ensures view { option_copied result ≡ linked (P.view pages.now) link }
    ensures whole { IfSome result (λ page. length page.now ≡ P.page_size pages.now) }
{
    if link == 0 { None } else { pages.page(link) }
}

/// Whether no more pages are needed than have a view. Where that is `known` already, they aren't counted again.
pub fn is_within_held<'a, P: Pages<'a>>(pages: &P, need: u64, known: bool) -> bool
    requires { IsTrue known → need ≤ length (held_pages (P.pages pages.now) (P.view pages.now)) }
    ensures { result ≡ nat_le need (length (held_pages (P.pages pages.now) (P.view pages.now))) }
{
    if known {
        return true;
    }
    need <= u64::from(pages.held())
}

/// How many overflow pages follow one another from a link on, each found by the link of the one before: at most `most`.
///
/// The chain ends at a link of 0 and at a page without a view. Asked for as many pages as are held, the answer serves every
/// payload whose chain begins there ([`crate::chains_by_length`]). As many pages are looked up as it counts, and one more.
pub fn chain_len<'a, P: Pages<'a>>(pages: &P, link: u32, most: u32) -> u32
    requires { 4 ≤ P.page_size pages.now }
    ensures value { result ≡ length (chain_of (P.view pages.now) link most) }
    ensures within { result ≤ most }
{
    let mut at = link;
    for met in 0..most {
        match linked(pages, at) {
            Some(page) => at = be32(page, 0),
            None => return met,
        }
    }
    most
}
