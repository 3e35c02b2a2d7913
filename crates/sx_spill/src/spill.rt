//! Candidates that are completed by their overflow pages.
ghost use Rattle.std.specs.Prelude.{◌≡◌, ◌+◌, ◌<◌, ◌≤◌, ◌^◌, ◌++◌, length, take, IfOk, IfSome};
ghost use Rattle.std.specs.Option.{option_map};
ghost use Rattle.sx_owned.specs.Owned.{owned_at};
ghost use Rattle.sx_spill.specs.Chains.{trail_of};
ghost use Rattle.sx_spill.specs.Completion.{bodies_of, payload_from, completed_of};
ghost use Rattle.sx_spill.specs.Marks.{Reaches};
ghost use Rattle.sx_spill.specs.Unused.{Fit, unused_pages, unused_by};

use crate::trail::reach;
use crate::unused::UnusedPages;
use std::alloc::{AllocError, Global};
use std::collections::BTreeMap;
use std::marker::Model;
use sx_bytes::be32;
use sx_cell::{LINK_LEN, need_of};
use sx_grammar::Reading;
use sx_images::ImageTable;
use sx_moment::Snapshot;
use sx_owned::OwnedRuns;

/// What completes candidates: the pages of a moment whose usable bytes nothing owns, and how many distinct ones follow one
/// another from each that was looked at.
#[derive(Drop)]
pub struct Spill<'t, 'c, 'a> {
    alloc: Global,
    pages: UnusedPages<'t, 'c, 'a>,
    known: BTreeMap<u32, u32>,
}

impl<'t, 'c, 'a> Model for Spill<'t, 'c, 'a> {
    ghost use Rattle.std.specs.Ordering.{nat_cmp};
    ghost use Rattle.std.specs.BTreeMap.{get};
    ghost use Rattle.sx_spill.specs.Marks.{IsKnown};
    ghost use Rattle.sx_spill.specs.Unused.{Given, unused_by};

    ghost Value = { Given };

    ghost view = { λ it. it.pages };

    ghost invariant = { λ it. IsKnown (unused_by it.pages).view (get nat_cmp it.known) };
}

impl<'t, 'c, 'a> Spill<'t, 'c, 'a> {
    /// What completes candidates at a moment, where these bytes of page images are owned, on pages with so many usable bytes.
    ///
    /// `owned` was made for the number of the images, and the usable bytes are 480 or more, no more than a page has and no more
    /// than `owned` tells of one. No page is looked at yet.
    pub fn over(
        alloc: Global,
        snapshot: &'t Snapshot<'c, 'a>,
        images: &'t ImageTable,
        owned: &'t OwnedRuns,
        usable: u32,
    ) -> Self
        requires { Fit snapshot.now.case.now images.now owned.now usable }
        ensures { unused_by result ≡ unused_pages snapshot.now.case.now snapshot.now.moment images.now (owned_at owned.now) usable }
    {
        Spill {
            alloc,
            pages: UnusedPages::of(snapshot, images, owned, usable),
            known: BTreeMap::new(alloc),
        }
    }

    /// The whole payload of a candidate whose payload goes on in overflow pages ("Cell Payload Overflow Pages"): its local part,
    /// and then the needed bytes of as many distinct pages as it needs, one behind the other. `None` comes exactly where the
    /// candidate names no overflow page, or where there aren't so many pages whose usable bytes nothing owns.
    ///
    /// Each page of a chain is looked at once, whatever candidates lead to it, and once more for each candidate that is
    /// completed. It answers `AllocError` where memory runs out, and serves on then.
    #[tactic(auto, unfolding(crate::specs::Completion::completed_of))]
    pub fn complete(&mut self, reading: &Reading<'_>) -> Result<Option<Vec<u8>>, AllocError>
        ensures payload { IfOk result (λ made. option_map (λ bytes. bytes.items) made ≡ completed_of (unused_by self.old) reading.now) }
        ensures few { IfOk result (λ made. IfSome made (λ bytes. length bytes.items < 2 ^ 32)) }
        ensures same { self.new ≡ self.old }
    {
        let Some(local) = reading.local() else {
            return Ok(None);
        };
        let Some(link) = reading.overflow() else {
            return Ok(None);
        };
        let left = reading.payload() - local.len() as u64;
        self.complete_from(local, link, left)
    }

    /// A local part and so many bytes more, where there are the pages for these from a link on.
    #[tactic(auto, unfolding(crate::specs::Completion::payload_from), using(crate::proofs::ChainLemmas::by_reach, crate::proofs::ChainLemmas::past_most))]
    fn complete_from(
        &mut self,
        local: &[u8],
        link: u32,
        left: u64,
    ) -> Result<Option<Vec<u8>>, AllocError>
        ensures payload { IfOk result (λ made. option_map (λ bytes. bytes.items) made ≡ payload_from (unused_by self.old) local.now link left) }
        ensures few { IfOk result (λ made. IfSome made (λ bytes. length bytes.items ≤ length local.now + left)) }
        ensures same { self.new ≡ self.old }
    {
        let need = need_of(self.pages.usable(), left);
        if need > u64::from(self.pages.most()) {
            return Ok(None);
        }
        let reach = self.reach_from(link)?;
        if need > u64::from(reach) {
            return Ok(None);
        }
        let bytes = gather(self.alloc, &self.pages, local, link, left, need)?;
        Ok(Some(bytes))
    }

    /// How many distinct pages follow one another from a link on.
    fn reach_from(&mut self, link: u32) -> Result<u32, AllocError>
        ensures len { IfOk result (λ len. Reaches (unused_by self.old).view link len) }
        ensures same { self.new ≡ self.old }
    {
        let found = reach(self.alloc, &self.pages, &mut self.known, link);
        if found.is_err() {
            // What was noted on a way that wasn't gone to its end says nothing.
            self.known = BTreeMap::new(self.alloc);
        }
        found
    }
}

/// A local part, and so many bytes more of so many pages from a link on.
fn gather(
    alloc: Global,
    pages: &UnusedPages<'_, '_, '_>,
    local: &[u8],
    link: u32,
    left: u64,
    need: u64,
) -> Result<Vec<u8>, AllocError>
    ensures payload { IfOk result (λ bytes. bytes.items ≡ local.now ++ take left (bodies_of (unused_by pages.now) (trail_of (unused_by pages.now).view link need))) }
    ensures few { IfOk result (λ bytes. length bytes.items ≤ length local.now + left) }
{
    let mut bytes = Vec::new(alloc);
    bytes.extend_from_slice(local)?;
    bytes.reserve(left as usize)?;
    let room = u64::from(pages.usable() - LINK_LEN);
    let mut at = link;
    let mut left = left;
    for _ in 0..need {
        let Some(page) = pages.page(at) else {
            return Ok(bytes);
        };
        let len = left.min(room);
        bytes.extend_from_slice(&page[LINK_LEN as usize..(LINK_LEN + len as u32) as usize])?;
        left -= len;
        at = be32(page, 0);
    }
    Ok(bytes)
}
