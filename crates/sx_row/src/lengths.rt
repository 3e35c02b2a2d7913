//! The lengths of chains of overflow pages.
ghost use Rattle.std.specs.Prelude.{◌≡◌, ℕ, ◌≤◌, List, length, IfOk};
ghost use Rattle.sx_overflow.specs.Chains.{chain_of};
ghost use Rattle.sx_overflow.specs.Payloads.{payload_of};
ghost use Rattle.sx_row.specs.Lengths.{AreLengths};

use crate::trail::length_in;
use std::alloc::{AllocError, Global};
use std::collections::BTreeMap;
use sx_base::Pages;
use sx_cell::Cell;

/// How many pages follow one another on the chains of the pages of one moment that were asked for so far.
///
/// A length is counted up to as many pages as are held: a chain that goes round has that many. Page numbers may be any
/// numbers of 32 bits, as the evidence has them, so they stand in an ordered map.
#[derive(Drop)]
pub struct ChainLengths {
    alloc: Global,
    most: u32,
    known: BTreeMap<u32, u32>,
}

impl ChainLengths {
    /// No lengths yet, for these pages. They are counted, and none is looked at.
    pub fn new<'a, P: Pages<'a>>(alloc: Global, pages: &P) -> Self
        ensures { AreLengths (P.pages pages.now) (P.view pages.now) result }
    {
        ChainLengths {
            alloc,
            most: pages.held(),
            known: BTreeMap::new(alloc),
        }
    }

    /// Whether the payload of a cell is whole: whether each overflow page that it needs is there, and no more are needed
    /// than are held ("Cell Payload Overflow Pages").
    ///
    /// The pages are those that the lengths were made for, with so many usable bytes, 480 or more and no more than a page
    /// has. Each page of a chain is looked at once, whatever cells name it; every further call costs a logarithm of the
    /// pages that were looked at. It answers `AllocError` where memory runs out; the lengths serve on then, and count anew.
    #[tactic(auto, using(crate::proofs::Whole::no_need, crate::proofs::Whole::past_held, crate::proofs::Whole::by_length))]
    pub fn is_whole<'a, P: Pages<'a>>(
        &mut self,
        pages: &P,
        cell: &Cell,
        usable: u32,
    ) -> Result<bool, AllocError>
        requires least { 480 ≤ usable }
        requires within { usable ≤ P.page_size pages.now }
        requires lengths { AreLengths (P.pages pages.now) (P.view pages.now) self.old }
        ensures whole { IfOk result (λ whole. (page : List ℕ) → (payload_of (P.pages pages.now) (P.view pages.now) page usable cell.now).whole ≡ whole) }
        ensures lengths { AreLengths (P.pages pages.now) (P.view pages.now) self.new }
    {
        let need = cell.need(usable);
        if need == 0 {
            return Ok(true);
        }
        if need > u64::from(self.most) {
            return Ok(false);
        }
        let len = self.length_from(pages, cell.overflow.unwrap_or(0))?;
        Ok(need <= u64::from(len))
    }

    /// The length of the chain from a link on.
    fn length_from<'a, P: Pages<'a>>(&mut self, pages: &P, link: u32) -> Result<u32, AllocError>
        requires sized { 4 ≤ P.page_size pages.now }
        requires lengths { AreLengths (P.pages pages.now) (P.view pages.now) self.old }
        ensures len { IfOk result (λ len. len ≡ length (chain_of (P.view pages.now) link self.old.most)) }
        ensures lengths { AreLengths (P.pages pages.now) (P.view pages.now) self.new }
    {
        let found = length_in(self.alloc, pages, &mut self.known, self.most, link);
        if found.is_err() {
            // What was noted on a way that wasn't gone to its end says nothing.
            self.known = BTreeMap::new(self.alloc);
        }
        found
    }
}
