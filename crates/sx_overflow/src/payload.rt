//! The payload of a cell.
ghost use Rattle.std.specs.Prelude.{◌≡◌, ℕ, ◌≤◌, List, length, Option, option_copied, IfSome};
ghost use Rattle.std.specs.List.{concat};
ghost use Rattle.std.specs.Option.{option_to_list};
ghost use Rattle.sx_cell.specs.Cells.{WasRead};
ghost use Rattle.sx_overflow.specs.Payloads.{payload_of, local_payload, Gives, Gathers, GathersInto};
ghost use Rattle.sx_overflow.specs.Sound.{IsWithin};
ghost use Rattle.sx_overflow.specs.Whole.{IsPayload};

use crate::chain::{chain_len, is_within_held, linked};
use crate::refusal::{PayloadRefused, ShortChain};
use std::alloc::Global;
use std::marker::Model;
use sx_base::{PageViews, Pages};
use sx_bytes::be32;
use sx_cell::{Cell, LINK_LEN, need_of};

/// What is to come of a payload, with the pages that its overflow pages are among.
#[derive(Drop)]
pub struct Payload<'p, 'a, P: PageViews> {
    pages: &'p P,
    usable: u32,
    local: Option<&'a [u8]>,
    link: u32,
    left: u32,
    counted: bool,
}

impl<'p, 'a, P: PageViews> Model for Payload<'p, 'a, P> {
    ghost use Rattle.std.specs.Option.{option_copied, option_to_list};
    ghost use Rattle.sx_overflow.specs.Payloads.{ToCome, to_come};
    ghost use Rattle.sx_overflow.specs.Sound.{IsSound};

    ghost Value = { ToCome };

    ghost view = { λ it. to_come (P.pages it.pages.now) (P.view it.pages.now) it.usable (option_to_list (option_copied it.local)) it.link it.left };

    ghost invariant = { λ it. IsSound (P.pages it.pages.now) (P.view it.pages.now) (P.page_size it.pages.now) it.usable (option_to_list (option_copied it.local)) it.left it.counted };
}

impl<'p, 'a, P: Pages<'a>> Payload<'p, 'a, P> {
    /// The payload of a cell that was read from `page`, one of `pages` with so many usable bytes.
    ///
    /// The usable bytes are 480 or more, and no more than `page` and each of the other pages have. No overflow page is
    /// looked at yet.
    pub fn of(pages: &'p P, page: &'a [u8], cell: &Cell, usable: u32) -> Self
        requires least { 480 ≤ usable }
        requires held { usable ≤ length page.now }
        requires within { usable ≤ P.page_size pages.now }
        requires read { WasRead page.now usable cell.now }
        ensures { result ≡ payload_of (P.pages pages.now) (P.view pages.now) page.now usable cell.now }
    {
        lies_within(page, cell, usable);
        let local = &page[cell.local_at as usize..(cell.local_at + cell.local) as usize];
        Payload {
            pages,
            usable,
            local: if local.is_empty() { None } else { Some(local) },
            link: cell.overflow.unwrap_or(0),
            left: cell.spilled() as u32,
            counted: false,
        }
    }

    /// The next piece, in order: the local part, then what each overflow page that is needed holds. `None` comes after the
    /// last one, and at each later call.
    ///
    /// A piece is never empty, so an empty local part is none. [`ShortChain`] comes in place of a piece where the next page
    /// has the number 0 or no view, or where the payload needs more overflow pages than have a view; it comes again at each
    /// later call. A piece is a borrow of the evidence, and the call takes no memory.
    pub fn next_piece(&mut self) -> Result<Option<&'a [u8]>, ShortChain>
        ensures { Gives result self.old self.new }
    {
        if let Some(piece) = self.local.take() {
            return Ok(Some(piece));
        }
        if self.left == 0 {
            return Ok(None);
        }
        let need = need_of(self.usable, self.left as u64);
        if !is_within_held(self.pages, need, self.counted) {
            return Err(ShortChain);
        }
        self.counted = true;
        let Some(page) = linked(self.pages, self.link) else {
            return Err(ShortChain);
        };
        let len = self.left.min(self.usable - LINK_LEN);
        self.link = be32(page, 0);
        self.left -= len;
        Ok(Some(&page[LINK_LEN as usize..(LINK_LEN + len) as usize]))
    }

    /// The pieces that are still to come, joined: the payload, where none was taken.
    ///
    /// [`PayloadRefused::ShortChain`] comes exactly where [`Payload::next_piece`] would answer it on the way. Otherwise
    /// memory is asked for at most once, for the bytes that are still to come, and `Memory` comes only where it isn't there.
    /// Each page is looked up twice.
    pub fn gather(self, alloc: Global) -> Result<Vec<u8>, PayloadRefused>
        ensures { Gathers result self.entry }
    {
        let mut bytes = Vec::new(alloc);
        self.gather_into(&mut bytes)?;
        Ok(bytes)
    }

    /// Appends the pieces that are still to come to `bytes`, which can be cleared and used again for the next payload.
    ///
    /// It refuses where [`Payload::gather`] does, and then leaves `bytes` as they were. Memory is asked for at most once,
    /// where the room isn't there already.
    pub fn gather_into(mut self, bytes: &mut Vec<u8>) -> Result<(), PayloadRefused>
        ensures { GathersInto result self.entry bytes.old.items bytes.new.items }
    {
        if !self.is_whole() {
            return Err(PayloadRefused::ShortChain);
        }
        bytes.reserve(len_of(self.local) + self.left as usize)?;
        while let Some(piece) = self.next_piece()? {
            bytes.extend_from_slice(piece).unwrap();
        }
        Ok(())
    }

    /// Whether the pieces that are still to come make the payload whole: whether each page that it needs is there, and no
    /// more are needed than have a view. Each of them is looked up once.
    pub fn is_whole(&self) -> bool
        ensures { result ≡ self.now.whole }
    {
        let need = need_of(self.usable, self.left as u64);
        is_within_held(self.pages, need, self.counted)
            && chain_len(self.pages, self.link, need as u32) as u64 == need
    }
}

/// The payload of a cell that was read from `page`, where it stands in its cell as a whole, and `None` exactly where some
/// of it stands on overflow pages.
///
/// The page has at least its usable bytes, which are 480 or more. It is a borrow of the page, and takes no memory.
#[tactic(auto, using(crate::proofs::LocalPayload::local_is_payload))]
pub fn as_local<'a>(page: &'a [u8], cell: &Cell, usable: u32) -> Option<&'a [u8]>
    requires least { 480 ≤ usable }
    requires held { usable ≤ length page.now }
    requires read { WasRead page.now usable cell.now }
    ensures value { option_copied result ≡ local_payload page.now cell.now }
    ensures payload { IfSome result (λ bytes. (size : ℕ) (view : ℕ → Option (List ℕ)) → IsPayload size view page.now usable cell.now bytes.now) }
{
    lies_within(page, cell, usable);
    if cell.spilled() != 0 {
        return None;
    }
    Some(&page[cell.local_at as usize..(cell.local_at + cell.local) as usize])
}

/// The bytes of a piece, if there is one.
fn len_of(piece: Option<&[u8]>) -> usize
    ensures { result ≡ length (concat (option_to_list (option_copied piece.entry))) }
{
    match piece {
        Some(bytes) => bytes.len(),
        None => 0,
    }
}

/// The local part of a cell that was read from a page stands within the usable bytes, and is one of its payload. This is
/// a fact about what is read; the function has no code.
fn lies_within(page: &[u8], cell: &Cell, usable: u32)
    requires least { 480 ≤ usable }
    requires held { usable ≤ length page.now }
    requires read { WasRead page.now usable cell.now }
    ensures { IsWithin usable cell.now }
{}
