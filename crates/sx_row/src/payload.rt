//! The payload of a row in one piece.
ghost use Rattle.std.specs.Prelude.{◌≡◌, ◌^◌, ◌<◌, ◌≤◌, Bool, if◌then◌else◌, length, option_copied, IfOk, IfSome, Some, None};
ghost use Rattle.sx_cell.specs.Cells.{WasRead};
ghost use Rattle.sx_row.specs.Lengths.{AreLengths};
ghost use Rattle.sx_row.specs.Rows.{row_payload};

use crate::lengths::ChainLengths;
use std::alloc::AllocError;
use sx_base::Pages;
use sx_cell::Cell;
use sx_overflow::{Payload, PayloadRefused, as_local};

/// The payload of a cell that was read from `page`, one of `pages` with so many usable bytes: its bytes where it is whole,
/// and `None` exactly where an overflow page that it needs isn't there, or where it needs more than are held ("Cell
/// Payload Overflow Pages").
///
/// The usable bytes are 480 or more, and no more than a page has; the lengths were made for these pages. Where the cell
/// holds all of its payload it is a borrow of the page; else it is joined in `room`, which is used again for the next one.
/// Whether it is whole is found once for each page of a chain, whatever cells name it. It answers `AllocError` where memory
/// runs out.
pub(crate) fn row_payload<'b, 'a: 'b, P: Pages<'a>>(
    lengths: &mut ChainLengths,
    room: &'b mut Vec<u8>,
    pages: &P,
    page: &'a [u8],
    cell: &Cell,
    usable: u32,
) -> Result<Option<&'b [u8]>, AllocError>
    requires least { 480 ≤ usable }
    requires held { usable ≤ length page.now }
    requires within { usable ≤ P.page_size pages.now }
    requires read { WasRead page.now usable cell.now }
    requires lengths { AreLengths (P.pages pages.now) (P.view pages.now) lengths.old }
    ensures bytes { IfOk result (λ found. option_copied found ≡ row_payload (P.pages pages.now) (P.view pages.now) usable page.now cell.now) }
    ensures few { IfOk result (λ found. IfSome found (λ bytes. length bytes.now < 2 ^ 32)) }
    ensures lengths { AreLengths (P.pages pages.now) (P.view pages.now) lengths.new }
{
    let _size = pages.size();
    if let Some(bytes) = as_local(page, cell, usable) {
        return Ok(Some(bytes));
    }
    if join(lengths, room, pages, page, cell, usable)? {
        Ok(Some(room.as_slice()))
    } else {
        Ok(None)
    }
}

/// Joins the pieces of a payload in `room`, and answers whether they make it whole.
#[tactic(auto, using(crate::proofs::Joined::is_whole, crate::proofs::Joined::is_short))]
fn join<'a, P: Pages<'a>>(
    lengths: &mut ChainLengths,
    room: &mut Vec<u8>,
    pages: &P,
    page: &'a [u8],
    cell: &Cell,
    usable: u32,
) -> Result<bool, AllocError>
    requires least { 480 ≤ usable }
    requires held { usable ≤ length page.now }
    requires within { usable ≤ P.page_size pages.now }
    requires read { WasRead page.now usable cell.now }
    requires lengths { AreLengths (P.pages pages.now) (P.view pages.now) lengths.old }
    ensures bytes { IfOk result (λ whole. (if whole then Some room.new.items else None) ≡ row_payload (P.pages pages.now) (P.view pages.now) usable page.now cell.now) }
    ensures lengths { AreLengths (P.pages pages.now) (P.view pages.now) lengths.new }
{
    if !lengths.is_whole(pages, cell, usable)? {
        return Ok(false);
    }
    room.clear();
    match Payload::of(pages, page, cell, usable).gather_into(room) {
        Ok(()) => Ok(true),
        Err(PayloadRefused::ShortChain) => Ok(false),
        Err(PayloadRefused::Memory) => Err(AllocError),
    }
}
