//! A cell, read from left to right.
ghost use Rattle.std.specs.Prelude.{◌≡◌, ◌↔◌, ℕ, ◌+◌, ◌≤◌, List, length, IfOk};
ghost use Rattle.sx_cell.specs.Fields.{Reads};
ghost use Rattle.sx_cell.specs.Reading.{Head, head_at, body_at, cell_at, cell_of};
ghost use Rattle.sx_cell.specs.Cells.{StandsAt, IsTooLong, IsOutside, HasRanges, WasRead};
ghost use Rattle.sx_cell.specs.declared.cell.Kind.{Kind};
ghost use Rattle.sx_cell.specs.declared.cell.Cell.{Cell};
ghost use Rattle.sx_cell.specs.declared.cell.CellFault.TheVariants.{Outside, TooLong};

use crate::cell::{Cell, CellFault, Kind};
use crate::fields::{read_key, read_size, read_word_if};
use crate::local::local_len;

/// What stands in front of a cell's payload, and the bytes behind it.
#[derive(Clone, Copy)]
struct Front<'a> {
    child: Option<u32>,
    payload: u64,
    key: Option<i64>,
    rest: &'a [u8],
}

/// Reads the cell at place `at` of a page with so many usable bytes ("B-tree Pages").
///
/// The page has at least its usable bytes, which are 480 or more, and at most 65536 bytes. It answers the first fault in
/// reading order. The bytes of the payload aren't read.
#[tactic(auto, unfolding(crate::specs::Reading::cell_of))]
pub fn read_cell(kind: Kind, page: &[u8], at: u32, usable: u32) -> Result<Cell, CellFault>
    requires least { 480 ≤ usable }
    requires within { usable ≤ length page.now }
    requires small { length page.now ≤ 65536 }
    ensures exact { result ≡ cell_of kind page.now at usable }
    ensures ranges { IfOk result (HasRanges kind usable) }
    ensures read { IfOk result (WasRead page.now usable) }
{
    if at > usable {
        return Err(CellFault::Outside);
    }
    let (used, _) = page.split_at(usable as usize);
    let (_, bytes) = used.split_at(at as usize);
    read_front(kind, at, usable, bytes)
}

/// Reads the cell at place `at`, where `bytes` are the usable ones from there on.
#[tactic(auto, unfolding(crate::specs::Reading::cell_at))]
fn read_front(kind: Kind, at: u32, usable: u32, bytes: &[u8]) -> Result<Cell, CellFault>
    requires least { 480 ≤ usable }
    requires greatest { usable ≤ 65536 }
    requires held { at + length bytes.now ≡ usable }
    ensures { result ≡ cell_at kind at usable bytes.now }
{
    let head = read_head(kind, bytes)?;
    let local = local_len(kind, head.payload, usable);
    let (overflow, rest) = read_body(local, head.payload, head.rest)?;
    let len = (bytes.len() - rest.len()).max(4) as u32;
    if at + len > usable {
        return Err(CellFault::Outside);
    }
    Ok(Cell {
        at,
        len,
        child: head.child,
        rowid: head.key,
        payload: head.payload,
        local_at: usable - head.rest.len() as u32,
        local,
        overflow,
    })
}

/// Reads what stands in front of the payload.
#[tactic(auto, unfolding(crate::specs::Reading::head_at))]
fn read_head(kind: Kind, bytes: &[u8]) -> Result<Front<'_>, CellFault>
    ensures reads { Reads (λ head. record { child = head.child; payload = head.payload; key = head.key; rest = head.rest.now }) result (head_at kind bytes.now) }
    ensures shorter { IfOk result (λ head. length head.rest.now ≤ length bytes.now) }
{
    let (child, behind_child) = read_word_if(kind.has_child(), bytes)?;
    let (payload, behind_size) = read_size(kind, behind_child)?;
    let (key, rest) = read_key(kind, behind_size)?;
    Ok(Front {
        child,
        payload,
        key,
        rest,
    })
}

/// Steps over the local part of a payload and reads the number of its first overflow page, where it is longer.
#[tactic(auto, unfolding(crate::specs::Reading::body_at))]
fn read_body(local: u32, payload: u64, bytes: &[u8]) -> Result<(Option<u32>, &[u8]), CellFault>
    ensures reads { Reads (λ field. (field.0, field.1.now)) result (body_at local payload bytes.now) }
    ensures shorter { IfOk result (λ field. length field.1.now ≤ length bytes.now) }
{
    let local = local as usize;
    if bytes.len() < local {
        return Err(CellFault::Outside);
    }
    let (_, rest) = bytes.split_at(local);
    read_word_if((local as u64) < payload, rest)
}

/// A cell is read exactly where it stands, a payload that is too long is answered exactly where one stands, and the
/// fault that something ends past the usable bytes exactly where a field, or what the cell owns, does. This is a law of
/// the definitions; the function has no code.
pub fn cells_both_ways()
    ensures stands { (kind : Kind) (page : List ℕ) (at usable : ℕ) (cell : Cell) → usable ≤ length page → (cell_of kind page at usable ≡ Ok cell) ↔ StandsAt kind page at usable cell }
    ensures too_long { (kind : Kind) (page : List ℕ) (at usable : ℕ) → usable ≤ length page → (cell_of kind page at usable ≡ Err TooLong) ↔ IsTooLong kind page at usable }
    ensures outside { (kind : Kind) (page : List ℕ) (at usable : ℕ) → usable ≤ length page → (cell_of kind page at usable ≡ Err Outside) ↔ IsOutside kind page at usable }
{}

/// What was read from a page lies in it, and its numbers fit each other. This is a law of the definitions; the function
/// has no code.
pub fn cells_lie_in_page()
    ensures { (page : List ℕ) (usable : ℕ) (cell : Cell) → 480 ≤ usable → usable ≤ length page → (was : WasRead page usable cell) → HasRanges was.kind usable cell }
{}
