//! The pairs that are reached, and what refers to each page.
ghost use Rattle.std.specs.Prelude.{IfOk};
ghost use Rattle.sx_closure.specs.Tallying.{IsTableOf};

use crate::chain::no_numbers;
use crate::links::Links;
use crate::table::RefTable;
use crate::tally::Tally;
use std::alloc::{AllocError, Global};

/// Counts what refers to each of the held pages: the roots and the pairs that are reached from them, each asked once; and
/// numbers the pages of chains, each of which holds `body` bytes of a payload.
///
/// All memory is taken before the first target is asked for: at most 84 bytes for each held page. The cost is a look-up
/// for each target and each page. It answers `AllocError` where memory runs out.
pub fn close<L: Links>(alloc: Global, links: &L, body: u32) -> Result<RefTable, AllocError>
    ensures { IfOk result (IsTableOf (L.graph links.now) body) }
{
    let held = links.held(alloc)?;
    let lefts = no_numbers(alloc, held.len())?;
    let mut tally = Tally::fresh(alloc, held)?;
    links.add_roots(&mut tally)?;
    let mut next = 0;
    while let Some(pair) = tally.met_at(next) {
        links.add_targets(pair, &mut tally)?;
        next += 1;
    }
    Ok(tally.table(lefts, body))
}
