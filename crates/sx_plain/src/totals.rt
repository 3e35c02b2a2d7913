//! The totals of each moment, counted anew.

use std::alloc::{AllocError, Global};
use std::io;
use sx_base::{Moment, Pages};
use sx_lines::put_moment;
use sx_map_text::{MapTotals, headless_totals, map_totals, put_totals_line};
use sx_moment::{Case, Snapshot};
use sx_schema::schema;

/// Prints a line for each moment: its word, and its totals as `map` has them.
pub fn put_totals<R: Print + AllocGlobal>(rt: &R, case: &Case<'_>) -> io::Result<()> {
    for i in 0..case.moments() {
        put_moment_totals(rt, case, case.moment(i))?;
    }
    Ok(())
}

// Prints the line of a moment.
fn put_moment_totals<R: Print + AllocGlobal>(
    rt: &R,
    case: &Case<'_>,
    moment: Moment,
) -> io::Result<()> {
    let Some(snapshot) = case.snapshot(moment) else {
        return Ok(());
    };
    let totals = totals_at(rt.alloc(), &snapshot)?;
    let mut word = String::new(rt.alloc());
    put_moment(moment, &mut word)?;
    let mut line = String::new(rt.alloc());
    put_totals_line(totals, &mut line)?;
    print!(rt; "{word} {line}")
}

// The totals of a moment.
fn totals_at(alloc: Global, snapshot: &Snapshot<'_, '_>) -> Result<MapTotals, AllocError> {
    let layout = snapshot.layout();
    if snapshot.head().is_none() {
        return Ok(headless_totals(snapshot.size(), layout.page_size));
    }
    let schema = schema(alloc, snapshot, layout.usable, snapshot.encoding())?;
    map_totals(alloc, snapshot, &layout, schema.roots())
}
