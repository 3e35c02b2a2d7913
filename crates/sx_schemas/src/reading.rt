//! The schema of the moment in hand, after that of the last settled one.
ghost use Rattle.std.specs.Prelude.{◌≡◌, ◌-◌, ◌≤◌, IsTrue, IfOk, Some, false, true};
ghost use Rattle.std.specs.Option.{option_map};
ghost use Rattle.sx_moment.specs.Gathered.{is_moment};
ghost use Rattle.sx_moment.specs.Sweep.{moment_at};
ghost use Rattle.sx_schemas.specs.Behind.{HasViews, IsReadBehind, TellsSchema};

use std::alloc::{AllocError, Global};
use sx_bytes::Encoding;
use sx_history::SchemaWalk;
use sx_moment::Sweep;

/// The walk over schemas at a moment.
#[derive(Drop)]
pub struct SchemaHere<'a> {
    /// The walk, which stands there.
    pub walk: SchemaWalk<'a>,
    /// Whether it has kept the schema of the moment before at which it stood.
    pub kept: bool,
}

/// The walk over schemas at the moment in hand: begun there where none is given, and else gone on from the last settled moment,
/// at which the given one stands. So [`Sweep::settled`] is called where it was begun, and wherever it went on to.
///
/// The pages have so many usable bytes, from 480 to the page size, and texts are in this encoding. The cost is that of
/// [`SchemaWalk::start`] at the first moment, and then that of [`SchemaWalk::advance`]. It answers `AllocError` where memory runs
/// out.
pub fn walk_schema<'a>(
    alloc: Global,
    sweep: &Sweep<'_, 'a>,
    walk: Option<SchemaWalk<'a>>,
    usable: u32,
    encoding: Encoding,
) -> Result<SchemaHere<'a>, AllocError>
    requires least { 480 ≤ usable }
    requires within { usable ≤ sweep.now.case.header.page_size }
    requires small { sweep.now.case.header.page_size ≤ 65536 }
    requires behind { IsReadBehind sweep.now walk }
    ensures tells { IfOk result (λ here. TellsSchema sweep.now.case sweep.now.moment sweep.now.numbers usable encoding here.walk) }
    ensures kept { IfOk result (λ here. here.kept ≡ true → option_map (λ it. it.entries) walk.entry ≡ Some here.walk.entries) }
{
    // That the moment has a snapshot says that it is one of the case.
    let _snapshot = sweep.snapshot();
    match walk {
        None => begin(alloc, sweep, usable, encoding),
        Some(walk) => go_on(sweep, walk, usable, encoding),
    }
}

/// The walk over schemas, begun at the moment in hand.
fn begin<'a>(
    alloc: Global,
    sweep: &Sweep<'_, 'a>,
    usable: u32,
    encoding: Encoding,
) -> Result<SchemaHere<'a>, AllocError>
    requires listed { IsTrue (is_moment sweep.now.case sweep.now.moment) }
    requires least { 480 ≤ usable }
    requires within { usable ≤ sweep.now.case.header.page_size }
    requires small { sweep.now.case.header.page_size ≤ 65536 }
    ensures tells { IfOk result (λ here. TellsSchema sweep.now.case sweep.now.moment sweep.now.numbers usable encoding here.walk) }
    ensures kept { IfOk result (λ here. here.kept ≡ false) }
{
    let numbers = sweep.numbers();
    let walk = SchemaWalk::start(alloc, sweep, numbers, usable, encoding)?;
    Ok(SchemaHere { walk, kept: false })
}

/// The walk over schemas, gone on to the moment in hand from the last settled one.
fn go_on<'a>(
    sweep: &Sweep<'_, 'a>,
    walk: SchemaWalk<'a>,
    usable: u32,
    encoding: Encoding,
) -> Result<SchemaHere<'a>, AllocError>
    requires listed { IsTrue (is_moment sweep.now.case sweep.now.moment) }
    requires least { 480 ≤ usable }
    requires within { usable ≤ sweep.now.case.header.page_size }
    requires small { sweep.now.case.header.page_size ≤ 65536 }
    requires settled { 1 ≤ sweep.now.settled }
    requires behind { HasViews sweep.now.case (moment_at sweep.now.case (sweep.now.settled - 1)) sweep.now.numbers walk }
    ensures tells { IfOk result (λ here. TellsSchema sweep.now.case sweep.now.moment sweep.now.numbers usable encoding here.walk) }
    ensures kept { IfOk result (λ here. here.kept ≡ true → here.walk.entries ≡ walk.entry.entries) }
{
    let _numbers = sweep.numbers();
    let mut walk = walk;
    let kept = walk.advance(sweep, sweep.changed(), usable, encoding)?;
    Ok(SchemaHere { walk, kept })
}
