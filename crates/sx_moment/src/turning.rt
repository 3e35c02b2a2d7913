//! From one moment to the next: the images of the pages by rank, and which of them changed.
ghost use Rattle.std.specs.Prelude.{◌≡◌, ◌≢◌, ℕ, ◌+◌, ◌-◌, ◌<◌, ◌≤◌, ◌==◌, ◌&&◌, IsTrue, length, slice_index, slice_index_or, None};
ghost use Rattle.sx_base.specs.declared.moment.Moment.TheVariants as moments;
ghost use Rattle.sx_moment.specs.Gathered.{slot_at, is_moment};
ghost use Rattle.sx_moment.specs.Views.{file_page};
ghost use Rattle.sx_moment.specs.Ranks.{AreRanked};
ghost use Rattle.sx_moment.specs.Changes.{AreMarked};
ghost use Rattle.sx_moment.specs.Turning.{AreOrigins, base_of, is_record, slot_base, slots_hold, is_turned, one_before, is_held, is_within, ArePassed};

use crate::changes::Changes;
use crate::origin::Origin;
use crate::ranks::Ranks;
use crate::snapshot::Snapshot;
use crate::sources::Sources;
use sx_base::Moment;

/// A step to a moment: its turn, and the size that a page lies within at both moments.
#[derive(Clone, Copy)]
pub struct Step {
    pub turn: u32,
    pub within: u32,
}

/// Goes from one moment to the next: puts the images that come with it, and marks the pages that come from elsewhere.
///
/// The cost is the slots of the commit and the ranks between the two sizes; from the journal's moment to the file's it is all
/// ranks. No call takes memory.
pub fn turn(
    before: &Snapshot<'_, '_>,
    now: &Snapshot<'_, '_>,
    ranks: &Ranks,
    origins: &mut Vec<Option<Origin>>,
    changes: &mut Changes,
    turn: u32,
)
    requires case { now.now.case.now ≡ before.now.case.now }
    requires follows { before.now.moment ≡ one_before now.now.moment }
    requires ranked { AreRanked before.now.case.now ranks.now }
    requires origins { AreOrigins (base_of before.now.case.now before.now.moment) ranks.now origins.old.items }
    requires long { length changes.old.turns ≡ length ranks.now }
    requires later { changes.old.settled < turn }
    ensures origins { AreOrigins (base_of before.now.case.now now.now.moment) ranks.now origins.new.items }
    ensures passed { ArePassed before.now.case.now before.now.moment now.now.moment ranks.now turn changes.old.turns changes.new.turns }
    ensures settled { changes.new.settled ≡ changes.old.settled }
{
    let sources = before.case.sources();
    let size_before = sources.size(before.moment);
    let size = sources.size(now.moment);
    let within = size_before.min(size);
    let from = ranks.within(within);
    mark_held(changes, origins, from, ranks.within(size_before), turn);
    let step = Step { turn, within };
    put_images(sources, now.moment, ranks, origins, changes, step);
    mark_held(changes, origins, from, ranks.within(size), turn);
}

// Marks the ranks from one on and below another whose pages have an image.
fn mark_held(changes: &mut Changes, origins: &[Option<Origin>], from: u32, end: u32, turn: u32)
    requires order { from ≤ end }
    requires end { end ≤ length origins.now }
    requires long { length changes.old.turns ≡ length origins.now }
    requires later { changes.old.settled < turn }
    ensures marked { AreMarked (is_held origins.now from end) turn changes.old.turns changes.new.turns }
    ensures settled { changes.new.settled ≡ changes.old.settled }
{
    for rank in from..end {
        mark_if(changes, origins[rank as usize].is_some(), rank, turn);
    }
}

// Marks a rank where something holds.
fn mark_if(changes: &mut Changes, holds: bool, rank: u32, turn: u32)
    requires rank { rank < length changes.old.turns }
    requires later { changes.old.settled < turn }
    ensures marked { AreMarked (λ other. (other == rank) && holds) turn changes.old.turns changes.new.turns }
    ensures settled { changes.new.settled ≡ changes.old.settled }
{
    if holds {
        changes.mark(rank, turn);
    }
}

// Puts the images that come with a moment, and marks the pages that turn by them and lie within a size.
fn put_images(
    sources: &Sources<'_>,
    now: Moment,
    ranks: &Ranks,
    origins: &mut Vec<Option<Origin>>,
    changes: &mut Changes,
    step: Step,
)
    requires listed { IsTrue (is_moment sources.now now) }
    requires origins { AreOrigins (base_of sources.now (one_before now)) ranks.now origins.old.items }
    requires long { length changes.old.turns ≡ length ranks.now }
    requires later { changes.old.settled < step.turn }
    ensures origins { AreOrigins (base_of sources.now now) ranks.now origins.new.items }
    ensures marked { AreMarked (is_within (is_turned sources.now now) step.within ranks.now) step.turn changes.old.turns changes.new.turns }
    ensures settled { changes.new.settled ≡ changes.old.settled }
{
    match now {
        Moment::Commit(k) => {
            let from = sources.limit_before(k);
            put_slots(
                sources,
                ranks,
                origins,
                changes,
                from,
                sources.limit(now),
                step,
            );
        }
        Moment::File => put_files(sources, ranks, origins, changes, step),
        Moment::Journal => {}
    }
}

// Puts the images of the slots from one on and below another, and marks the pages that these hold and that lie within a size.
fn put_slots(
    sources: &Sources<'_>,
    ranks: &Ranks,
    origins: &mut Vec<Option<Origin>>,
    changes: &mut Changes,
    from: u32,
    end: u32,
    step: Step,
)
    requires order { from ≤ end }
    requires there { end ≤ length sources.now.wal.slots }
    requires origins { AreOrigins (slot_base sources.now from) ranks.now origins.old.items }
    requires long { length changes.old.turns ≡ length ranks.now }
    requires later { changes.old.settled < step.turn }
    ensures origins { AreOrigins (slot_base sources.now end) ranks.now origins.new.items }
    ensures marked { AreMarked (is_within (slots_hold sources.now from end) step.within ranks.now) step.turn changes.old.turns changes.new.turns }
    ensures settled { changes.new.settled ≡ changes.old.settled }
{
    for i in from..end {
        put_slot(sources, ranks, origins, changes, i, step);
    }
}

// Puts the image of a slot.
fn put_slot(
    sources: &Sources<'_>,
    ranks: &Ranks,
    origins: &mut Vec<Option<Origin>>,
    changes: &mut Changes,
    i: u32,
    step: Step,
)
    requires there { i < length sources.now.wal.slots }
    requires origins { AreOrigins (slot_base sources.now i) ranks.now origins.old.items }
    requires long { length changes.old.turns ≡ length ranks.now }
    requires later { changes.old.settled < step.turn }
    ensures origins { AreOrigins (slot_base sources.now (i + 1)) ranks.now origins.new.items }
    ensures marked { AreMarked (is_within (λ number. (slot_at sources.now i).page == number) step.within ranks.now) step.turn changes.old.turns changes.new.turns }
    ensures settled { changes.new.settled ≡ changes.old.settled }
{
    let page = sources.slot(i).page;
    let Some(rank) = ranks.rank(page) else {
        return;
    };
    origins[rank as usize] = Some(Origin::Slot(i));
    mark_if(changes, page <= step.within, rank, step.turn);
}

// Puts the page of the file in place of each image that is a record, and marks the pages that lie within a size.
fn put_files(
    sources: &Sources<'_>,
    ranks: &Ranks,
    origins: &mut Vec<Option<Origin>>,
    changes: &mut Changes,
    step: Step,
)
    requires origins { AreOrigins (base_of sources.now moments.Journal) ranks.now origins.old.items }
    requires long { length changes.old.turns ≡ length ranks.now }
    requires later { changes.old.settled < step.turn }
    ensures origins { AreOrigins (base_of sources.now moments.File) ranks.now origins.new.items }
    ensures marked { AreMarked (is_within (is_turned sources.now moments.File) step.within ranks.now) step.turn changes.old.turns changes.new.turns }
    ensures settled { changes.new.settled ≡ changes.old.settled }
{
    for rank in 0..ranks.len() {
        put_file(sources, ranks, origins, changes, rank, step);
    }
}

// The same at one rank.
fn put_file(
    sources: &Sources<'_>,
    ranks: &Ranks,
    origins: &mut Vec<Option<Origin>>,
    changes: &mut Changes,
    rank: u32,
    step: Step,
)
    requires rank { rank < length ranks.now }
    requires here { slice_index_or origins.old.items rank None ≡ base_of sources.now moments.Journal (slice_index ranks.now rank) }
    requires long { length origins.old.items ≡ length ranks.now }
    requires turns { length changes.old.turns ≡ length ranks.now }
    requires later { changes.old.settled < step.turn }
    ensures long { length origins.new.items ≡ length ranks.now }
    ensures here { slice_index_or origins.new.items rank None ≡ base_of sources.now moments.File (slice_index ranks.now rank) }
    ensures others { (other : ℕ) → other ≢ rank → slice_index_or origins.new.items other None ≡ slice_index_or origins.old.items other None }
    ensures marked { AreMarked (λ other. (other == rank) && is_within (is_turned sources.now moments.File) step.within ranks.now rank) step.turn changes.old.turns changes.new.turns }
    ensures settled { changes.new.settled ≡ changes.old.settled }
{
    if !is_record(origins[rank as usize]) {
        return;
    }
    let page = ranks.number(rank);
    origins[rank as usize] = file_origin(sources, page);
    mark_if(changes, page <= step.within, rank, step.turn);
}

// Whether an image is a record.
fn is_record(origin: Option<Origin>) -> bool
    ensures { result ≡ is_record origin }
{
    matches!(origin, Some(Origin::Record(_)))
}

// The page of the file, where that is wholly there.
fn file_origin(sources: &Sources<'_>, no: u32) -> Option<Origin>
    ensures { result ≡ file_page sources.now no }
{
    if no <= sources.page_count() {
        Some(Origin::Database)
    } else {
        None
    }
}
