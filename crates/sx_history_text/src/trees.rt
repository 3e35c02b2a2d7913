//! What the trees of a table hold under a rowid, moment after moment.
ghost use Rattle.std.specs.Prelude.{◌≡◌, ◌↔◌, ◌+◌, ◌<◌, ◌≤◌, IsTrue, IfOk, OnOk, Some, false, true, length, slice_get};
ghost use Rattle.std.specs.Option.{option_map};
ghost use Rattle.sx_history.specs.Given.{faults_by, items_by};
ghost use Rattle.sx_history.specs.History.{faults_of, found_of};
ghost use Rattle.sx_moment.specs.Gathered.{moments_of, size_at};
ghost use Rattle.sx_moment.specs.Views.{view_of};
ghost use Rattle.sx_schema.specs.Entries.{schema_of};
ghost use Rattle.sx_schema.specs.Given.{entries_by};
ghost use Rattle.sx_history_text.specs.Tracked.{Follows, IsTogether};

use crate::swept_trees::SweptTrees;
use std::alloc::{AllocError, Global};
use std::marker::Model;
use sx_base::{Moment, Pages};
use sx_bytes::Encoding;
use sx_history::{History, history};
use sx_moment::{Case, Snapshot, Sweep};
use sx_schema::{Schema, schema};

/// How many pages may come and go between the sizes of two moments, for each moment and each page, so that a sweep is worth it.
const COME_AND_GO: u64 = 64;

/// What the trees of a table hold under a rowid at the moments of a case, from the first on, and the schemas that name the tables.
///
/// Where the sizes of the moments differ little, what a moment tells is kept for the next, as far as it stands there. Where many
/// pages come and go from moment to moment nothing would stand, and finding that out would cost all these pages at each moment:
/// there each moment is read for itself. Both tell the same.
#[derive(Drop)]
pub struct TreeHistories<'c, 'a> {
    alloc: Global,
    case: &'c Case<'a>,
    place: u32,
    snapshot: Snapshot<'c, 'a>,
    rowid: i64,
    way: Way<'c, 'a>,
}

/// How the moments are gone over.
#[derive(Drop)]
enum Way<'c, 'a> {
    /// By a sweep: what a moment tells is kept for the next.
    Swept(SweptTrees<'c, 'a>),
    /// Each for itself, with the schema that was read last, if one was.
    Alone(Option<Schema>),
}

impl<'c, 'a> Model for TreeHistories<'c, 'a> {
    ghost use Rattle.std.specs.Prelude.{◌≡◌, Some, slice_get};
    ghost use Rattle.sx_moment.specs.Gathered.{moments_of};
    ghost use Rattle.sx_history_text.specs.Tracked.{IsTogether, Tracked, entries_last};

    ghost Value = { Tracked };

    ghost view = { λ it. record {
      case = it.case.now;
      place = it.place;
      moment = it.snapshot.moment;
      rowid = it.rowid;
      entries = entries_last it.way;
    } };

    ghost invariant = { λ it. (it.snapshot.case.now ≡ it.case.now) × (slice_get (moments_of it.case.now) it.place ≡ Some it.snapshot.moment) × IsTogether it.case.now it.place it.rowid it.way };
}

impl<'c, 'a> TreeHistories<'c, 'a> {
    /// The first moment of a case, and the rowid that is looked for.
    ///
    /// The cost and the memory are twice those of [`Case::sweep`], and a binary search of the pages for each moment. It answers
    /// `AllocError` where memory runs out.
    pub fn new(alloc: Global, case: &'c Case<'a>, rowid: i64) -> Result<Self, AllocError>
        ensures case { IfOk result (λ it. it.case ≡ case.entry.now) }
        ensures place { IfOk result (λ it. it.place ≡ 0) }
        ensures rowid { IfOk result (λ it. it.rowid ≡ rowid) }
    {
        let snapshot = snapshot_at(case, 0);
        let way = way_over(alloc, case, rowid)?;
        Ok(TreeHistories {
            alloc,
            case,
            place: 0,
            snapshot,
            rowid,
            way,
        })
    }

    /// The moment in hand.
    pub fn moment(&self) -> Moment
        ensures value { result ≡ self.now.moment }
        ensures there { slice_get (moments_of self.now.case) self.now.place ≡ Some self.now.moment }
    {
        self.case.moment(self.place)
    }

    /// The snapshot of the moment in hand.
    pub fn snapshot(&self) -> Snapshot<'c, 'a>
        ensures case { result.case.now ≡ self.now.case }
        ensures moment { result.moment ≡ self.now.moment }
    {
        self.snapshot
    }

    /// Goes to the next moment, and says whether there is one: at the last it changes nothing. Where the moments are gone over by
    /// sweeps the cost is twice that of [`Sweep::next`], else that of a snapshot. It takes no memory.
    pub fn next(&mut self) -> bool
        ensures more { IsTrue result ↔ (self.old.place + 1 < length (moments_of self.old.case)) }
        ensures next { result ≡ true → Follows self.old self.new }
        ensures last { result ≡ false → self.new ≡ self.old }
        ensures rowid { self.new.rowid ≡ self.old.rowid }
        ensures entries { self.new.entries ≡ self.old.entries }
    {
        let moments = self.case.moments();
        if self.place + 1 >= moments {
            return false;
        }
        self.place += 1;
        self.snapshot = snapshot_at(self.case, self.place);
        if let Way::Swept(trees) = &mut self.way {
            trees.next();
        }
        true
    }

    /// Reads the schema of the moment in hand, over pages with so many usable bytes, from 480 to the page size, and with this
    /// encoding of texts, unless the one that was read last is known to stand, and says whether that was so.
    ///
    /// Where the moments are gone over by sweeps the cost is that of [`SchemaWalk::start`](sx_history::SchemaWalk::start) at the
    /// first one, and then that of [`SchemaWalk::advance`](sx_history::SchemaWalk::advance), else that of [`schema`]. It answers
    /// `AllocError` where memory runs out.
    pub fn read_schema(&mut self, usable: u32, encoding: Encoding) -> Result<bool, AllocError>
        requires least { 480 ≤ usable }
        requires within { usable ≤ self.old.case.header.page_size }
        requires small { self.old.case.header.page_size ≤ 65536 }
        ensures entries { OnOk result (self.new.entries ≡ Some (schema_of (size_at self.old.case self.old.moment) (view_of self.old.case self.old.moment) usable encoding)) }
        ensures kept { IfOk result (λ kept. kept ≡ true → self.new.entries ≡ self.old.entries) }
        ensures case { self.new.case ≡ self.old.case }
        ensures place { self.new.place ≡ self.old.place }
        ensures moment { self.new.moment ≡ self.old.moment }
        ensures rowid { self.new.rowid ≡ self.old.rowid }
    {
        match &mut self.way {
            Way::Swept(trees) => {
                let _moment = trees.moment();
                trees.read_schema(usable, encoding)
            }
            Way::Alone(last) => {
                *last = Some(schema(self.alloc, &self.snapshot, usable, encoding)?);
                Ok(false)
            }
        }
    }

    /// The schema that was read last, if one was.
    pub fn schema(&self) -> Option<&Schema>
        ensures { option_map (λ schema. entries_by schema.now) result ≡ self.now.entries }
    {
        match &self.way {
            Way::Swept(trees) => trees.schema(),
            Way::Alone(last) => last.as_ref(),
        }
    }

    /// What the tree with this root, a page number, holds under the rowid at the moment in hand, over pages with so many usable
    /// bytes: from 480 to the page size.
    ///
    /// Where the moments are gone over by sweeps the cost is that of [`HistoryWalk::start`](sx_history::HistoryWalk::start) at the
    /// first tree, and then that of [`HistoryWalk::advance`](sx_history::HistoryWalk::advance), and the rows that were found are
    /// copied; else it is that of [`history`]. It answers `AllocError` where memory runs out.
    pub fn history(&mut self, usable: u32, root: u32) -> Result<History, AllocError>
        requires least { 480 ≤ usable }
        requires within { usable ≤ self.old.case.header.page_size }
        requires small { self.old.case.header.page_size ≤ 65536 }
        ensures found { IfOk result (λ history. items_by history ≡ found_of (size_at self.old.case self.old.moment) (view_of self.old.case self.old.moment) usable root self.old.rowid) }
        ensures faults { IfOk result (λ history. faults_by history ≡ faults_of (size_at self.old.case self.old.moment) (view_of self.old.case self.old.moment) usable root) }
        ensures case { self.new.case ≡ self.old.case }
        ensures place { self.new.place ≡ self.old.place }
        ensures moment { self.new.moment ≡ self.old.moment }
        ensures rowid { self.new.rowid ≡ self.old.rowid }
        ensures entries { self.new.entries ≡ self.old.entries }
    {
        match &mut self.way {
            Way::Swept(trees) => {
                let _moment = trees.moment();
                trees.history(usable, root)
            }
            Way::Alone(_) => history(self.alloc, &self.snapshot, usable, root, self.rowid),
        }
    }
}

/// The way over the moments of a case, which stands at the first of them.
fn way_over<'c, 'a>(
    alloc: Global,
    case: &'c Case<'a>,
    rowid: i64,
) -> Result<Way<'c, 'a>, AllocError>
    ensures { IfOk result (IsTogether case.entry.now 0 rowid) }
{
    let sweep = case.sweep(alloc)?;
    if !is_worth_it(case, &sweep) {
        return Ok(Way::Alone(None));
    }
    let trees = SweptTrees::new(alloc, case, sweep, rowid)?;
    Ok(Way::Swept(trees))
}

/// Whether a sweep over the moments is worth it: no more pages come and go between the sizes of the moments than [`COME_AND_GO`]
/// for each moment and page. It is a question of cost alone, and nothing is owed.
fn is_worth_it(case: &Case<'_>, sweep: &Sweep<'_, '_>) -> bool {
    let moments = case.moments();
    let numbers = sweep.numbers();
    let mut moved: u64 = 0;
    let mut before: u64 = 0;
    for i in 0..moments {
        let size = snapshot_at(case, i).size();
        let within = numbers.partition_point(|number| *number <= size) as u64;
        moved = moved.saturating_add(within.abs_diff(before));
        before = within;
    }
    moved <= COME_AND_GO * (u64::from(moments) + u64::from(sweep.ranks()))
}

/// The pages at the moment of a place in the list.
fn snapshot_at<'c, 'a>(case: &'c Case<'a>, place: u32) -> Snapshot<'c, 'a>
    requires { place < length (moments_of case.now) }
    ensures case { result.case.now ≡ case.entry.now }
    ensures moment { slice_get (moments_of case.entry.now) place ≡ Some result.moment }
{
    case.moments_listed();
    match case.snapshot(case.moment(place)) {
        Some(snapshot) => snapshot,
        None => unreachable!(),
    }
}
