//! What the trees of a table hold under a rowid, moment after moment, where what one moment tells is kept for the next.
ghost use Rattle.std.specs.Prelude.{◌≡◌, ◌↔◌, ◌+◌, ◌-◌, ◌<◌, ◌≤◌, IsTrue, IfOk, OnOk, Some, false, true, length, slice_get};
ghost use Rattle.std.specs.Option.{option_map};
ghost use Rattle.sx_history.specs.Given.{faults_by, items_by};
ghost use Rattle.sx_history.specs.History.{faults_of, found_of};
ghost use Rattle.sx_moment.specs.Gathered.{is_moment, moments_of, size_at};
ghost use Rattle.sx_moment.specs.Sweep.{GoesOn, moment_at};
ghost use Rattle.sx_moment.specs.Views.{view_of};
ghost use Rattle.sx_schema.specs.Entries.{schema_of};
ghost use Rattle.sx_schema.specs.Given.{entries_by};
ghost use Rattle.sx_history_text.specs.Trees.{IsAt, IsBehind, Says};

use crate::schemas::Schemas;
use std::alloc::{AllocError, Global};
use std::marker::Model;
use sx_base::{Moment, Pages};
use sx_bytes::Encoding;
use sx_history::{History, HistoryWalk};
use sx_moment::{Case, Sweep};
use sx_schema::Schema;

/// What the trees of a table hold under a rowid at the moments of a case, from the first on, and the schemas that name the tables.
///
/// What a tree held at the moment before is kept as long as [`HistoryWalk`] shows that it stands, and the schema as long as
/// [`SchemaWalk`](sx_history::SchemaWalk) does; at a moment without a tree or a schema nothing is looked at, and what changes
/// there counts as changed at the next.
#[derive(Drop)]
pub(crate) struct SweptTrees<'c, 'a> {
    alloc: Global,
    sweep: Sweep<'c, 'a>,
    walk: Option<HistoryWalk<'a>>,
    rowid: i64,
    schemas: Schemas<'c, 'a>,
}

impl<'c, 'a> Model for SweptTrees<'c, 'a> {
    ghost use Rattle.sx_history_text.specs.Schemas.{AreInStep};
    ghost use Rattle.sx_history_text.specs.Trees.{IsBehind, OverSweep};

    ghost Value = { OverSweep };

    ghost view = { λ it. record { swept = it.sweep; rowid = it.rowid; entries = it.schemas.entries } };

    ghost invariant = { λ it. IsBehind it.sweep it.rowid it.walk × AreInStep it.sweep it.schemas.swept };
}

impl<'c, 'a> SweptTrees<'c, 'a> {
    /// The first moment of a case, at which the sweep stands, and the rowid that is looked for.
    ///
    /// The cost and the memory are those of another [`Case::sweep`]. It answers `AllocError` where memory runs out.
    pub(crate) fn new(
        alloc: Global,
        case: &'c Case<'a>,
        sweep: Sweep<'c, 'a>,
        rowid: i64,
    ) -> Result<Self, AllocError>
        requires case { sweep.case ≡ case.now }
        requires first { sweep.place ≡ 0 }
        ensures case { IfOk result (λ it. it.swept.case ≡ case.entry.now) }
        ensures place { IfOk result (λ it. it.swept.place ≡ 0) }
        ensures rowid { IfOk result (λ it. it.rowid ≡ rowid) }
    {
        let schemas = Schemas::new(alloc, case)?;
        Ok(SweptTrees {
            alloc,
            sweep,
            walk: None,
            rowid,
            schemas,
        })
    }

    /// The moment in hand.
    pub(crate) fn moment(&self) -> Moment
        ensures value { result ≡ self.now.swept.moment }
        ensures there { slice_get (moments_of self.now.swept.case) self.now.swept.place ≡ Some self.now.swept.moment }
    {
        self.sweep.moment()
    }

    /// Goes to the next moment, and says whether there is one: at the last it changes nothing. The cost is twice that of
    /// [`Sweep::next`], and it takes no memory.
    pub(crate) fn next(&mut self) -> bool
        ensures more { IsTrue result ↔ (self.old.swept.place + 1 < length (moments_of self.old.swept.case)) }
        ensures next { result ≡ true → GoesOn self.old.swept self.new.swept }
        ensures last { result ≡ false → self.new.swept ≡ self.old.swept }
        ensures rowid { self.new.rowid ≡ self.old.rowid }
        ensures entries { self.new.entries ≡ self.old.entries }
    {
        let more = self.sweep.next();
        self.schemas.next();
        more
    }

    /// Reads the schema of the moment in hand, over pages with so many usable bytes, from 480 to the page size, and with this
    /// encoding of texts, unless the one that was read last stands, and says whether that was so.
    ///
    /// The cost is that of [`SchemaWalk::start`](sx_history::SchemaWalk::start) at the first one, and then that of
    /// [`SchemaWalk::advance`](sx_history::SchemaWalk::advance). It answers `AllocError` where memory runs out.
    pub(crate) fn read_schema(
        &mut self,
        usable: u32,
        encoding: Encoding,
    ) -> Result<bool, AllocError>
        requires least { 480 ≤ usable }
        requires within { usable ≤ self.old.swept.case.header.page_size }
        requires small { self.old.swept.case.header.page_size ≤ 65536 }
        ensures entries { OnOk result (self.new.entries ≡ Some (schema_of (size_at self.old.swept.case self.old.swept.moment) (view_of self.old.swept.case self.old.swept.moment) usable encoding)) }
        ensures kept { IfOk result (λ kept. kept ≡ true → self.new.entries ≡ self.old.entries) }
        ensures swept { self.new.swept ≡ self.old.swept }
        ensures rowid { self.new.rowid ≡ self.old.rowid }
    {
        let _moment = self.sweep.moment();
        let _same = self.schemas.moment();
        self.schemas.read(usable, encoding)
    }

    /// The schema that was read last, if one was.
    pub(crate) fn schema(&self) -> Option<&Schema>
        ensures { option_map (λ schema. entries_by schema.now) result ≡ self.now.entries }
    {
        self.schemas.schema()
    }

    /// What the tree with this root, a page number, holds under the rowid at the moment in hand, over pages with so many usable
    /// bytes: from 480 to the page size.
    ///
    /// The cost is that of [`HistoryWalk::start`] at the first tree, and then that of [`HistoryWalk::advance`]; the rows that
    /// were found are copied. It answers `AllocError` where memory runs out.
    pub(crate) fn history(&mut self, usable: u32, root: u32) -> Result<History, AllocError>
        requires least { 480 ≤ usable }
        requires within { usable ≤ self.old.swept.case.header.page_size }
        requires small { self.old.swept.case.header.page_size ≤ 65536 }
        ensures found { IfOk result (λ history. items_by history ≡ found_of (size_at self.old.swept.case self.old.swept.moment) (view_of self.old.swept.case self.old.swept.moment) usable root self.old.rowid) }
        ensures faults { IfOk result (λ history. faults_by history ≡ faults_of (size_at self.old.swept.case self.old.swept.moment) (view_of self.old.swept.case self.old.swept.moment) usable root) }
        ensures case { self.new.swept.case ≡ self.old.swept.case }
        ensures place { self.new.swept.place ≡ self.old.swept.place }
        ensures moment { self.new.swept.moment ≡ self.old.swept.moment }
        ensures rowid { self.new.rowid ≡ self.old.rowid }
        ensures entries { self.new.entries ≡ self.old.entries }
    {
        let _moment = self.sweep.moment();
        let walk = walk_to(
            self.alloc,
            &self.sweep,
            self.walk.take(),
            usable,
            root,
            self.rowid,
        )?;
        self.sweep.settled();
        let history = walk.history().again(self.alloc);
        self.walk = Some(walk);
        history
    }
}

/// The walk over trees at the moment in hand.
fn walk_to<'a>(
    alloc: Global,
    sweep: &Sweep<'_, 'a>,
    walk: Option<HistoryWalk<'a>>,
    usable: u32,
    root: u32,
    rowid: i64,
) -> Result<HistoryWalk<'a>, AllocError>
    requires least { 480 ≤ usable }
    requires within { usable ≤ sweep.now.case.header.page_size }
    requires small { sweep.now.case.header.page_size ≤ 65536 }
    requires behind { IsBehind sweep.now rowid walk }
    ensures { IfOk result (Says sweep.now.case sweep.now.moment sweep.now.numbers usable root rowid) }
{
    // That the moment has a snapshot says that it is one of the case.
    let _snapshot = sweep.snapshot();
    match walk {
        None => start(alloc, sweep, usable, root, rowid),
        Some(walk) => advance(sweep, walk, usable, root, rowid),
    }
}

/// The walk over trees, begun at the moment in hand.
fn start<'a>(
    alloc: Global,
    sweep: &Sweep<'_, 'a>,
    usable: u32,
    root: u32,
    rowid: i64,
) -> Result<HistoryWalk<'a>, AllocError>
    requires listed { IsTrue (is_moment sweep.now.case sweep.now.moment) }
    requires least { 480 ≤ usable }
    requires within { usable ≤ sweep.now.case.header.page_size }
    requires small { sweep.now.case.header.page_size ≤ 65536 }
    ensures { IfOk result (Says sweep.now.case sweep.now.moment sweep.now.numbers usable root rowid) }
{
    let numbers = sweep.numbers();
    let walk = HistoryWalk::start(alloc, sweep, numbers, usable, root, rowid)?;
    Ok(walk)
}

/// The walk over trees, gone on to the moment in hand from the last settled one.
fn advance<'a>(
    sweep: &Sweep<'_, 'a>,
    walk: HistoryWalk<'a>,
    usable: u32,
    root: u32,
    rowid: i64,
) -> Result<HistoryWalk<'a>, AllocError>
    requires listed { IsTrue (is_moment sweep.now.case sweep.now.moment) }
    requires least { 480 ≤ usable }
    requires within { usable ≤ sweep.now.case.header.page_size }
    requires small { sweep.now.case.header.page_size ≤ 65536 }
    requires settled { 1 ≤ sweep.now.settled }
    requires behind { IsAt sweep.now.case (moment_at sweep.now.case (sweep.now.settled - 1)) sweep.now.numbers rowid walk }
    ensures { IfOk result (Says sweep.now.case sweep.now.moment sweep.now.numbers usable root rowid) }
{
    let _numbers = sweep.numbers();
    let mut walk = walk;
    walk.advance(sweep, sweep.changed(), usable, root)?;
    Ok(walk)
}
