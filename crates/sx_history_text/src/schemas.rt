//! The schemas of the moments of a case.
ghost use Rattle.std.specs.Prelude.{◌≡◌, ◌↔◌, ◌+◌, ◌-◌, ◌<◌, ◌≤◌, IsTrue, IfOk, OnOk, Some, false, true, length, slice_get};
ghost use Rattle.std.specs.Option.{option_map};
ghost use Rattle.sx_moment.specs.Gathered.{is_moment, moments_of, size_at};
ghost use Rattle.sx_moment.specs.Sweep.{GoesOn, moment_at};
ghost use Rattle.sx_moment.specs.Views.{view_of};
ghost use Rattle.sx_schema.specs.Entries.{schema_of};
ghost use Rattle.sx_schema.specs.Given.{entries_by};

use std::alloc::{AllocError, Global};
use std::marker::Model;
use sx_base::{Moment, Pages};
use sx_bytes::Encoding;
use sx_history::SchemaWalk;
use sx_moment::{Case, Sweep};
use sx_schema::Schema;
use sx_schemas::walk_schema;

/// The schemas of the moments of a case, from the first on.
///
/// The schema of the moment before is kept as long as [`SchemaWalk`] shows that it stands. It goes over the moments by itself: it
/// settles them where a schema is read, which isn't where a tree of the table is.
#[derive(Drop)]
pub(crate) struct Schemas<'c, 'a> {
    alloc: Global,
    sweep: Sweep<'c, 'a>,
    walk: Option<SchemaWalk<'a>>,
}

impl<'c, 'a> Model for Schemas<'c, 'a> {
    ghost use Rattle.std.specs.Option.{option_map};
    ghost use Rattle.sx_history_text.specs.Schemas.{Reads};
    ghost use Rattle.sx_schemas.specs.Behind.{IsReadBehind};

    ghost Value = { Reads };

    ghost view = { λ it. record { swept = it.sweep; entries = option_map (λ walk. walk.entries) it.walk } };

    ghost invariant = { λ it. IsReadBehind it.sweep it.walk };
}

impl<'c, 'a> Schemas<'c, 'a> {
    /// The first moment of a case. The cost and the memory are those of [`Case::sweep`].
    pub(crate) fn new(alloc: Global, case: &'c Case<'a>) -> Result<Self, AllocError>
        ensures case { IfOk result (λ it. it.swept.case ≡ case.entry.now) }
        ensures place { IfOk result (λ it. it.swept.place ≡ 0) }
    {
        let sweep = case.sweep(alloc)?;
        Ok(Schemas {
            alloc,
            sweep,
            walk: None,
        })
    }

    /// The moment in hand.
    pub(crate) fn moment(&self) -> Moment
        ensures value { result ≡ self.now.swept.moment }
        ensures there { slice_get (moments_of self.now.swept.case) self.now.swept.place ≡ Some self.now.swept.moment }
    {
        self.sweep.moment()
    }

    /// Goes to the next moment, and says whether there is one: at the last it changes nothing.
    pub(crate) fn next(&mut self) -> bool
        ensures more { IsTrue result ↔ (self.old.swept.place + 1 < length (moments_of self.old.swept.case)) }
        ensures next { result ≡ true → GoesOn self.old.swept self.new.swept }
        ensures last { result ≡ false → self.new.swept ≡ self.old.swept }
        ensures entries { self.new.entries ≡ self.old.entries }
    {
        self.sweep.next()
    }

    /// Reads the schema of the moment in hand, unless the one that was read last stands, and says whether that was so. The cost is that of
    /// [`SchemaWalk::start`] at the first one, and then that of [`SchemaWalk::advance`]. It answers `AllocError` where memory
    /// runs out.
    pub(crate) fn read(&mut self, usable: u32, encoding: Encoding) -> Result<bool, AllocError>
        requires least { 480 ≤ usable }
        requires within { usable ≤ self.old.swept.case.header.page_size }
        requires small { self.old.swept.case.header.page_size ≤ 65536 }
        ensures entries { OnOk result (self.new.entries ≡ Some (schema_of (size_at self.old.swept.case self.old.swept.moment) (view_of self.old.swept.case self.old.swept.moment) usable encoding)) }
        ensures kept { IfOk result (λ kept. kept ≡ true → self.new.entries ≡ self.old.entries) }
        ensures case { self.new.swept.case ≡ self.old.swept.case }
        ensures place { self.new.swept.place ≡ self.old.swept.place }
        ensures moment { self.new.swept.moment ≡ self.old.swept.moment }
    {
        let _moment = self.sweep.moment();
        let here = walk_schema(self.alloc, &self.sweep, self.walk.take(), usable, encoding)?;
        self.sweep.settled();
        self.walk = Some(here.walk);
        Ok(here.kept)
    }

    /// The schema that was read last, if one was.
    pub(crate) fn schema(&self) -> Option<&Schema>
        ensures { option_map (λ schema. entries_by schema.now) result ≡ self.now.entries }
    {
        match &self.walk {
            Some(walk) => Some(walk.schema()),
            None => None,
        }
    }
}
