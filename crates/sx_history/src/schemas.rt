//! The schema, at one moment after the other.
ghost use Rattle.std.specs.Prelude.{◌≡◌, ◌<◌, ◌≤◌, IsTrue, true, map, length, option_copied, All, IfOk, OnOk};
ghost use Rattle.std.specs.List.Sorted.{IsStrictlyIncreasing};
ghost use Rattle.sx_schema.specs.Entries.{schema_of};
ghost use Rattle.sx_schema.specs.Given.{entries_by};
ghost use Rattle.sx_history.specs.Schemas.{IfSchemaKept, IsSchemaAt, IsSchemaKept};
ghost use Rattle.sx_history.specs.Standing.{Covers, StandBut};

use crate::marks::{mark_again, mark_on, marks_fit};
use crate::setting::Setting;
use crate::still::all_still;
use crate::views::{look_again, views_of};
use std::alloc::{AllocError, Global};
use std::marker::Model;
use sx_base::Pages;
use sx_bytes::Encoding;
use sx_schema::{Schema, schema};

/// The schema, for a walk over moments that hold pages of one list of numbers.
///
/// The rank of a page is its place in that list, from 0. Kept by rank are the view of each page, and two marks: a reading of the
/// schema may go into it as a b-tree page of the tree at page 1, and over it as an overflow page.
#[derive(Drop)]
pub struct SchemaWalk<'a> {
    alloc: Global,
    numbers: Vec<u32>,
    views: Vec<Option<&'a [u8]>>,
    read: Read,
    schema: Schema,
    nodes: Vec<bool>,
    chains: Vec<bool>,
    // Whether all this is that of the moment: not so where memory ran out on the way to it.
    stands: bool,
}

/// What a schema is read by: the size of the moment in pages, how many bytes of a page are in use, and how texts are encoded.
#[derive(Clone, Copy, Debug, PartialEq, Eq)]
struct Read {
    size: u32,
    usable: u32,
    encoding: Encoding,
}

impl<'a> Model for SchemaWalk<'a> {
    ghost use Rattle.std.specs.Prelude.{◌≡◌, length, map, option_copied};
    ghost use Rattle.std.specs.List.Sorted.{IsStrictlyIncreasing};
    ghost use Rattle.sx_schema.specs.Given.{entries_by};
    ghost use Rattle.sx_history.specs.Schemas.{IfSchemaKept, WalkedSchema};

    ghost Value = { WalkedSchema };

    ghost view = { λ walk. record { numbers = walk.numbers.items; views = map option_copied walk.views.items; entries = entries_by walk.schema } };

    ghost invariant = { λ walk. IsStrictlyIncreasing walk.numbers.items × (length walk.views.items ≡ length walk.numbers.items) × (length walk.nodes.items ≡ length walk.numbers.items) × (length walk.chains.items ≡ length walk.numbers.items) × IfSchemaKept walk.stands walk.numbers.items (map option_copied walk.views.items) walk.read.size walk.read.usable walk.read.encoding walk.schema walk.nodes.items walk.chains.items };
}

impl<'a> SchemaWalk<'a> {
    /// The schema of the first moment, as [`schema`] reads it.
    ///
    /// The numbers rise, and each page with a view is among them. The cost is that of [`schema`], of reading each page of its tree
    /// once more, and a look at each number; 22 bytes a number are taken. It answers `AllocError` where memory runs out.
    pub fn start<P: Pages<'a>>(
        alloc: Global,
        pages: &P,
        numbers: &[u32],
        usable: u32,
        encoding: Encoding,
    ) -> Result<Self, AllocError>
        requires rising { IsStrictlyIncreasing numbers.now }
        requires covered { Covers numbers.now (P.view pages.now) }
        requires least { 480 ≤ usable }
        requires within { usable ≤ P.page_size pages.now }
        requires small { P.page_size pages.now ≤ 65536 }
        ensures numbers { IfOk result (λ walk. walk.numbers ≡ numbers.now) }
        ensures stands { IfOk result (IsSchemaAt (P.pages pages.now) (P.view pages.now) usable encoding) }
    {
        let size = pages.size();
        let views = views_of(alloc, pages, numbers)?;
        let mut nodes = vec![in alloc; false; numbers.len()]?;
        let mut chains = vec![in alloc; false; numbers.len()]?;
        mark_on(
            alloc,
            numbers,
            &views,
            usable,
            1,
            &[],
            &mut nodes,
            &mut chains,
        )?;
        let schema = schema(alloc, pages, usable, encoding)?;
        let numbers = numbers.to_vec(alloc)?;
        let read = Read {
            size,
            usable,
            encoding,
        };
        Ok(SchemaWalk {
            alloc,
            numbers,
            views,
            read,
            schema,
            nodes,
            chains,
            stands: true,
        })
    }

    /// Goes to the next moment.
    ///
    /// Each page with a view is among the numbers; `changed` has ranks, and a page whose rank isn't there has the view that it had
    /// at the moment before.
    ///
    /// The schema of the moment before is kept, at the cost of a look at each changed page, where the size, the usable bytes and
    /// the encoding are the same, each page is held as before, and none that changed was a page of the schema's tree or an
    /// overflow page of its rows. Else it is read as by [`schema`], and each changed page of its tree once more; all pages of it
    /// are, where the usable bytes are others. It answers whether the schema was kept, and so is the same. Where it answers
    /// `AllocError`, for want of memory, nothing more is said of the walk but that it goes on.
    pub fn advance<P: Pages<'a>>(
        &mut self,
        pages: &P,
        changed: &[u32],
        usable: u32,
        encoding: Encoding,
    ) -> Result<bool, AllocError>
        requires covered { Covers self.old.numbers (P.view pages.now) }
        requires ranks { All (λ rank. rank < length self.old.numbers) changed.now }
        requires stand { StandBut changed.now self.old.numbers self.old.views (P.view pages.now) }
        requires least { 480 ≤ usable }
        requires within { usable ≤ P.page_size pages.now }
        requires small { P.page_size pages.now ≤ 65536 }
        ensures numbers { OnOk result (self.new.numbers ≡ self.old.numbers) }
        ensures stands { OnOk result (IsSchemaAt (P.pages pages.now) (P.view pages.now) usable encoding self.new) }
        ensures kept { IfOk result (λ kept. kept ≡ true → self.new.entries ≡ self.old.entries) }
    {
        let size = pages.size();
        let read = Read {
            size,
            usable,
            encoding,
        };
        if schema_stands(
            pages,
            &self.numbers,
            changed,
            &self.views,
            self.stands,
            &self.read,
            &read,
            &self.schema,
            &self.nodes,
            &self.chains,
        ) {
            look_again(pages, &self.numbers, changed, &mut self.views);
            return Ok(true);
        }
        let fits = marks_fit(self.stands, self.read.usable, usable);
        self.stands = false;
        look_again(pages, &self.numbers, changed, &mut self.views);
        mark_again(
            self.alloc,
            &self.numbers,
            &self.views,
            fits,
            &Setting {
                size,
                usable,
                root: 1,
            },
            changed,
            &mut self.nodes,
            &mut self.chains,
        )?;
        self.schema = schema(self.alloc, pages, usable, encoding)?;
        self.read = read;
        self.stands = true;
        Ok(false)
    }

    /// The schema of the moment.
    pub fn schema(&self) -> &Schema
        ensures { entries_by result.now ≡ self.now.entries }
    {
        &self.schema
    }
}

/// Whether the schema that is kept of the moment before is that of the next.
fn schema_stands<'a, P: Pages<'a>>(
    pages: &P,
    numbers: &[u32],
    changed: &[u32],
    views: &[Option<&'a [u8]>],
    stands: bool,
    before: &Read,
    read: &Read,
    schema: &Schema,
    nodes: &[bool],
    chains: &[bool],
) -> bool
    requires views { length views.now ≡ length numbers.now }
    requires nodes { length nodes.now ≡ length numbers.now }
    requires chains { length chains.now ≡ length numbers.now }
    requires ranks { All (λ rank. rank < length numbers.now) changed.now }
    requires covered { Covers numbers.now (P.view pages.now) }
    requires stand { StandBut changed.now numbers.now (map option_copied views.now) (P.view pages.now) }
    requires size { read.now.size ≡ P.pages pages.now }
    requires within { read.now.usable ≤ P.page_size pages.now }
    requires small { P.page_size pages.now ≤ 65536 }
    requires kept { IfSchemaKept stands numbers.now (map option_copied views.now) before.now.size before.now.usable before.now.encoding schema.now nodes.now chains.now }
    ensures read { IsTrue result → before.now ≡ read.now }
    ensures entries { IsTrue result → entries_by schema.now ≡ schema_of (P.pages pages.now) (P.view pages.now) read.now.usable read.now.encoding }
    ensures kept { IsTrue result → (stands ≡ true) × IsSchemaKept numbers.now (map (P.view pages.now) numbers.now) before.now.size before.now.usable before.now.encoding schema.now nodes.now chains.now }
{
    let _size = pages.size();
    if !stands || !same_read(before, read) {
        return false;
    }
    if !all_still(pages, numbers, views, nodes, chains, changed) {
        return false;
    }
    true
}

/// Whether two schemas are read alike.
fn same_read(before: &Read, now: &Read) -> bool
    ensures { IsTrue result → before.now ≡ now.now }
{
    before == now
}
