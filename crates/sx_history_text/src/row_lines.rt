//! The lines of a moment at which the table has a tree.
ghost use Rattle.std.specs.Prelude.{◌≡◌, ◌≤◌, ◌<◌, ◌+◌, ◌^◌, cond, map, slice_get, IfSome};
ghost use Rattle.std.specs.Option.{option_map};
ghost use Rattle.sx_history.specs.Given.{faults_by, items_by};
ghost use Rattle.sx_moment.specs.Gathered.{size_at};
ghost use Rattle.sx_moment.specs.Views.{view_of};
ghost use Rattle.sx_show_text.specs.Given.{columns_by};
ghost use Rattle.sx_history_text.specs.Histories.{found_printed, rows_lines};

use crate::texts::{put_found, put_last_line};
use std::alloc::{AllocError, Global};
use std::marker::Model;
use std::rc::Rc;
use sx_base::Moment;
use sx_bytes::Encoding;
use sx_history::{Found, History};
use sx_lines::Lines;
use sx_moment::Snapshot;
use sx_row::ChainLengths;
use sx_show_text::Columns;

/// The lines of a moment that are still to come: each row that has the rowid, and how many rows and faults there are.
#[derive(Drop)]
pub struct RowLines<'c, 'a> {
    snapshot: Snapshot<'c, 'a>,
    moment: Moment,
    usable: u32,
    encoding: Encoding,
    shape: Rc<Option<Columns>>,
    history: History,
    at: usize,
    rows: u64,
    ended: bool,
    lengths: ChainLengths,
    room: Vec<u8>,
    own: String,
}

impl<'c, 'a> Model for RowLines<'c, 'a> {
    ghost use Rattle.std.specs.Prelude.{ℕ, List, drop, length, map};
    ghost use Rattle.std.specs.Option.{option_map};
    ghost use Rattle.sx_history.specs.Given.{faults_by, items_by};
    ghost use Rattle.sx_moment.specs.Gathered.{size_at};
    ghost use Rattle.sx_moment.specs.Views.{view_of};
    ghost use Rattle.sx_show_text.specs.Given.{columns_by};
    ghost use Rattle.sx_history_text.specs.Histories.{found_printed};
    ghost use Rattle.sx_history_text.specs.Rest.{lines_from, IsListing};

    ghost Value = { List (List ℕ) };

    ghost view = { λ it. lines_from it.ended it.moment it.rows (faults_by it.history) (map (found_printed (size_at it.snapshot.case.now it.snapshot.moment) (view_of it.snapshot.case.now it.snapshot.moment) it.usable it.encoding (option_map columns_by it.shape.value)) (drop it.at (items_by it.history))) };

    ghost invariant = { λ it. IsListing (size_at it.snapshot.case.now it.snapshot.moment) (view_of it.snapshot.case.now it.snapshot.moment) it.snapshot.case.now.header.page_size it.usable it.lengths it.rows it.at };
}

impl<'c, 'a> RowLines<'c, 'a> {
    /// All lines of a moment at which this was found in the table's tree, over the moment's pages with so many usable bytes: from
    /// 480 to the page size. The shape is that of the table's text, where this gives one, and is shared by the moments at which it is
    /// the same; texts are in this encoding.
    ///
    /// Each line is made when it is written.
    #[tactic(auto, using(crate::proofs::Listing::from_none))]
    pub fn new(
        alloc: Global,
        snapshot: Snapshot<'c, 'a>,
        moment: Moment,
        usable: u32,
        encoding: Encoding,
        shape: Rc<Option<Columns>>,
        history: History,
    ) -> Self
        requires least { 480 ≤ usable }
        requires within { usable ≤ snapshot.case.now.header.page_size }
        requires small { snapshot.case.now.header.page_size ≤ 65536 }
        ensures { result ≡ rows_lines moment (faults_by history) (map (found_printed (size_at snapshot.entry.case.now snapshot.entry.moment) (view_of snapshot.entry.case.now snapshot.entry.moment) usable encoding (option_map columns_by shape.value)) (items_by history)) }
    {
        let lengths = ChainLengths::new(alloc, &snapshot);
        RowLines {
            snapshot,
            moment,
            usable,
            encoding,
            shape,
            history,
            at: 0,
            rows: 0,
            ended: false,
            lengths,
            room: Vec::new(alloc),
            own: String::new(alloc),
        }
    }
}

/// The row at a place among those that were found, if there is one.
#[tactic(auto, using(std::proofs::lemmas::Option::slice_get_past))]
fn found_at(history: &History, at: usize) -> Option<Found>
    ensures found { result ≡ slice_get (items_by history.now) at }
    ensures few { IfSome result (λ _. at + 1 < 2 ^ 64) }
{
    let items = history.items();
    if at >= items.len() {
        return None;
    }
    items.get(at).copied()
}

/// One, or nothing.
fn one_if(counts: bool) -> u64
    ensures { result ≡ cond counts 1 0 }
{
    if counts { 1 } else { 0 }
}

impl<'c, 'a> Lines for RowLines<'c, 'a> {
    ghost lines = { λ it. it };

    fn next_line(&mut self, line: &mut String) -> Result<bool, AllocError> {
        if self.ended {
            return Ok(false);
        }
        let Some(found) = found_at(&self.history, self.at) else {
            put_last_line(self.moment, self.rows, self.history.faults(), line)?;
            self.ended = true;
            return Ok(true);
        };
        let is_row = put_found(
            &self.snapshot,
            self.usable,
            self.encoding,
            self.moment,
            self.shape.as_ref(),
            &mut self.lengths,
            &mut self.room,
            &mut self.own,
            found,
            line,
        )?;
        self.rows += one_if(is_row);
        self.at += 1;
        Ok(true)
    }
}
