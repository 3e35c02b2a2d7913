//! The text of `show`.
ghost use Rattle.std.specs.Prelude.{◌≡◌, ◌≤◌, IfOk};
ghost use Rattle.std.specs.Option.{option_map};
ghost use Rattle.sx_show_text.specs.Given.{columns_by};
ghost use Rattle.sx_show_text.specs.Show.{show_lines};

use crate::columns::{Columns, put_columns_line};
use crate::items::put_next;
use crate::show_line::{Counts, ShowLine};
use std::alloc::{AllocError, Global};
use std::marker::Model;
use sx_base::{PageViews, Pages};
use sx_bytes::Encoding;
use sx_lines::Lines;
use sx_row::ChainLengths;
use sx_tree::Rows;

/// The lines of `show` that are still to come.
///
/// A value is written from its borrow into the line. A payload that its cell holds whole isn't copied, and any other is
/// joined in one buffer that is used again.
#[derive(Drop)]
pub struct ShowLines<'p, 'a, P: PageViews> {
    pages: &'p P,
    usable: u32,
    encoding: Encoding,
    shape: Option<Columns>,
    rows: Rows<'p, 'a, P>,
    lengths: ChainLengths,
    room: Vec<u8>,
    counts: Counts,
    next: ShowLine,
}

impl<'p, 'a, P: PageViews> Model for ShowLines<'p, 'a, P> {
    ghost use Rattle.std.specs.Prelude.{ℕ, List, length, map};
    ghost use Rattle.std.specs.Option.{option_map};
    ghost use Rattle.sx_show_text.specs.Given.{columns_by};
    ghost use Rattle.sx_show_text.specs.Items.{item_printed};
    ghost use Rattle.sx_show_text.specs.Rest.{lines_from, IsShowing};

    ghost Value = { List (List ℕ) };

    ghost view = { λ it. lines_from it.next (option_map columns_by it.shape) it.counts.rows it.counts.faults (map (item_printed (P.pages it.pages.now) (P.view it.pages.now) it.usable it.encoding (option_map columns_by it.shape)) it.rows) };

    ghost invariant = { λ it. IsShowing (P.pages it.pages.now) (P.view it.pages.now) (P.page_size it.pages.now) it.usable it.lengths it.counts (length it.rows) };
}

impl<'p, 'a, P: Pages<'a>> ShowLines<'p, 'a, P> {
    /// All lines over the tree with that root, a page number, over pages with so many usable bytes: from 480 to the page
    /// size, which is at most 65536. The shape is that of the table's text, where this gives one; texts are in the encoding
    /// of the pages' moment.
    ///
    /// It finds the pages of the tree, and answers `AllocError` where memory runs out. Each line is made when it is written:
    /// a row costs its own bytes, and each page of a chain of overflow pages is looked at once more to find how long the
    /// chain is.
    #[tactic(auto, using(crate::proofs::Printing::from_none))]
    pub fn new(
        alloc: Global,
        pages: &'p P,
        usable: u32,
        encoding: Encoding,
        root: u32,
        shape: Option<Columns>,
    ) -> Result<Self, AllocError>
        requires least { 480 ≤ usable }
        requires within { usable ≤ P.page_size pages.now }
        requires small { P.page_size pages.now ≤ 65536 }
        ensures { IfOk result (λ lines. lines ≡ show_lines (P.pages pages.now) (P.view pages.now) usable encoding root (option_map columns_by shape)) }
    {
        let rows = Rows::start(alloc, pages, usable, root)?;
        Ok(ShowLines {
            pages,
            usable,
            encoding,
            shape,
            rows,
            lengths: ChainLengths::new(alloc, pages),
            room: Vec::new(alloc),
            counts: Counts { rows: 0, faults: 0 },
            next: ShowLine::Columns,
        })
    }
}

impl<'p, 'a, P: Pages<'a>> Lines for ShowLines<'p, 'a, P> {
    ghost lines = { λ it. it };

    fn next_line(&mut self, line: &mut String) -> Result<bool, AllocError> {
        match self.next {
            ShowLine::Columns => {
                put_columns_line(&self.shape, line)?;
                self.next = ShowLine::Items;
                Ok(true)
            }
            ShowLine::Items => {
                let more = put_next(
                    self.pages,
                    self.usable,
                    self.encoding,
                    &self.shape,
                    &mut self.rows,
                    &mut self.lengths,
                    &mut self.room,
                    &mut self.counts,
                    line,
                )?;
                if !more {
                    self.next = ShowLine::End;
                }
                Ok(true)
            }
            ShowLine::End => Ok(false),
        }
    }
}
