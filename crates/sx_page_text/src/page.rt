//! The text of `page`.
ghost use Rattle.std.specs.Prelude.{◌≡◌, OnOk, string_bytes};
ghost use Rattle.sx_page_text.specs.Page.{mark_text, source_line, page_lines};
ghost use Rattle.sx_page_text.specs.Rest.{page_rest};
ghost use Rattle.sx_lines.specs.Lines.{ended};

use crate::page_body::PageBody;
use std::alloc::AllocError;
use sx_base::Place;
use sx_lines::{Lines, part_name};
use sx_moment::Snapshot;

/// The lines of `page` that are still to come.
#[derive(Drop)]
pub struct PageLines<'a> {
    number: u32,
    source: Option<Place>,
    uncertain: bool,
    body: PageBody<'a>,
    next: PageLine,
}

/// The next line of `page`.
#[derive(Clone, Copy)]
pub enum PageLine {
    /// Where the page's view begins, or that it has none.
    First,
    /// What stands behind that line.
    Body,
}

impl<'a> PageLines<'a> {
    /// All lines over page `no` of a snapshot. The cost is that of finding the page and its head.
    pub fn new(snapshot: &Snapshot<'_, 'a>, no: u32) -> Self
        ensures { page_rest result ≡ page_lines snapshot.now.case.now snapshot.now.moment no }
    {
        PageLines {
            number: no,
            source: snapshot.source(no),
            uncertain: snapshot.uncertain(no),
            body: PageBody::new(snapshot, no),
            next: PageLine::First,
        }
    }
}

// The mark of a page that a checkpoint may have written over.
fn mark_of(uncertain: bool) -> &'static str
    ensures { result.now ≡ mark_text uncertain }
{
    if uncertain { " uncertain" } else { "" }
}

// Puts the first line into `line`.
#[tactic(auto, unfolding(crate::specs::Page::source_line))]
fn put_source_line(
    number: u32,
    source: Option<Place>,
    uncertain: bool,
    line: &mut String,
) -> Result<(), AllocError>
    ensures { OnOk result (string_bytes line.new ≡ ended (source_line number source uncertain)) }
{
    line.clear();
    match source {
        Some(place) => {
            let part = part_name(place.part);
            let offset = place.offset;
            let mark = mark_of(uncertain);
            writeln!(line, "page {number} from {part} offset {offset}{mark}")
        }
        None => writeln!(line, "page {number} absent"),
    }
}

impl Lines for PageLines<'_> {
    ghost use Rattle.sx_page_text.specs.Rest.{page_rest};

    ghost lines = { page_rest };

    fn next_line(&mut self, line: &mut String) -> Result<bool, AllocError> {
        match self.next {
            PageLine::First => {
                put_source_line(self.number, self.source, self.uncertain, line)?;
                self.next = PageLine::Body;
                Ok(true)
            }
            PageLine::Body => self.body.next_line(line),
        }
    }
}
