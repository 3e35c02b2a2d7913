//! The text of `map` at a moment without a head.
ghost use Rattle.std.specs.Prelude.{◌≡◌, OnOk, string_bytes};
ghost use Rattle.sx_lines.specs.Lines.{ended};
ghost use Rattle.sx_map_text.specs.Map.{headless_line, headless_totals, headless_lines, totals_line};
ghost use Rattle.sx_map_text.specs.Rest.{headless_rest};

use crate::totals::{MapTotals, put_totals_line};
use std::alloc::AllocError;
use sx_lines::Lines;

/// The lines of `map` at a moment without a head that are still to come.
#[derive(Drop)]
pub struct HeadlessLines {
    size: u32,
    page_size: u32,
    next: HeadlessLine,
}

/// The next line at a moment without a head.
#[derive(Clone, Copy)]
pub enum HeadlessLine {
    /// All pages, where there are any.
    Pages,
    /// The totals.
    Totals,
    /// None.
    End,
}

impl HeadlessLines {
    /// All lines at a moment of so many pages of this size.
    pub fn new(size: u32, page_size: u32) -> Self
        ensures { headless_rest result ≡ headless_lines size page_size }
    {
        HeadlessLines {
            size,
            page_size,
            next: HeadlessLine::Pages,
        }
    }

    // Puts the line of the totals into `line`.
    fn put_totals(&self, line: &mut String) -> Result<(), AllocError>
        ensures { OnOk result (string_bytes line.new ≡ ended (totals_line (headless_totals self.now.size self.now.page_size))) }
    {
        put_totals_line(headless_totals(self.size, self.page_size), line)
    }
}

/// The totals of a moment without a head that has so many pages of this size: what the last line of `map` tells.
pub fn headless_totals(size: u32, page_size: u32) -> MapTotals
    ensures { result ≡ headless_totals size page_size }
{
    let bytes = u64::from(size) * u64::from(page_size);
    MapTotals {
        bytes,
        owned: 0,
        slack: 0,
        fault: bytes,
        dead: 0,
    }
}

impl Lines for HeadlessLines {
    ghost use Rattle.sx_map_text.specs.Rest.{headless_rest};

    ghost lines = { headless_rest };

    fn next_line(&mut self, line: &mut String) -> Result<bool, AllocError> {
        match self.next {
            HeadlessLine::Pages => {
                if self.size == 0 {
                    self.put_totals(line)?;
                    self.next = HeadlessLine::End;
                } else {
                    put_headless_line(self.size, line)?;
                    self.next = HeadlessLine::Totals;
                }
                Ok(true)
            }
            HeadlessLine::Totals => {
                self.put_totals(line)?;
                self.next = HeadlessLine::End;
                Ok(true)
            }
            HeadlessLine::End => Ok(false),
        }
    }
}

// Puts the line of all pages into `line`.
#[tactic(auto, unfolding(crate::specs::Map::headless_line))]
fn put_headless_line(size: u32, line: &mut String) -> Result<(), AllocError>
    ensures { OnOk result (string_bytes line.new ≡ ended (headless_line size)) }
{
    line.clear();
    writeln!(line, "pages 1-{size} badhead")
}
