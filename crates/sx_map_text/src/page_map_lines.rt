//! The lines of one page, and those of absent pages.
ghost use Rattle.std.specs.Prelude.{◌≡◌, [], OnOk, string_bytes};
ghost use Rattle.sx_lines.specs.Lines.{ended};
ghost use Rattle.sx_map_text.specs.Map.{run_line, absent_line, page_lines};
ghost use Rattle.sx_map_text.specs.Rest.{page_rest};

use std::alloc::{AllocError, Global};
use std::vec::IntoIter;
use sx_base::{Label, Span};
use sx_lines::{Lines, put_label};
use sx_prov::PageMap;

/// The lines of `map` over one page that are still to come.
#[derive(Drop)]
pub struct PageMapLines {
    page: u32,
    runs: IntoIter<(Span, Label)>,
}

impl PageMapLines {
    /// All lines over the page of this number with that map. The cost is the number of its runs.
    pub fn new(page: u32, map: PageMap) -> Self
        ensures { page_rest result ≡ page_lines page map }
    {
        PageMapLines {
            page,
            runs: map.into_runs(),
        }
    }

    /// No lines.
    pub(crate) fn none(alloc: Global) -> Self
        ensures { page_rest result ≡ [] }
    {
        let runs: Vec<(Span, Label)> = Vec::new(alloc);
        PageMapLines {
            page: 0,
            runs: runs.into_iter(),
        }
    }
}

impl Lines for PageMapLines {
    ghost use Rattle.sx_map_text.specs.Rest.{page_rest};

    ghost lines = { page_rest };

    fn next_line(&mut self, line: &mut String) -> Result<bool, AllocError> {
        let Some((span, label)) = self.runs.next() else {
            return Ok(false);
        };
        put_run_line(self.page, span, label, line)?;
        Ok(true)
    }
}

// Puts the line of a run of a page into `line`.
#[tactic(auto, unfolding(crate::specs::Map::run_line))]
fn put_run_line(page: u32, span: Span, label: Label, line: &mut String) -> Result<(), AllocError>
    ensures { OnOk result (string_bytes line.new ≡ ended (run_line page (span, label))) }
{
    line.clear();
    let (start, len) = (span.start, span.len);
    write!(line, "page {page} {start} {len} ")?;
    put_label(label, line)?;
    line.push_str("\n")
}

/// Puts the line of the absent pages from one to another into `line`.
#[tactic(auto, unfolding(crate::specs::Map::absent_line))]
pub fn put_absent_line(first: u32, last: u32, line: &mut String) -> Result<(), AllocError>
    ensures { OnOk result (string_bytes line.new ≡ ended (absent_line first last)) }
{
    line.clear();
    writeln!(line, "pages {first}-{last} absent")
}
