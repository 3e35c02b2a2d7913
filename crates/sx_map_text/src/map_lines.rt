//! The text of `map` at a moment with a head.
ghost use Rattle.std.specs.Prelude.{◌≡◌, ℕ, ℤ, List, ◌≤◌, ◌<◌, ◌+◌, ◌-◌, ◌*◌, ◌^◌, length, IfOk, string_bytes};
ghost use Rattle.sx_base.specs.declared.label.Label.{Label};
ghost use Rattle.sx_closure.specs.Tallying.{IsTableOf};
ghost use Rattle.sx_refs.specs.Pages.{graph_of};
ghost use Rattle.sx_map_text.specs.Map.{map_lines};
ghost use Rattle.sx_map_text.specs.Rest.{with_begun, IsBegun, moment_labels};

use crate::page_map_lines::{PageMapLines, put_absent_line};
use crate::totals::{MapTotals, put_totals_line};
use std::alloc::{AllocError, Global};
use std::marker::Model;
use sx_base::{Layout, PageViews, Pages};
use sx_closure::RefTable;
use sx_lines::Lines;
use sx_prov::{PageMap, Stretch, Stretches, page_map};
use sx_refs::references;

/// The lines of `map` at a moment with a head that are still to come.
///
/// The map of one page at a time is in memory. Pages that the evidence doesn't hold cost one step for each stretch of them,
/// however long that is.
#[derive(Drop)]
pub struct MapLines<'p, 'a, P: PageViews> {
    alloc: Global,
    pages: &'p P,
    layout: Layout,
    roots: &'p [i64],
    refs: RefTable,
    stretches: Stretches<'p, 'a, P>,
    begun: PageMapLines,
    totals: MapTotals,
    next: MapLine,
}

/// The next line of `map`.
#[derive(Clone, Copy)]
pub enum MapLine {
    /// The next run of the page that was begun, else the first line of the stretch behind it, else the totals.
    Pages,
    /// None.
    End,
}

impl<'p, 'a, P: PageViews> Model for MapLines<'p, 'a, P> {
    ghost use Rattle.std.specs.Prelude.{ℕ, List};
    ghost use Rattle.sx_map_text.specs.Rest.{map_from, moment_labels, page_rest, IsMapping};

    ghost Value = { List (List ℕ) };

    ghost view = { λ it. map_from it.next (page_rest it.begun) (moment_labels (P.pages it.pages.now) (P.view it.pages.now) it.layout it.roots.now) it.layout.page_size it.totals it.stretches };

    ghost invariant = { λ it. IsMapping (P.pages it.pages.now) (P.page_size it.pages.now) (P.view it.pages.now) it.layout it.roots.now it.refs it.totals it.stretches };
}

impl<'p, 'a, P: Pages<'a>> MapLines<'p, 'a, P> {
    /// All lines over the pages of a moment with this layout, whose schema has these roots.
    ///
    /// The layout's page size is that of the pages, at most 65536 and not 0, and its usable bytes are from 480 to it. It finds
    /// what refers to each page (see [`sx_refs::references`]), and answers `AllocError` where memory runs out. Each line is
    /// made when it is written: a page costs its map, and pages that the evidence doesn't hold next to nothing, whatever size
    /// the moment claims.
    pub fn new(
        alloc: Global,
        pages: &'p P,
        layout: Layout,
        roots: &'p [i64],
    ) -> Result<Self, AllocError>
        requires page_size { P.page_size pages.now ≡ layout.page_size }
        requires least { 480 ≤ layout.usable }
        requires within { layout.usable ≤ layout.page_size }
        requires small { layout.page_size ≤ 65536 }
        ensures { IfOk result (λ lines. lines ≡ map_lines (graph_of (P.pages pages.now) (P.view pages.now) layout roots.now) layout (P.view pages.now) (P.pages pages.now)) }
    {
        let refs = references(alloc, pages, &layout, roots)?;
        let totals = MapTotals {
            bytes: u64::from(pages.size()) * u64::from(layout.page_size),
            owned: 0,
            slack: 0,
            fault: 0,
            dead: refs.dead(),
        };
        Ok(MapLines {
            alloc,
            pages,
            layout,
            roots,
            refs,
            stretches: Stretches::start(pages, &layout),
            begun: PageMapLines::none(alloc),
            totals,
            next: MapLine::Pages,
        })
    }
}

impl<'p, 'a, P: Pages<'a>> Lines for MapLines<'p, 'a, P> {
    ghost lines = { λ it. it };

    fn next_line(&mut self, line: &mut String) -> Result<bool, AllocError> {
        match self.next {
            MapLine::End => Ok(false),
            MapLine::Pages => {
                if self.begun.next_line(line)? {
                    return Ok(true);
                }
                match self.stretches.next() {
                    Some(stretch) => {
                        let begun = begin(
                            self.alloc,
                            self.pages,
                            &self.refs,
                            &self.layout,
                            stretch,
                            line,
                        )?;
                        self.totals = with_begun(self.totals, &begun);
                        self.begun = begun.lines;
                        Ok(true)
                    }
                    None => {
                        put_totals_line(self.totals, line)?;
                        self.next = MapLine::End;
                        Ok(true)
                    }
                }
            }
        }
    }
}

/// A stretch whose first line was put: the lines to come, and how many of its bytes are in each group.
#[derive(Drop)]
struct Begun {
    lines: PageMapLines,
    owned: u64,
    slack: u64,
    fault: u64,
}

/// Totals, and the bytes of a stretch besides.
fn with_begun(totals: MapTotals, begun: &Begun) -> MapTotals
    requires owned { totals.owned + begun.now.owned < 2 ^ 64 }
    requires slack { totals.slack + begun.now.slack < 2 ^ 64 }
    requires fault { totals.fault + begun.now.fault < 2 ^ 64 }
    ensures { result ≡ with_begun totals begun.now }
{
    MapTotals {
        bytes: totals.bytes,
        owned: totals.owned + begun.owned,
        slack: totals.slack + begun.slack,
        fault: totals.fault + begun.fault,
        dead: totals.dead,
    }
}

/// Puts the first line of a stretch into `line`.
fn begin<'a, P: Pages<'a>>(
    alloc: Global,
    pages: &P,
    refs: &RefTable,
    layout: &Layout,
    stretch: Stretch,
    line: &mut String,
) -> Result<Begun, AllocError>
    requires page_size { P.page_size pages.now ≡ layout.now.page_size }
    requires least { 480 ≤ layout.now.usable }
    requires within { layout.now.usable ≤ layout.now.page_size }
    requires small { layout.now.page_size ≤ 65536 }
    ensures { (roots : List ℤ) → IsTableOf (graph_of (P.pages pages.now) (P.view pages.now) layout.now roots) (layout.now.usable - 4) refs.now
        → IfOk result (λ begun. IsBegun (moment_labels (P.pages pages.now) (P.view pages.now) layout.now roots) layout.now.page_size stretch begun (string_bytes line.new)) }
{
    match stretch {
        Stretch::Present(page) => {
            begin_page(page, page_map(alloc, pages, refs, layout, page)?, line)
        }
        Stretch::Absent { first, last } => {
            put_absent_line(first, last, line)?;
            Ok(Begun {
                lines: PageMapLines::none(alloc),
                owned: 0,
                slack: 0,
                fault: absent_bytes(first, last, layout.page_size),
            })
        }
    }
}

/// The bytes of absent pages from one to another.
pub fn absent_bytes(first: u32, last: u32, page_size: u32) -> u64
    ensures { result ≡ (last + 1 - first) * page_size }
{
    let pages = (u64::from(last) + 1).saturating_sub(u64::from(first));
    pages * u64::from(page_size)
}

/// Puts the first line of a page with that map, which isn't empty, into `line`.
fn begin_page(page: u32, map: PageMap, line: &mut String) -> Result<Begun, AllocError>
    requires { 0 < length map }
    ensures { (labels : ℕ → List Label) (page_size : ℕ) → labels page ≡ map → IfOk result (λ begun. IsBegun labels page_size (Stretch.Present page) begun (string_bytes line.new)) }
{
    let totals = map.totals();
    let mut lines = PageMapLines::new(page, map);
    if !lines.next_line(line)? {
        unreachable!();
    }
    Ok(Begun {
        lines,
        owned: u64::from(totals.owned),
        slack: u64::from(totals.slack),
        fault: u64::from(totals.fault),
    })
}
