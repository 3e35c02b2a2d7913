//! The totals of a moment without its lines.
ghost use Rattle.std.specs.Prelude.{◌≡◌, ℕ, ℤ, List, ◌≤◌, ◌<◌, ◌+◌, ◌-◌, ◌^◌, IfOk};
ghost use Rattle.sx_base.specs.declared.label.Label.{Label};
ghost use Rattle.sx_closure.specs.Tallying.{IsTableOf};
ghost use Rattle.sx_refs.specs.Pages.{graph_of};
ghost use Rattle.sx_map_text.specs.Map.{totals_of};
ghost use Rattle.sx_map_text.specs.Rest.{moment_labels, with_bytes, AreBytesOf};

use crate::map_lines::absent_bytes;
use crate::totals::MapTotals;
use std::alloc::{AllocError, Global};
use sx_base::{Layout, Pages};
use sx_closure::RefTable;
use sx_prov::{PageMap, Stretch, Stretches, page_map};
use sx_refs::references;

/// How many bytes of a stretch are in each group of labels.
#[derive(Clone, Copy)]
pub struct StretchBytes {
    owned: u64,
    slack: u64,
    fault: u64,
}

/// The totals of the pages of a moment with this layout, whose schema has these roots: what the last line of `map` tells.
///
/// The conditions and the cost are those of [`crate::MapLines`], but no line is made. It answers `AllocError` where memory
/// runs out.
pub fn map_totals<'a, P: Pages<'a>>(
    alloc: Global,
    pages: &P,
    layout: &Layout,
    roots: &[i64],
) -> Result<MapTotals, AllocError>
    requires page_size { P.page_size pages.now ≡ layout.now.page_size }
    requires least { 480 ≤ layout.now.usable }
    requires within { layout.now.usable ≤ layout.now.page_size }
    requires small { layout.now.page_size ≤ 65536 }
    ensures { IfOk result (λ totals. totals ≡ totals_of (graph_of (P.pages pages.now) (P.view pages.now) layout.now roots.now) layout.now (P.view pages.now) (P.pages pages.now)) }
{
    let refs = references(alloc, pages, layout, roots)?;
    let mut totals = MapTotals {
        bytes: u64::from(pages.size()) * u64::from(layout.page_size),
        owned: 0,
        slack: 0,
        fault: 0,
        dead: refs.dead(),
    };
    let mut stretches = Stretches::start(pages, layout);
    while let Some(stretch) = stretches.next() {
        let bytes = bytes_of(alloc, pages, &refs, layout, stretch)?;
        totals = with_bytes(totals, bytes);
    }
    Ok(totals)
}

/// Totals, and the bytes of a stretch besides.
fn with_bytes(totals: MapTotals, bytes: StretchBytes) -> MapTotals
    requires owned { totals.owned + bytes.owned < 2 ^ 64 }
    requires slack { totals.slack + bytes.slack < 2 ^ 64 }
    requires fault { totals.fault + bytes.fault < 2 ^ 64 }
    ensures { result ≡ with_bytes totals bytes }
{
    MapTotals {
        bytes: totals.bytes,
        owned: totals.owned + bytes.owned,
        slack: totals.slack + bytes.slack,
        fault: totals.fault + bytes.fault,
        dead: totals.dead,
    }
}

/// The bytes of a stretch.
fn bytes_of<'a, P: Pages<'a>>(
    alloc: Global,
    pages: &P,
    refs: &RefTable,
    layout: &Layout,
    stretch: Stretch,
) -> Result<StretchBytes, AllocError>
    requires page_size { P.page_size pages.now ≡ layout.now.page_size }
    requires least { 480 ≤ layout.now.usable }
    requires within { layout.now.usable ≤ layout.now.page_size }
    requires small { layout.now.page_size ≤ 65536 }
    ensures { (roots : List ℤ) → IsTableOf (graph_of (P.pages pages.now) (P.view pages.now) layout.now roots) (layout.now.usable - 4) refs.now
        → IfOk result (AreBytesOf (moment_labels (P.pages pages.now) (P.view pages.now) layout.now roots) layout.now.page_size stretch) }
{
    match stretch {
        Stretch::Present(page) => Ok(page_bytes(&page_map(alloc, pages, refs, layout, page)?)),
        Stretch::Absent { first, last } => Ok(StretchBytes {
            owned: 0,
            slack: 0,
            fault: absent_bytes(first, last, layout.page_size),
        }),
    }
}

/// The bytes of a page with that map.
fn page_bytes(map: &PageMap) -> StretchBytes
    ensures { (labels : ℕ → List Label) (page_size page : ℕ) → labels page ≡ map.now → AreBytesOf labels page_size (Stretch.Present page) result }
{
    let totals = map.totals();
    StretchBytes {
        owned: u64::from(totals.owned),
        slack: u64::from(totals.slack),
        fault: u64::from(totals.fault),
    }
}
