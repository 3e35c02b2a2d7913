//! The labels of a page of a moment.
ghost use Rattle.std.specs.Prelude.{◌≡◌, ℕ, ◌<◌, ◌≤◌, map, length, IfOk};
ghost use Rattle.std.specs.List.{range_with_len};
ghost use Rattle.sx_prov.specs.Keys.{AreLabels, table_labels};

use crate::key::page_key;
use crate::keyed::keyed_map;
use crate::map::PageMap;
use std::alloc::{AllocError, Global};
use sx_base::{Label, Layout, Pages};
use sx_refs::RefTable;

/// The map of page `no` of a moment.
///
/// `refs` is what [`sx_refs::references`] gives for these pages, this layout and the schema's roots. The layout's page size
/// is that of the pages, at most 65536, and its usable bytes are from 480 to it. The first that applies of these says what
/// the bytes of the page are: it is the lock-byte page; it has no view; behind the usable bytes they are reserved; by the
/// number of references, none or several; by the one reference's role. The cost is that of [`keyed_map`]. It answers
/// `AllocError` where memory runs out.
pub fn page_map<'a, P: Pages<'a>>(
    alloc: Global,
    pages: &P,
    refs: &RefTable,
    layout: &Layout,
    no: u32,
) -> Result<PageMap, AllocError>
    requires page_size { P.page_size pages.now ≡ layout.now.page_size }
    requires least { 480 ≤ layout.now.usable }
    requires within { layout.now.usable ≤ layout.now.page_size }
    requires small { layout.now.page_size ≤ 65536 }
    ensures exact { IfOk result (λ made. made ≡ table_labels refs.now layout.now (P.view pages.now) no) }
    ensures len { IfOk result (λ made. length made ≡ layout.now.page_size) }
    ensures labels { IfOk result (AreLabels (P.pages pages.now) (P.view pages.now) layout.now refs.now no) }
{
    // That the pages have a size says how long their views are.
    let _size = pages.size();
    let made = table_map(alloc, pages, refs, layout, no)?;
    Ok(made)
}

/// The map of a page by what the table says of it.
#[tactic(auto, unfolding(crate::specs::Keys::table_labels))]
fn table_map<'a, P: Pages<'a>>(
    alloc: Global,
    pages: &P,
    refs: &RefTable,
    layout: &Layout,
    no: u32,
) -> Result<PageMap, AllocError>
    requires page_size { P.page_size pages.now ≡ layout.now.page_size }
    requires least { 480 ≤ layout.now.usable }
    requires within { layout.now.usable ≤ layout.now.page_size }
    requires small { layout.now.page_size ≤ 65536 }
    ensures exact { IfOk result (λ made. made ≡ table_labels refs.now layout.now (P.view pages.now) no) }
    ensures len { IfOk result (λ made. length made ≡ layout.now.page_size) }
{
    if no == layout.lock_page() {
        return one_label(alloc, layout.page_size, Label::LockPage);
    }
    match pages.page(no) {
        None => one_label(alloc, layout.page_size, Label::Absent),
        Some(view) => keyed_map(alloc, view, page_key(pages, refs, layout, no)),
    }
}

/// The map of a page whose bytes have one label.
fn one_label(alloc: Global, len: u32, label: Label) -> Result<PageMap, AllocError>
    requires { len ≤ 65536 }
    ensures exact { IfOk result (λ made. made ≡ map (λ at. label) (range_with_len 0 len)) }
    ensures len { IfOk result (λ made. length made ≡ len) }
{
    let mut made = PageMap::new(alloc);
    made.put(len, label)?;
    Ok(made)
}
