//! The header of a moment, and the layout and the encoding by it.
ghost use Rattle.std.specs.Prelude.{◌≡◌, option_copied, IfSome};
ghost use Rattle.sx_header.specs.Header.{header_of};
ghost use Rattle.sx_moment.specs.Heads.{accepted, head_in, head_of, layout_of, encoding_at, FitsPages, IsLayout};

use crate::snapshot::Snapshot;
use sx_base::{Layout, Pages};
use sx_bytes::Encoding;
use sx_header::{Header, read_header};

impl<'c, 'a> Snapshot<'c, 'a> {
    /// The header of the moment's page 1, and `None` exactly where that has no view, isn't accepted or has another page
    /// size than the file's header.
    #[tactic(auto, unfolding(crate::specs::Heads::head_of))]
    pub fn head(&self) -> Option<Header>
        ensures { result ≡ head_of self.now.case.now self.now.moment }
    {
        head_in(self.case.header().page_size, self.page(1))
    }

    /// Where pages of their own kind stand, by the header of the moment. Without one the usable bytes are those of the
    /// file's header, and there are neither pointer maps nor a freelist.
    #[tactic(auto, unfolding(crate::specs::Heads::head_of))]
    pub fn layout(&self) -> Layout
        ensures layout { result ≡ layout_of self.now.case.now self.now.moment }
        ensures ranges { IsLayout result }
    {
        let page_size = self.case.header().page_size;
        let pages = self.size();
        match head_in(page_size, self.page(1)) {
            Some(head) => Layout {
                page_size,
                usable: head.usable,
                pages,
                pointer_maps: head.largest_root != 0,
                free_head: head.free_head,
            },
            None => Layout {
                page_size,
                usable: self.case.header().usable,
                pages,
                pointer_maps: false,
                free_head: 0,
            },
        }
    }

    /// The encoding of the moment's texts, by its header, and without one by the file's.
    pub fn encoding(&self) -> Encoding
        ensures { result ≡ encoding_at self.now.case.now self.now.moment }
    {
        match self.head() {
            Some(head) => head.text(),
            None => self.case.header().text(),
        }
    }
}

// The header in a view of page 1, where that is accepted and of this page size.
fn head_in(page_size: u32, view: Option<&[u8]>) -> Option<Header>
    ensures header { result ≡ head_in page_size (option_copied view.entry) }
    ensures ranges { IfSome result (FitsPages page_size) }
{
    match view {
        Some(page) => accepted(page_size, page),
        None => None,
    }
}

// The header of a page 1, where it is accepted and of this page size.
fn accepted(page_size: u32, page: &[u8]) -> Option<Header>
    ensures header { result ≡ accepted page_size (header_of page.now) }
    ensures ranges { IfSome result (FitsPages page_size) }
{
    match read_header(page) {
        Ok(header) if header.page_size == page_size => Some(header),
        _ => None,
    }
}
