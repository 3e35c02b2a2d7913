//! What `page` prints behind its first line.
ghost use Rattle.std.specs.Prelude.{◌≡◌, ◌≤◌, length, Some};
ghost use Rattle.sx_moment.specs.Heads.{layout_of};
ghost use Rattle.sx_moment.specs.Views.{view_of};
ghost use Rattle.sx_page_text.specs.Page.{page_body};
ghost use Rattle.sx_page_text.specs.Rest.{body_rest};

use crate::node_lines::NodeLines;
use crate::node_text::put_fault_line;
use std::alloc::AllocError;
use sx_base::Pages;
use sx_lines::Lines;
use sx_moment::Snapshot;
use sx_node::{NodeFault, read_node};

/// The lines behind the first that are still to come.
#[derive(Drop)]
pub enum PageBody<'a> {
    /// There is none.
    End,
    /// The view is no page of a b-tree.
    Fault(NodeFault),
    /// The view is one.
    Node(NodeLines<'a>),
}

impl<'a> PageBody<'a> {
    /// All lines over the view of page `no` of a snapshot. The cost is that of finding the page and its head.
    pub fn new(snapshot: &Snapshot<'_, 'a>, no: u32) -> Self
        ensures { body_rest result ≡ page_body no (layout_of snapshot.now.case.now snapshot.now.moment).usable (view_of snapshot.now.case.now snapshot.now.moment no) }
    {
        let layout = snapshot.layout();
        match snapshot.page(no) {
            Some(page) => PageBody::of_page(page, no, layout.usable),
            None => PageBody::End,
        }
    }

    // All lines over a page with so many bytes in use.
    fn of_page(page: &'a [u8], no: u32, usable: u32) -> Self
        requires least { 480 ≤ usable }
        requires within { usable ≤ length page.now }
        requires small { length page.now ≤ 65536 }
        ensures { body_rest result ≡ page_body no usable (Some page.now) }
    {
        match read_node(page, no, usable) {
            Ok(node) => PageBody::Node(NodeLines::new(node)),
            Err(fault) => PageBody::Fault(fault),
        }
    }
}

impl Lines for PageBody<'_> {
    ghost use Rattle.sx_page_text.specs.Rest.{body_rest};

    ghost lines = { body_rest };

    fn next_line(&mut self, line: &mut String) -> Result<bool, AllocError> {
        match self {
            PageBody::End => Ok(false),
            PageBody::Fault(fault) => {
                put_fault_line(*fault, line)?;
                *self = PageBody::End;
                Ok(true)
            }
            PageBody::Node(lines) => lines.next_line(line),
        }
    }
}
