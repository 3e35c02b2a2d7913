//! A moment with a header, as its pages are gone over.
ghost use Rattle.std.specs.Prelude.{◌≡◌};
ghost use Rattle.sx_moment.specs.Heads.{IsLayout};

use sx_base::Layout;
use sx_images::ImageTable;
use sx_moment::Sweep;
use sx_refs::RefTable;

/// A moment with a header: its pages, what refers to each of them, its layout, and the images of which something is to be known.
#[derive(Drop)]
pub struct Scene<'s, 'c, 'a> {
    pub sweep: &'s Sweep<'c, 'a>,
    pub table: &'s RefTable,
    pub layout: &'s Layout,
    pub images: &'s ImageTable,
    ghost laid: { IsLayout layout.now },
    ghost pages: { layout.now.page_size ≡ sweep.now.case.header.page_size },
    ghost same: { images.now.page_size ≡ layout.now.page_size },
}
