//! What the pages of a moment own, as the table of its references tells it.
ghost use Rattle.std.specs.Prelude.{◌≡◌, ◌<◌, ◌≤◌, length, OnOk};
ghost use Rattle.sx_closure.specs.Tallying.{one_at};
ghost use Rattle.sx_images.specs.Images.{images_of};
ghost use Rattle.sx_moment.specs.Gathered.{size_at};
ghost use Rattle.sx_moment.specs.Heads.{IsLayout};
ghost use Rattle.sx_moment.specs.Views.{view_of, source_of};
ghost use Rattle.sx_owned.specs.Owned.{images_of as owned_images};
ghost use Rattle.sx_prov.specs.Keys.{table_labels};
ghost use Rattle.sx_sweep.specs.Growth.{nowhere, Grows};
ghost use Rattle.sx_sweep.specs.Owning.{one_begins};
ghost use Rattle.sx_sweep.specs.Told.{owning_in, only_in, told_owns, told_begins, any_above, IsSwept};

use crate::page::{add_blocks, add_map};
use std::alloc::{AllocError, Global};
use sx_base::{Layout, Pages};
use sx_images::ImageTable;
use sx_moment::Snapshot;
use sx_owned::OwnedRuns;
use sx_prov::page_map;
use sx_refs::RefTable;

/// Adds what all pages of a moment own, and names their freeblocks.
pub fn add_pages(
    alloc: Global,
    snapshot: &Snapshot<'_, '_>,
    refs: &RefTable,
    layout: &Layout,
    images: &ImageTable,
    owned: &mut OwnedRuns,
) -> Result<(), AllocError>
    requires swept { IsSwept snapshot.now.case.now layout.now images.now owned.old }
    ensures { let case = snapshot.now.case.now in let moment = snapshot.now.moment in OnOk result (Grows owned.old owned.new (λ image at. any_above (told_owns refs.now layout.now (view_of case moment) (source_of case moment) (images_of images.now) image at) 0 (size_at case moment)) (λ image at. any_above (told_begins refs.now layout.now (view_of case moment) (source_of case moment) (images_of images.now) image at) 0 (size_at case moment))) }
{
    let mut after = 0;
    while let Some(no) = snapshot.next_held(after) {
        add_page(alloc, snapshot, refs, layout, images, no, owned)?;
        after = no;
    }
    Ok(())
}

/// Adds what a page owns, and names its freeblocks.
fn add_page(
    alloc: Global,
    snapshot: &Snapshot<'_, '_>,
    refs: &RefTable,
    layout: &Layout,
    images: &ImageTable,
    no: u32,
    owned: &mut OwnedRuns,
) -> Result<(), AllocError>
    requires swept { IsSwept snapshot.now.case.now layout.now images.now owned.old }
    ensures { let case = snapshot.now.case.now in let moment = snapshot.now.moment in OnOk result (Grows owned.old owned.new (λ image at. told_owns refs.now layout.now (view_of case moment) (source_of case moment) (images_of images.now) image at no) (λ image at. told_begins refs.now layout.now (view_of case moment) (source_of case moment) (images_of images.now) image at no)) }
{
    let Some(place) = snapshot.source(no) else {
        return Ok(());
    };
    let Some(image) = images.find(place) else {
        return Ok(());
    };
    add_owned(alloc, snapshot, refs, layout, no, image, owned)?;
    add_begun(snapshot, refs, layout, no, image, owned)
}

/// Adds the bytes that a page owns of the image that is its view.
fn add_owned(
    alloc: Global,
    snapshot: &Snapshot<'_, '_>,
    refs: &RefTable,
    layout: &Layout,
    no: u32,
    image: u32,
    owned: &mut OwnedRuns,
) -> Result<(), AllocError>
    requires layout { IsLayout layout.now }
    requires pages { layout.now.page_size ≡ snapshot.now.case.now.header.page_size }
    requires size { owned.old.page_size ≡ layout.now.page_size }
    requires image { image < owned_images owned.old }
    ensures { OnOk result (Grows owned.old owned.new (only_in image (owning_in (table_labels refs.now layout.now (view_of snapshot.now.case.now snapshot.now.moment) no))) nowhere) }
{
    let map = page_map(alloc, snapshot, refs, layout, no)?;
    add_map(&map, image, owned)
}

/// Names the freeblocks of a page in the image that is its view.
fn add_begun(
    snapshot: &Snapshot<'_, '_>,
    refs: &RefTable,
    layout: &Layout,
    no: u32,
    image: u32,
    owned: &mut OwnedRuns,
) -> Result<(), AllocError>
    requires layout { IsLayout layout.now }
    requires pages { layout.now.page_size ≡ snapshot.now.case.now.header.page_size }
    requires size { owned.old.page_size ≡ layout.now.page_size }
    requires image { image < owned_images owned.old }
    ensures { OnOk result (Grows owned.old owned.new nowhere (only_in image (one_begins (one_at refs.now no) (view_of snapshot.now.case.now snapshot.now.moment no) no layout.now.usable))) }
{
    match snapshot.page(no) {
        Some(view) => add_blocks(refs.role_of(no), view, no, layout.usable, image, owned),
        None => Ok(()),
    }
}
