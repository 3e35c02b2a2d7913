//! What is owned at one moment.
ghost use Rattle.std.specs.Prelude.{◌≡◌, length, OnOk};
ghost use Rattle.std.specs.List.{list_any, range_with_len};
ghost use Rattle.sx_images.specs.Images.{images_of};
ghost use Rattle.sx_moment.specs.Gathered.{size_at};
ghost use Rattle.sx_moment.specs.Heads.{layout_of};
ghost use Rattle.sx_moment.specs.Views.{view_of, source_of};
ghost use Rattle.sx_owned.specs.Owned.{images_of as owned_images};
ghost use Rattle.sx_sweep.specs.Growth.{Grows};
ghost use Rattle.sx_sweep.specs.Owning.{graph_at, page_owns, page_begins, moment_owns, moment_begins};

use crate::pages::add_pages;
use std::alloc::{AllocError, Global};
use sx_base::{Moment, Pages};
use sx_images::ImageTable;
use sx_moment::{Case, Snapshot};
use sx_owned::OwnedRuns;
use sx_refs::references;
use sx_schema::schema;

/// Adds what is owned at a moment, and names its freeblocks: nothing where the evidence doesn't hold the moment, or where that
/// has no header.
#[tactic(auto, unfolding(crate::specs::Owning::moment_owns, crate::specs::Owning::moment_begins))]
pub fn add_moment(
    alloc: Global,
    case: &Case<'_>,
    images: &ImageTable,
    moment: Moment,
    owned: &mut OwnedRuns,
) -> Result<(), AllocError>
    requires pages { images.now.page_size ≡ case.now.header.page_size }
    requires size { owned.old.page_size ≡ images.now.page_size }
    requires count { owned_images owned.old ≡ length (images_of images.now) }
    ensures { OnOk result (Grows owned.old owned.new (λ image at. moment_owns case.now (images_of images.now) image at moment) (λ image at. moment_begins case.now (images_of images.now) image at moment)) }
{
    let Some(snapshot) = case.snapshot(moment) else {
        return Ok(());
    };
    if snapshot.head().is_none() {
        return Ok(());
    }
    add_headed(alloc, &snapshot, images, owned)
}

/// Adds what is owned at a moment that has a header, and names its freeblocks.
fn add_headed(
    alloc: Global,
    snapshot: &Snapshot<'_, '_>,
    images: &ImageTable,
    owned: &mut OwnedRuns,
) -> Result<(), AllocError>
    requires pages { images.now.page_size ≡ snapshot.now.case.now.header.page_size }
    requires size { owned.old.page_size ≡ images.now.page_size }
    requires count { owned_images owned.old ≡ length (images_of images.now) }
    ensures { let case = snapshot.now.case.now in let moment = snapshot.now.moment in OnOk result (Grows owned.old owned.new (λ image at. list_any (page_owns (graph_at case moment) (layout_of case moment) (view_of case moment) (source_of case moment) (images_of images.now) image at) (range_with_len 1 (size_at case moment))) (λ image at. list_any (page_begins (graph_at case moment) (layout_of case moment) (view_of case moment) (source_of case moment) (images_of images.now) image at) (range_with_len 1 (size_at case moment)))) }
{
    // That the pages have a size says how long their views are.
    let _size = snapshot.size();
    let layout = snapshot.layout();
    let schema = schema(alloc, snapshot, layout.usable, snapshot.encoding())?;
    let refs = references(alloc, snapshot, &layout, schema.roots())?;
    add_pages(alloc, snapshot, &refs, &layout, images, owned)
}
