//! What is owned under some moments.
ghost use Rattle.std.specs.Prelude.{◌≡◌, ℕ, [], None, false, length, map, replicate, IfOk};
ghost use Rattle.sx_images.specs.Images.{images_of};
ghost use Rattle.sx_moment.specs.Gathered.{moments_of};
ghost use Rattle.sx_owned.specs.Owned.{images_of as owned_images, owned_at, block_at, IsFresh};
ghost use Rattle.sx_sweep.specs.Moments.{totals_at};
ghost use Rattle.sx_sweep.specs.Owning.{owned_under, block_under};

use crate::known::Known;
use crate::moment::add_moment;
use crate::passing::{Pass, add_moments};
use crate::totals::Swept;
use std::alloc::{AllocError, Global};
use sx_base::Moment;
use sx_images::ImageTable;
use sx_moment::Case;
use sx_owned::OwnedRuns;
use sx_sums::Sums;

/// The bytes of these images that are owned under some moments, and the places at which freeblocks begin there.
///
/// A byte is owned where some of the moments has a header and its image as the view of a page that uses the byte there; a
/// moment that the evidence doesn't hold owns nothing. The images have the page size of the case.
///
/// At each moment the schema is read, the references are counted and each held page is gone over, anew for each moment. It
/// answers `AllocError` where memory runs out.
pub fn sweep(
    alloc: Global,
    case: &Case<'_>,
    images: &ImageTable,
    moments: &[Moment],
) -> Result<OwnedRuns, AllocError>
    requires { images.now.page_size ≡ case.now.header.page_size }
    ensures count { IfOk result (λ owned. owned_images owned ≡ length (images_of images.now)) }
    ensures size { IfOk result (λ owned. owned.page_size ≡ images.now.page_size) }
    ensures owned { IfOk result (λ owned. (image at : ℕ) → owned_at owned image at ≡ owned_under case.now (images_of images.now) moments.now image at) }
    ensures block { IfOk result (λ owned. (image at : ℕ) → block_at owned image at ≡ block_under case.now (images_of images.now) moments.now image at) }
{
    let mut owned = OwnedRuns::fresh(alloc, images.count(), images.page_size())?;
    for moment in moments {
        add_moment(alloc, case, images, *moment, &mut owned)?;
    }
    Ok(owned)
}

/// The same under all moments of a case, with the totals of each.
///
/// A byte is owned, and a freeblock begins, where [`sweep`] says it of all moments. The totals of a moment are those of the
/// bytes of all its pages, and there are none where it has no header. The images have the page size of the case.
///
/// At each moment with a header the schema is that of the moment before, or is read anew, the references go on from those of the
/// moment before, and the pages are gone over whose views changed or to which something else refers: a page whose view and key
/// are those with which it was labelled last costs a look. Over all pages it goes at the first such moment, where it isn't known
/// to which pages something else refers, and where the usable bytes are others than before. It takes 24 bytes a page for the
/// walk, 64 for what each page was labelled with, what [`RefWalk`](sx_walk::RefWalk) and
/// [`SchemaWalk`](sx_history::SchemaWalk) take, and 40 for each moment. It answers `AllocError` where memory runs out, and
/// nothing else.
pub fn sweep_all(alloc: Global, case: &Case<'_>, images: &ImageTable) -> Result<Swept, AllocError>
    requires { images.now.page_size ≡ case.now.header.page_size }
    ensures count { IfOk result (λ swept. owned_images swept.owned ≡ length (images_of images.now)) }
    ensures size { IfOk result (λ swept. swept.owned.page_size ≡ images.now.page_size) }
    ensures owned { IfOk result (λ swept. (image at : ℕ) → owned_at swept.owned image at ≡ owned_under case.now (images_of images.now) (moments_of case.now) image at) }
    ensures block { IfOk result (λ swept. (image at : ℕ) → block_at swept.owned image at ≡ block_under case.now (images_of images.now) (moments_of case.now) image at) }
    ensures totals { IfOk result (λ swept. swept.totals.items ≡ map (totals_at case.now) (moments_of case.now)) }
{
    let mut sweep = case.sweep(alloc)?;
    let several = case.moments() > 1;
    let mut pass = nothing_known(alloc, images, sweep.ranks(), several)?;
    add_moments(alloc, &mut sweep, images, &mut pass)?;
    let Pass { known, totals, .. } = pass;
    let Known { owned, .. } = known;
    Ok(Swept { owned, totals })
}

/// What is known before the first moment: nothing.
fn nothing_known(
    alloc: Global,
    images: &ImageTable,
    ranks: u32,
    several: bool,
) -> Result<Pass, AllocError>
    ensures fresh { IfOk result (λ pass. IsFresh pass.known.owned (length (images_of images.now)) images.now.page_size) }
    ensures sums { IfOk result (λ pass. pass.known.sums ≡ replicate ranks (record { last = None; shown = false })) }
    ensures totals { IfOk result (λ pass. pass.totals.items ≡ []) }
{
    let owned = OwnedRuns::fresh(alloc, images.count(), images.page_size())?;
    let sums = Sums::fresh(alloc, ranks)?;
    Ok(Pass {
        known: Known {
            owned,
            sums,
            several,
        },
        usable: 0,
        totals: Vec::new(alloc),
    })
}
