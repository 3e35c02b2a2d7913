//! The moments of a case, one after the other.
ghost use Rattle.std.specs.Prelude.{◌≡◌, ◌-◌, ◌++◌, ◌∷◌, ℕ, [], Some, None, map, slice_get, IfOk, OnOk};
ghost use Rattle.std.specs.Option.{option_map};
ghost use Rattle.sx_header.specs.declared.header.Header.{Header};
ghost use Rattle.sx_images.specs.Images.{images_of};
ghost use Rattle.sx_closure.specs.Tallying.{IsTableOf};
ghost use Rattle.sx_moment.specs.Gathered.{moments_of};
ghost use Rattle.sx_moment.specs.Heads.{layout_of, IsLayout};
ghost use Rattle.sx_sweep.specs.Growth.{Grows};
ghost use Rattle.sx_sweep.specs.Moments.{totals_by, totals_at};
ghost use Rattle.sx_sweep.specs.Owning.{graph_at, moment_owns, moment_begins, owned_under, block_under};
ghost use Rattle.sx_schemas.specs.Behind.{HasViews, IsReadBehind};
ghost use Rattle.sx_sweep.specs.Behind.{IsBehind};
ghost use Rattle.sx_sweep.specs.Passing.{IsKnown, IsBefore, IsReached, IsHeaded};

use crate::headed::go_over;
use crate::known::Known;
use crate::totals::MomentTotals;
use std::alloc::{AllocError, Global};
use sx_base::{Layout, Pages};
use sx_history::SchemaWalk;
use sx_images::ImageTable;
use sx_moment::Sweep;
use sx_schemas::walk_schema;
use sx_sums::moment_totals;
use sx_walk::RefWalk;

/// What stands at the last settled moment: the references, and the schema that gave their roots.
#[derive(Drop)]
pub struct Behind<'a> {
    pub walk: RefWalk<'a>,
    pub schemas: SchemaWalk<'a>,
}

/// What is known after some moments: of their pages, how many bytes were usable at the last one with a header, and the totals
/// of each.
#[derive(Drop)]
pub struct Pass {
    pub known: Known,
    pub usable: u32,
    pub totals: Vec<Option<MomentTotals>>,
}

/// Adds all moments, from the first on.
pub fn add_moments(
    alloc: Global,
    sweep: &mut Sweep<'_, '_>,
    images: &ImageTable,
    pass: &mut Pass,
) -> Result<(), AllocError>
    requires first { sweep.old.place ≡ 0 }
    requires pages { images.now.page_size ≡ sweep.old.case.header.page_size }
    requires known { IsKnown sweep.old.case sweep.old.numbers images.now pass.old.known.owned pass.old.known.sums }
    requires none { pass.old.totals.items ≡ [] }
    ensures grows { OnOk result (Grows pass.old.known.owned pass.new.known.owned (owned_under sweep.old.case (images_of images.now) (moments_of sweep.old.case)) (block_under sweep.old.case (images_of images.now) (moments_of sweep.old.case))) }
    ensures totals { OnOk result (pass.new.totals.items ≡ map (totals_at sweep.old.case) (moments_of sweep.old.case)) }
{
    let mut behind = add_moment(alloc, sweep, images, None, pass)?;
    while sweep.next() {
        behind = add_moment(alloc, sweep, images, behind, pass)?;
    }
    Ok(())
}

/// Adds the moment in hand. Answers what stands at the last one with a header.
#[tactic(auto, unfolding(crate::specs::Moments::totals_at, crate::specs::Owning::moment_owns, crate::specs::Owning::moment_begins))]
fn add_moment<'a>(
    alloc: Global,
    sweep: &mut Sweep<'_, 'a>,
    images: &ImageTable,
    behind: Option<Behind<'a>>,
    pass: &mut Pass,
) -> Result<Option<Behind<'a>>, AllocError>
    requires pages { images.now.page_size ≡ sweep.old.case.header.page_size }
    requires known { IsKnown sweep.old.case sweep.old.numbers images.now pass.old.known.owned pass.old.known.sums }
    requires before { IsBehind sweep.old behind pass.old.usable pass.old.known.sums }
    ensures case { sweep.new.case ≡ sweep.old.case }
    ensures place { sweep.new.place ≡ sweep.old.place }
    ensures numbers { sweep.new.numbers ≡ sweep.old.numbers }
    ensures there { slice_get (moments_of sweep.old.case) sweep.old.place ≡ Some sweep.old.moment }
    ensures grows { IfOk result (λ next. Grows pass.old.known.owned pass.new.known.owned (λ image at. moment_owns sweep.old.case (images_of images.now) image at sweep.old.moment) (λ image at. moment_begins sweep.old.case (images_of images.now) image at sweep.old.moment)) }
    ensures totals { IfOk result (λ next. pass.new.totals.items ≡ pass.old.totals.items ++ totals_at sweep.old.case sweep.old.moment ∷ []) }
    ensures known { IfOk result (λ next. IsKnown sweep.old.case sweep.old.numbers images.now pass.new.known.owned pass.new.known.sums) }
    ensures before { IfOk result (λ next. IsBehind sweep.new next pass.new.usable pass.new.known.sums) }
{
    let _moment = sweep.moment();
    if sweep.snapshot().head().is_none() {
        pass.totals.push(None)?;
        return Ok(behind);
    }
    let behind = add_headed(alloc, sweep, images, behind, pass)?;
    sweep.settled();
    Ok(Some(behind))
}

/// Adds a moment that has a header. Answers what stands there.
fn add_headed<'a>(
    alloc: Global,
    sweep: &Sweep<'_, 'a>,
    images: &ImageTable,
    behind: Option<Behind<'a>>,
    pass: &mut Pass,
) -> Result<Behind<'a>, AllocError>
    requires pages { images.now.page_size ≡ sweep.now.case.header.page_size }
    requires known { IsKnown sweep.now.case sweep.now.numbers images.now pass.old.known.owned pass.old.known.sums }
    requires before { IsBehind sweep.now behind pass.old.usable pass.old.known.sums }
    ensures headed { IfOk result (λ next. IsHeaded sweep.now.case sweep.now.moment sweep.now.numbers images.now pass.old.known.owned pass.new.known.owned pass.new.known.sums next.walk) }
    ensures read { IfOk result (λ next. HasViews sweep.now.case sweep.now.moment sweep.now.numbers next.schemas) }
    ensures usable { IfOk result (λ next. pass.new.usable ≡ (layout_of sweep.now.case sweep.now.moment).usable) }
    ensures totals { IfOk result (λ next. (head : Header) → pass.new.totals.items ≡ pass.old.totals.items ++ totals_by sweep.now.case sweep.now.moment (Some head) ∷ []) }
{
    let layout = sweep.snapshot().layout();
    let (walk, schemas) = apart(behind);
    let behind = walk_on(
        alloc,
        sweep,
        images,
        &layout,
        walk,
        schemas,
        pass.usable,
        &mut pass.known,
    )?;
    let here = headed_totals(sweep, images, &layout, &behind.walk, &pass.known);
    pass.usable = layout.usable;
    pass.totals.push(Some(here))?;
    Ok(behind)
}

/// The references and the schema, each for itself.
fn apart<'a>(behind: Option<Behind<'a>>) -> (Option<RefWalk<'a>>, Option<SchemaWalk<'a>>)
    ensures walk { result.0 ≡ option_map (λ it. it.walk) behind.entry }
    ensures schemas { result.1 ≡ option_map (λ it. it.schemas) behind.entry }
{
    match behind {
        Some(behind) => (Some(behind.walk), Some(behind.schemas)),
        None => (None, None),
    }
}

/// Goes over the pages of a moment that has a header, with the references that its schema gives.
fn walk_on<'a>(
    alloc: Global,
    sweep: &Sweep<'_, 'a>,
    images: &ImageTable,
    layout: &Layout,
    walk: Option<RefWalk<'a>>,
    schemas: Option<SchemaWalk<'a>>,
    usable: u32,
    known: &mut Known,
) -> Result<Behind<'a>, AllocError>
    requires pages { images.now.page_size ≡ sweep.now.case.header.page_size }
    requires layout { layout.now ≡ layout_of sweep.now.case sweep.now.moment }
    requires laid { IsLayout layout.now }
    requires known { IsKnown sweep.now.case sweep.now.numbers images.now known.old.owned known.old.sums }
    requires before { IsBefore sweep.now walk usable known.old.sums }
    requires read { IsReadBehind sweep.now schemas }
    ensures headed { IfOk result (λ next. IsHeaded sweep.now.case sweep.now.moment sweep.now.numbers images.now known.old.owned known.new.owned known.new.sums next.walk) }
    ensures read { IfOk result (λ next. HasViews sweep.now.case sweep.now.moment sweep.now.numbers next.schemas) }
{
    // That the pages have a size says how long their views are, and that they have numbers where these stand.
    let _size = sweep.size();
    let _numbers = sweep.numbers();
    let snapshot = sweep.snapshot();
    snapshot.views_lie();
    let here = walk_schema(alloc, sweep, schemas, layout.usable, snapshot.encoding())?;
    let roots = here.walk.schema().roots();
    let walk = go_over(alloc, sweep, images, layout, roots, walk, usable, known)?;
    Ok(Behind {
        walk,
        schemas: here.walk,
    })
}

/// The totals of a moment whose pages were gone over.
fn headed_totals(
    sweep: &Sweep<'_, '_>,
    images: &ImageTable,
    layout: &Layout,
    walk: &RefWalk<'_>,
    known: &Known,
) -> MomentTotals
    requires layout { layout.now ≡ layout_of sweep.now.case sweep.now.moment }
    requires laid { IsLayout layout.now }
    requires known { IsKnown sweep.now.case sweep.now.numbers images.now known.now.owned known.now.sums }
    requires reached { IsReached sweep.now.case sweep.now.moment sweep.now.numbers walk.now layout.now.usable known.now.sums }
    requires table { IsTableOf (graph_at sweep.now.case sweep.now.moment) (layout.now.usable - 4) walk.now.table }
    ensures { (head : Header) → Some result ≡ totals_by sweep.now.case sweep.now.moment (Some head) }
{
    let _numbers = sweep.numbers();
    let snapshot = sweep.snapshot();
    snapshot.views_lie();
    let here = moment_totals(&known.sums, sweep.size(), sweep.held(), layout);
    MomentTotals {
        owned: here.owned,
        slack: here.slack,
        fault: here.fault,
        dead: walk.table().dead(),
    }
}
