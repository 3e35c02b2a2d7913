//! What stands of deleted rows, where nothing uses the bytes at some moments.
ghost use Rattle.std.specs.Prelude.{◌≡◌, true, false, List, [], ◌∷◌, length, map, IfOk, IfErr};
ghost use Rattle.sx_base.specs.declared.moment.Moment.{Moment};
ghost use Rattle.sx_grammar.specs.Choice.{Rises};
ghost use Rattle.sx_moment.specs.Gathered.{moments_of};
ghost use Rattle.sx_moment.specs.Limits.{IsSmall};
ghost use Rattle.sx_sweep.specs.Moments.{totals_at};
ghost use Rattle.sx_app.specs.Carving.{latest, selected, candidates_under, shapes_at, carve_at, IsCarving};
ghost use Rattle.sx_app.specs.declared.refused.Refused.TheVariants.{Memory};

use crate::labels::images_in;
use crate::refused::Refused;
use crate::tables::schema_at;
use std::alloc::{AllocError, Global};
use sx_base::Moment;
use sx_carve::Candidates;
use sx_carve_text::{CarveLines, SpillLines};
use sx_grammar::{Ctx, ShapeKey};
use sx_images::ImageTable;
use sx_moment::{Case, Snapshot};
use sx_owned::OwnedRuns;
use sx_shapes::table_shapes;
use sx_spill::Spill;
use sx_sweep::{MomentTotals, Swept, sweep, sweep_all};
use sx_words::{When, Which};

/// What the lines of `carve` go by: the page images, what of them is owned, and the shapes of tables.
#[derive(Drop)]
pub struct Carving {
    images: ImageTable,
    owned: OwnedRuns,
    shapes: Vec<ShapeKey>,
}

/// What the lines of `carve` under all moments go by, and the totals of each moment that has a header, in order.
#[derive(Drop)]
pub struct Prepared {
    pub carving: Carving,
    pub totals: Vec<Option<MomentTotals>>,
}

/// The last of the moments that are asked for.
pub fn latest(which: Which) -> When
    ensures { result ≡ latest which }
{
    match which {
        Which::All => When::Last,
        Which::One(at) => at,
    }
}

/// What is needed to carve at the moments that are asked for, the last of which is that of the snapshot.
///
/// At one moment the references are counted and each held page is gone over; all moments are gone over as
/// [`prepare_all`] does.
pub fn prepare(
    alloc: Global,
    case: &Case<'_>,
    snapshot: &Snapshot<'_, '_>,
    which: Which,
    moment: Moment,
) -> Result<Carving, Refused>
    requires small { IsSmall case.now.database case.now.wal_bytes case.now.journal_bytes }
    requires case { snapshot.now.case.now ≡ case.now }
    requires moment { moment ≡ snapshot.now.moment }
    ensures told { IfOk result (IsCarving case.now (selected case.now which moment) moment) }
    ensures may { IfErr result (λ refused. refused ≡ Memory) }
{
    match which {
        Which::All => {
            let Prepared { carving, .. } = prepare_all(alloc, case, snapshot, moment)?;
            Ok(carving)
        }
        Which::One(_) => prepare_one(alloc, case, snapshot, moment),
    }
}

/// What is needed to carve under all moments, the last of which is that of the snapshot, and the totals of each moment.
///
/// The moments are gone over once, at the price of what changes from one to the next ([`sweep_all`]).
pub fn prepare_all(
    alloc: Global,
    case: &Case<'_>,
    snapshot: &Snapshot<'_, '_>,
    moment: Moment,
) -> Result<Prepared, Refused>
    requires small { IsSmall case.now.database case.now.wal_bytes case.now.journal_bytes }
    requires case { snapshot.now.case.now ≡ case.now }
    requires moment { moment ≡ snapshot.now.moment }
    ensures told { IfOk result (λ made. IsCarving case.now (moments_of case.now) moment made.carving) }
    ensures totals { IfOk result (λ made. made.totals.items ≡ map (totals_at case.now) (moments_of case.now)) }
    ensures may { IfErr result (λ refused. refused ≡ Memory) }
{
    let images = images_in(alloc, case)?;
    let Swept { owned, totals } = sweep_all(alloc, case, &images)?;
    let shapes = shapes_at(alloc, snapshot)?;
    let carving = Carving {
        images,
        owned,
        shapes,
    };
    Ok(Prepared { carving, totals })
}

/// What is needed to carve at the moment of the snapshot alone.
fn prepare_one(
    alloc: Global,
    case: &Case<'_>,
    snapshot: &Snapshot<'_, '_>,
    moment: Moment,
) -> Result<Carving, Refused>
    requires small { IsSmall case.now.database case.now.wal_bytes case.now.journal_bytes }
    requires case { snapshot.now.case.now ≡ case.now }
    requires moment { moment ≡ snapshot.now.moment }
    ensures told { IfOk result (IsCarving case.now (moment ∷ []) moment) }
    ensures may { IfErr result (λ refused. refused ≡ Memory) }
{
    let images = images_in(alloc, case)?;
    let owned = sweep(alloc, case, &images, &[moment])?;
    Ok(Carving {
        images,
        owned,
        shapes: shapes_at(alloc, snapshot)?,
    })
}

/// The shapes of the tables of a moment; without a head none is known.
#[tactic(auto, unfolding(crate::specs::Carving::shapes_at))]
fn shapes_at(alloc: Global, snapshot: &Snapshot<'_, '_>) -> Result<Vec<ShapeKey>, AllocError>
    ensures shapes { IfOk result (λ shapes. shapes.items ≡ shapes_at snapshot.now.case.now snapshot.now.moment) }
    ensures rise { IfOk result (λ shapes. Rises 1 shapes.items) }
{
    match snapshot.head() {
        None => Ok(Vec::new(alloc)),
        Some(_) => {
            let schema = schema_at(alloc, snapshot)?;
            table_shapes(alloc, &schema)
        }
    }
}

/// How many candidates there are, over what was prepared for `carve`.
pub fn count_candidates(case: &Case<'_>, snapshot: &Snapshot<'_, '_>, made: &Carving) -> u64
    requires case { snapshot.now.case.now ≡ case.now }
    requires made { (moments : List Moment) × IsCarving case.now moments snapshot.now.moment made.now }
    ensures { (moments : List Moment) → IsCarving case.now moments snapshot.now.moment made.now → result ≡ length (candidates_under case.now moments snapshot.now.moment) }
{
    let ctx = Ctx {
        usable: snapshot.layout().usable,
        shapes: made.shapes.as_slice(),
    };
    // That the images have a count says how many candidates there can be.
    let _images = made.images.count();
    let candidates = Candidates::over(case.evidence(), &made.images, &made.owned, ctx);
    candidates.count() as u64
}

/// The lines of `carve`, over what was prepared for it.
#[tactic(auto, unfolding(crate::specs::Carving::carve_at))]
pub fn carve_lines<'t, 'a>(
    case: &Case<'a>,
    snapshot: &Snapshot<'_, '_>,
    made: &'t Carving,
) -> CarveLines<'t, 'a>
    requires case { snapshot.now.case.now ≡ case.now }
    requires made { (moments : List Moment) × IsCarving case.now moments snapshot.now.moment made.now }
    ensures { (moments : List Moment) → IsCarving case.now moments snapshot.now.moment made.now → result ≡ carve_at case.now moments snapshot.now.moment false }
{
    let ctx = Ctx {
        usable: snapshot.layout().usable,
        shapes: made.shapes.as_slice(),
    };
    CarveLines::new(
        case.evidence(),
        &made.images,
        &made.owned,
        ctx,
        snapshot.encoding(),
    )
}

/// The lines of `carve` with completed candidates, over what was prepared for it.
#[tactic(auto, unfolding(crate::specs::Carving::carve_at))]
pub fn spill_lines<'t, 'c, 's, 'a>(
    alloc: Global,
    case: &Case<'a>,
    snapshot: &'t Snapshot<'c, 's>,
    made: &'t Carving,
) -> SpillLines<'t, 'c, 's, 'a>
    requires case { snapshot.now.case.now ≡ case.now }
    requires made { (moments : List Moment) × IsCarving case.now moments snapshot.now.moment made.now }
    ensures { (moments : List Moment) → IsCarving case.now moments snapshot.now.moment made.now → result ≡ carve_at case.now moments snapshot.now.moment true }
{
    let layout = snapshot.layout();
    let ctx = Ctx {
        usable: layout.usable,
        shapes: made.shapes.as_slice(),
    };
    let spill = Spill::over(alloc, snapshot, &made.images, &made.owned, layout.usable);
    SpillLines::new(
        case.evidence(),
        &made.images,
        &made.owned,
        ctx,
        snapshot.encoding(),
        spill,
    )
}
