//! What the bytes of the evidence are at a moment.
ghost use Rattle.std.specs.Prelude.{◌≡◌, ◌<◌, ◌-◌, ℕ, IfOk, IfErr, length, option_copied};
ghost use Rattle.std.specs.Option.{option_map};
ghost use Rattle.sx_map_text.specs.Map.{headless_lines, map_lines};
ghost use Rattle.sx_map_text.specs.Rest.{headless_rest};
ghost use Rattle.sx_explain_text.specs.Rest.{explain_rest};
ghost use Rattle.sx_moment.specs.Gathered.{size_at};
ghost use Rattle.sx_moment.specs.Heads.{head_of, layout_of};
ghost use Rattle.sx_moment.specs.Limits.{IsSmall};
ghost use Rattle.sx_moment.specs.Views.{view_of};
ghost use Rattle.sx_prov.specs.Labels.{label_of};
ghost use Rattle.sx_closure.specs.Tallying.{IsTableOf};
ghost use Rattle.sx_app.specs.Labels.{explain_at, graph_at, image_label, images_in, label_by, lengths_in, physical_label, roots_at, same_part, stands_at, MayLackByte};
ghost use Rattle.sx_app.specs.Owed.{Gives};
ghost use Rattle.sx_app.specs.declared.refused.Refused.TheVariants.{Memory};

use crate::refused::Refused;
use crate::tables::schema_at;
use std::alloc::Global;
use sx_base::{Label, Moment, Pages, Part, Place};
use sx_explain_text::ExplainLines;
use sx_images::{Image, ImageTable, Lengths, Physical, images};
use sx_map_text::{HeadlessLines, MapLines};
use sx_moment::{Case, Snapshot};
use sx_prov::page_map;
use sx_refs::{RefTable, references};

/// The lines of `map` at a moment without a head.
#[tactic(auto, using(crate::proofs::Layouts::page_size_is))]
pub fn headless_lines(snapshot: &Snapshot<'_, '_>) -> HeadlessLines
    ensures { headless_rest result ≡ headless_lines (size_at snapshot.now.case.now snapshot.now.moment) snapshot.now.case.now.header.page_size }
{
    HeadlessLines::new(snapshot.size(), snapshot.layout().page_size)
}

/// The lines of `map` at a moment with a head, whose schema has these roots.
#[tactic(auto, using(crate::proofs::Layouts::page_size_is))]
pub fn map_lines<'p, 'c, 'a>(
    alloc: Global,
    snapshot: &'p Snapshot<'c, 'a>,
    roots: &'p [i64],
) -> Result<MapLines<'p, 'a, Snapshot<'c, 'a>>, Refused>
    requires { roots.now ≡ roots_at snapshot.now.case.now snapshot.now.moment }
    ensures told { IfOk result (λ lines. lines ≡ map_lines (graph_at snapshot.now.case.now snapshot.now.moment) (layout_of snapshot.now.case.now snapshot.now.moment) (view_of snapshot.now.case.now snapshot.now.moment) (size_at snapshot.now.case.now snapshot.now.moment)) }
    ensures may { IfErr result (λ refused. refused ≡ Memory) }
{
    let layout = snapshot.layout();
    let lines = MapLines::new(alloc, snapshot, layout, roots)?;
    Ok(lines)
}

/// The roots of the schema of a moment.
#[tactic(auto, unfolding(crate::specs::Labels::roots_at))]
pub fn roots_at(alloc: Global, snapshot: &Snapshot<'_, '_>) -> Result<Vec<i64>, Refused>
    ensures told { IfOk result (λ roots. roots.items ≡ roots_at snapshot.now.case.now snapshot.now.moment) }
    ensures may { IfErr result (λ refused. refused ≡ Memory) }
{
    let schema = schema_at(alloc, snapshot)?;
    let roots = Vec::from_slice(alloc, schema.roots())?;
    Ok(roots)
}

/// The lengths of the three files.
fn lengths_in(case: &Case<'_>) -> Lengths
    ensures { result ≡ lengths_in case.now }
{
    let evidence = case.evidence();
    Lengths {
        database: evidence.database.len() as u64,
        wal: length_in(evidence.wal),
        journal: length_in(evidence.journal),
    }
}

/// The length of a file, where there is one.
fn length_in(file: Option<&[u8]>) -> Option<u64>
    ensures { result ≡ option_map length (option_copied file.entry) }
{
    match file {
        Some(bytes) => Some(bytes.len() as u64),
        None => None,
    }
}

/// The page images of the three files.
#[tactic(auto, unfolding(crate::specs::Labels::images_in))]
pub fn images_in(alloc: Global, case: &Case<'_>) -> Result<ImageTable, Refused>
    requires { IsSmall case.now.database case.now.wal_bytes case.now.journal_bytes }
    ensures told { IfOk result (λ images. images ≡ images_in case.now) }
    ensures may { IfErr result (λ refused. refused ≡ Memory) }
{
    let made = images(
        alloc,
        case.header().page_size,
        lengths_in(case),
        case.wal(),
        case.journal(),
    )?;
    Ok(made)
}

/// The lines of `explain` over a byte, with these images of the case. `NoByte` comes exactly where its file ends before it.
#[tactic(auto, unfolding(crate::specs::Labels::explain_at))]
pub fn explain_lines<'t>(
    alloc: Global,
    case: &Case<'_>,
    snapshot: &Snapshot<'_, '_>,
    moment: Moment,
    images: &'t ImageTable,
    place: Place,
) -> Result<ExplainLines<'t>, Refused>
    requires images { images.now ≡ images_in case.now }
    requires case { snapshot.now.case.now ≡ case.now }
    requires moment { moment ≡ snapshot.now.moment }
    ensures told { Gives explain_rest result (explain_at case.now moment place) }
    ensures may { IfErr result MayLackByte }
{
    let Some(physical) = images.place_of(place) else {
        return Err(Refused::NoByte(lengths_in(case).of(place.part)));
    };
    let label = physical_label(alloc, snapshot, images, physical)?;
    Ok(ExplainLines::new(images, place, physical, moment, label))
}

/// The label of a byte at a moment, by what it is part of; `None` where that is no image, or one that is no view there.
fn physical_label(
    alloc: Global,
    snapshot: &Snapshot<'_, '_>,
    images: &ImageTable,
    physical: Physical,
) -> Result<Option<Label>, Refused>
    requires images { images.now ≡ images_in snapshot.now.case.now }
    requires within { (i b : ℕ) → physical ≡ Physical.Image i b → b < snapshot.now.case.now.header.page_size }
    ensures told { IfOk result (λ label. label ≡ physical_label snapshot.now.case.now snapshot.now.moment physical) }
    ensures may { IfErr result (λ refused. refused ≡ Memory) }
{
    match physical {
        Physical::Image(i, b) if i < images.count() => {
            image_label(alloc, snapshot, images.image(i), b)
        }
        _ => Ok(None),
    }
}

/// The label of a byte of an image at a moment; `None` where the image isn't the view of its page there.
#[tactic(auto, unfolding(crate::specs::Labels::image_label))]
fn image_label(
    alloc: Global,
    snapshot: &Snapshot<'_, '_>,
    image: Image,
    byte: u32,
) -> Result<Option<Label>, Refused>
    requires { byte < snapshot.now.case.now.header.page_size }
    ensures told { IfOk result (λ label. label ≡ image_label snapshot.now.case.now snapshot.now.moment image byte) }
    ensures may { IfErr result (λ refused. refused ≡ Memory) }
{
    if !stands_at(image, snapshot.source(image.page)) {
        return Ok(None);
    }
    let label = viewed_label(alloc, snapshot, image.page, byte)?;
    Ok(Some(label))
}

/// Whether an image stands at a place.
fn stands_at(image: Image, place: Option<Place>) -> bool
    ensures { result ≡ stands_at image place }
{
    match place {
        Some(place) => same_part(image.part, place.part) && image.offset == place.offset,
        None => false,
    }
}

/// Whether it is the same file.
fn same_part(one: Part, other: Part) -> bool
    ensures { result ≡ same_part one other }
{
    match (one, other) {
        (Part::Database, Part::Database) => true,
        (Part::Wal, Part::Wal) => true,
        (Part::Journal, Part::Journal) => true,
        _ => false,
    }
}

/// The label of a byte of a page that has a view at a moment.
fn viewed_label(
    alloc: Global,
    snapshot: &Snapshot<'_, '_>,
    page: u32,
    byte: u32,
) -> Result<Label, Refused>
    requires { byte < snapshot.now.case.now.header.page_size }
    ensures told { IfOk result (λ label. label ≡ label_by snapshot.now.case.now snapshot.now.moment page byte (head_of snapshot.now.case.now snapshot.now.moment)) }
    ensures may { IfErr result (λ refused. refused ≡ Memory) }
{
    match snapshot.head() {
        None => Ok(Label::BadHead),
        Some(_) => {
            let refs = refs_at(alloc, snapshot)?;
            page_label(alloc, snapshot, &refs, page, byte)
        }
    }
}

/// What refers to each page at a moment.
fn refs_at(alloc: Global, snapshot: &Snapshot<'_, '_>) -> Result<RefTable, Refused>
    ensures told { IfOk result (IsTableOf (graph_at snapshot.now.case.now snapshot.now.moment) ((layout_of snapshot.now.case.now snapshot.now.moment).usable - 4)) }
    ensures may { IfErr result (λ refused. refused ≡ Memory) }
{
    let roots = roots_at(alloc, snapshot)?;
    let refs = references(alloc, snapshot, &snapshot.layout(), roots.as_slice())?;
    Ok(refs)
}

/// The label of a byte of a page at a moment, by what refers to the page.
#[tactic(auto, using(crate::proofs::Layouts::page_size_is))]
fn page_label(
    alloc: Global,
    snapshot: &Snapshot<'_, '_>,
    refs: &RefTable,
    page: u32,
    byte: u32,
) -> Result<Label, Refused>
    requires refs { IsTableOf (graph_at snapshot.now.case.now snapshot.now.moment) ((layout_of snapshot.now.case.now snapshot.now.moment).usable - 4) refs.now }
    requires within { byte < snapshot.now.case.now.header.page_size }
    ensures told { IfOk result (λ label. label ≡ label_of (graph_at snapshot.now.case.now snapshot.now.moment) (layout_of snapshot.now.case.now snapshot.now.moment) (view_of snapshot.now.case.now snapshot.now.moment) page byte) }
    ensures may { IfErr result (λ refused. refused ≡ Memory) }
{
    let map = page_map(alloc, snapshot, refs, &snapshot.layout(), page)?;
    Ok(map.label_at(byte))
}
