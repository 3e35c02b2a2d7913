//! The candidates under all moments, with what is owned found anew at each of them.
ghost use Rattle.std.specs.Prelude.{◌≡◌, length, IfOk};
ghost use Rattle.std.specs.Option.{option_map, option_copied};
ghost use Rattle.sx_carve.specs.Evidence.{evidence_bytes, AreOf};
ghost use Rattle.sx_grammar.specs.Choice.{Rises};
ghost use Rattle.sx_images.specs.Images.{images_of};
ghost use Rattle.sx_plain.specs.Lengths.{lengths_in};
ghost use Rattle.sx_moment.specs.Limits.{IsSmall};
ghost use Rattle.sx_owned.specs.Owned.{images_of as owned_images};

use std::alloc::{AllocError, Global};
use std::io;
use sx_base::Moment;
use sx_carve_text::CarveLines;
use sx_edge::StreamSink;
use sx_grammar::{Ctx, ShapeKey};
use sx_images::{ImageTable, Lengths, images};
use sx_lines::{Unwritten, write_lines};
use sx_moment::{Case, Snapshot};
use sx_owned::OwnedRuns;
use sx_schema::schema;
use sx_shapes::table_shapes;
use sx_sweep::sweep;

/// Prints the lines of `carve at=all`.
pub fn put_candidates<R: Print + AllocGlobal>(rt: &R, case: &Case<'_>) -> io::Result<()>
    requires { IsSmall case.now.database case.now.wal_bytes case.now.journal_bytes }
{
    let alloc = rt.alloc();
    let Some(last) = case.snapshot(case.last()) else {
        return Ok(());
    };
    let images = image_table(alloc, case)?;
    let moments = all_moments(alloc, case)?;
    let owned = sweep(alloc, case, &images, moments.as_slice())?;
    put_lines(rt, case, &last, &images, &owned)
}

// Prints the lines over these images, of which these bytes are owned.
fn put_lines<R: Print + AllocGlobal>(
    rt: &R,
    case: &Case<'_>,
    last: &Snapshot<'_, '_>,
    images: &ImageTable,
    owned: &OwnedRuns,
) -> io::Result<()>
    requires case { last.now.case.now ≡ case.now }
    requires images { AreOf (evidence_bytes case.now.database case.now.wal_bytes case.now.journal_bytes) images.now }
    requires page_size { images.now.page_size ≡ case.now.header.page_size }
    requires count { owned_images owned.now ≡ length (images_of images.now) }
    requires size { owned.now.page_size ≡ images.now.page_size }
{
    let alloc = rt.alloc();
    let layout = last.layout();
    let shapes = shapes_at(alloc, last)?;
    let ctx = Ctx {
        usable: layout.usable,
        shapes: shapes.as_slice(),
    };
    let mut lines = CarveLines::new(case.evidence(), images, owned, ctx, last.encoding());
    let mut out = StreamSink::new(io::writer(rt));
    match write_lines(alloc, &mut lines, &mut out) {
        Ok(()) => Ok(()),
        Err(Unwritten::Memory) => Err(AllocError.into()),
        Err(Unwritten::WriteFault) => Err(io::Error::from(io::ErrorKind::Other)),
    }
}

// The page images of the three files.
fn image_table(alloc: Global, case: &Case<'_>) -> Result<ImageTable, AllocError>
    requires { IsSmall case.now.database case.now.wal_bytes case.now.journal_bytes }
    ensures images { IfOk result (λ images. AreOf (evidence_bytes case.now.database case.now.wal_bytes case.now.journal_bytes) images) }
    ensures page_size { IfOk result (λ images. images.page_size ≡ case.now.header.page_size) }
{
    images(
        alloc,
        case.header().page_size,
        lengths_in(case),
        case.wal(),
        case.journal(),
    )
}

// The lengths of the three files.
fn lengths_in(case: &Case<'_>) -> Lengths
    ensures { result ≡ lengths_in case.now }
{
    let evidence = case.evidence();
    Lengths {
        database: evidence.database.len() as u64,
        wal: length_in(evidence.wal),
        journal: length_in(evidence.journal),
    }
}

// The length of a file, where there is one.
fn length_in(file: Option<&[u8]>) -> Option<u64>
    ensures { result ≡ option_map length (option_copied file.entry) }
{
    match file {
        Some(bytes) => Some(bytes.len() as u64),
        None => None,
    }
}

// All moments, in order.
fn all_moments(alloc: Global, case: &Case<'_>) -> Result<Vec<Moment>, AllocError> {
    let mut moments = Vec::new(alloc);
    for i in 0..case.moments() {
        moments.push(case.moment(i))?;
    }
    Ok(moments)
}

// The shapes of the tables of a moment; without a head none is known.
fn shapes_at(alloc: Global, snapshot: &Snapshot<'_, '_>) -> Result<Vec<ShapeKey>, AllocError>
    ensures { IfOk result (λ shapes. Rises 1 shapes.items) }
{
    if snapshot.head().is_none() {
        return Ok(Vec::new(alloc));
    }
    let layout = snapshot.layout();
    let schema = schema(alloc, snapshot, layout.usable, snapshot.encoding())?;
    table_shapes(alloc, &schema)
}
