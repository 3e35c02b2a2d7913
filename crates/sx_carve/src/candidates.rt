//! The candidates of all images.
ghost use Rattle.std.specs.Prelude.{◌≡◌, ◌+◌, ◌*◌, ◌<◌, ◌≤◌, [], ◌∷◌, ◌++◌, MatchOption, length, take, drop, option_copied};
ghost use Rattle.sx_images.specs.Images.{images_of};
ghost use Rattle.sx_carve.specs.Candidates.{told_by, candidates_of, AreIn};
ghost use Rattle.sx_carve.specs.Evidence.{evidence_bytes, AreOf, Fit};
ghost use Rattle.sx_carve.specs.Scan.{images_rest, scan_rest};

use crate::candidate::Candidate;
use crate::scan::ImageScan;
use std::marker::Model;
use sx_base::Part;
use sx_grammar::Ctx;
use sx_images::ImageTable;
use sx_moment::Evidence;
use sx_owned::OwnedRuns;

/// The candidates of page images that are still to come, in order of image and offset.
///
/// At each offset of an image there is at most one: the first form, in the order of `sx_grammar::Form`, whose whole span
/// lies in the image and isn't owned. Candidates may overlap. The cost is near linear in the unowned bytes, of which zeros
/// are jumped, and takes no memory.
#[derive(Drop)]
pub struct Candidates<'t, 'a> {
    evidence: Evidence<'a>,
    images: &'t ImageTable,
    owned: &'t OwnedRuns,
    ctx: Ctx<'t>,
    next: u32,
    scan: Option<ImageScan<'t, 'a>>,
}

impl<'t, 'a> Model for Candidates<'t, 'a> {
    ghost use Rattle.std.specs.Prelude.{◌≤◌, List, ◌++◌, length, drop, option_copied};
    ghost use Rattle.sx_images.specs.Images.{images_of};
    ghost use Rattle.sx_carve.specs.Candidates.{Carved};
    ghost use Rattle.sx_carve.specs.Evidence.{evidence_bytes, AreOf, Fit};
    ghost use Rattle.sx_carve.specs.Scan.{images_rest, scan_rest};

    ghost Value = { List Carved };

    ghost view = { λ it. scan_rest it.scan ++ images_rest it.ctx.usable it.ctx.shapes.now it.owned.now (evidence_bytes it.evidence.database.now (option_copied it.evidence.wal) (option_copied it.evidence.journal)) it.images.now it.next };

    ghost invariant = { λ it. (Fit it.ctx.usable it.ctx.shapes.now it.images.now it.owned.now) × (AreOf (evidence_bytes it.evidence.database.now (option_copied it.evidence.wal) (option_copied it.evidence.journal)) it.images.now) × (it.next ≤ length (images_of it.images.now)) };
}

impl<'t, 'a> Candidates<'t, 'a> {
    /// All candidates of the images of this evidence, where these bytes of them are owned and these freeblocks begin.
    ///
    /// The images are those of this evidence, `owned` was made for their number and page size, and the usable bytes of
    /// `ctx` are at most that page size.
    #[tactic(auto, using(crate::proofs::CountLemmas::all_told, crate::proofs::CountLemmas::all_few))]
    pub fn over(
        evidence: Evidence<'a>,
        images: &'t ImageTable,
        owned: &'t OwnedRuns,
        ctx: Ctx<'t>,
    ) -> Self
        requires fit { Fit ctx.usable ctx.shapes.now images.now owned.now }
        requires images { AreOf (evidence_bytes evidence.database.now (option_copied evidence.wal) (option_copied evidence.journal)) images.now }
        ensures all { result ≡ candidates_of ctx.entry.usable ctx.entry.shapes.now (told_by owned.now) images.now.page_size (evidence_bytes evidence.entry.database.now (option_copied evidence.entry.wal) (option_copied evidence.entry.journal)) (images_of images.now) }
        ensures told { AreIn (length (images_of images.now)) result }
        ensures few { length result ≤ length (images_of images.now) * 65536 }
    {
        Candidates {
            evidence,
            images,
            owned,
            ctx,
            next: 0,
            scan: None,
        }
    }
}

impl<'t, 'a> Iterator for Candidates<'t, 'a> {
    ghost use Rattle.std.specs.Iterator.{YieldsFirst, item_count};

    type Item = Candidate<'a>;

    ghost next_gives = { YieldsFirst (λ it. it) };

    ghost remaining = { item_count (λ it. it) };

    fn next(&mut self) -> Option<Candidate<'a>> {
        let scan = &mut self.scan;
        if let Some(found) = next_of(scan) {
            return Some(found);
        }
        let (found, scan, next) = first_from(
            &self.evidence,
            self.images,
            self.owned,
            &self.ctx,
            self.next,
        )?;
        self.scan = Some(scan);
        self.next = next;
        Some(found)
    }
}

/// The next candidate of the image that is searched, where one is.
fn next_of<'a>(scan: &mut Option<ImageScan<'_, 'a>>) -> Option<Candidate<'a>>
    ensures { MatchOption result ((scan_rest scan.old ≡ []) × (scan_rest scan.new ≡ [])) (λ found. scan_rest scan.old ≡ found ∷ scan_rest scan.new) }
{
    match scan {
        Some(scan) => scan.next(),
        None => None,
    }
}

/// The first candidate of the images from one on, what its image has besides, and the number behind that image.
#[tactic(auto, using(crate::proofs::ImageLemmas::no_image, crate::proofs::ImageLemmas::one_image))]
fn first_from<'t, 'a>(
    evidence: &Evidence<'a>,
    images: &'t ImageTable,
    owned: &'t OwnedRuns,
    ctx: &Ctx<'t>,
    from: u32,
) -> Option<(Candidate<'a>, ImageScan<'t, 'a>, u32)>
    requires fit { Fit ctx.now.usable ctx.now.shapes.now images.now owned.now }
    requires images { AreOf (evidence_bytes evidence.now.database.now (option_copied evidence.now.wal) (option_copied evidence.now.journal)) images.now }
    requires within { from ≤ length (images_of images.now) }
    ensures { let rest = images_rest ctx.now.usable ctx.now.shapes.now owned.now (evidence_bytes evidence.now.database.now (option_copied evidence.now.wal) (option_copied evidence.now.journal)) images.now in MatchOption result (rest from ≡ []) (λ found. (rest from ≡ found.0 ∷ (found.1 ++ rest found.2)) × (found.2 ≤ length (images_of images.now))) }
{
    for number in from..images.count() {
        let mut scan = scan_of(evidence, images, owned, ctx, number);
        if let Some(found) = scan.next() {
            return Some((found, scan, number + 1));
        }
    }
    None
}

/// The candidates of the image of this number.
fn scan_of<'t, 'a>(
    evidence: &Evidence<'a>,
    images: &ImageTable,
    owned: &'t OwnedRuns,
    ctx: &Ctx<'t>,
    number: u32,
) -> ImageScan<'t, 'a>
    requires fit { Fit ctx.now.usable ctx.now.shapes.now images.now owned.now }
    requires images { AreOf (evidence_bytes evidence.now.database.now (option_copied evidence.now.wal) (option_copied evidence.now.journal)) images.now }
    requires there { number < length (images_of images.now) }
    ensures { let rest = images_rest ctx.now.usable ctx.now.shapes.now owned.now (evidence_bytes evidence.now.database.now (option_copied evidence.now.wal) (option_copied evidence.now.journal)) images.now in rest number ≡ result ++ rest (number + 1) }
{
    let image = images.image(number);
    images.images_lie_in_their_files();
    let file = file_of(evidence, image.part);
    let bytes = page_at(file, image.offset, owned.page_size());
    ImageScan::start(number, bytes, owned, *ctx)
}

/// The bytes of one of the three files; none where it is absent.
fn file_of<'a>(evidence: &Evidence<'a>, part: Part) -> &'a [u8]
    ensures { result.now ≡ evidence_bytes evidence.now.database.now (option_copied evidence.now.wal) (option_copied evidence.now.journal) part }
{
    match part {
        Part::Database => evidence.database,
        Part::Wal => evidence.wal.unwrap_or(&[]),
        Part::Journal => evidence.journal.unwrap_or(&[]),
    }
}

/// The page of so many bytes that begins at an offset of a file.
fn page_at(file: &[u8], offset: u64, size: u32) -> &[u8]
    requires { offset + size ≤ length file.now }
    ensures bytes { result.now ≡ take size (drop offset file.now) }
    ensures long { length result.now ≡ size }
{
    let behind = file.split_at(offset as usize).1;
    behind.split_at(size as usize).0
}
