//! The candidates of one image.
ghost use Rattle.std.specs.Prelude.{◌≡◌, ◌+◌, ◌≤◌, [], MatchOption, IfSome, IfNone, length};
ghost use Rattle.sx_carve.specs.Candidates.{told_by, carved_from};
ghost use Rattle.sx_carve.specs.Scan.{image_rest, IsSought, IsScan, IsNextInImage};

use crate::candidate::Candidate;
use crate::run::next_in_run;
use std::marker::Model;
use sx_grammar::Ctx;
use sx_owned::{OwnedRuns, Unowned};

/// The candidates of an image that are still to come.
#[derive(Drop)]
pub struct ImageScan<'t, 'a> {
    image: u32,
    bytes: &'a [u8],
    at: u32,
    end: u32,
    spans: Unowned<'t>,
    owned: &'t OwnedRuns,
    ctx: Ctx<'t>,
}

impl<'t, 'a> Model for ImageScan<'t, 'a> {
    ghost use Rattle.std.specs.Prelude.{List, length};
    ghost use Rattle.sx_carve.specs.Candidates.{Carved};
    ghost use Rattle.sx_carve.specs.Scan.{image_rest, IsSought, IsScan};

    ghost Value = { List Carved };

    ghost view = { λ scan. image_rest scan.ctx.usable scan.ctx.shapes.now scan.owned.now scan.image scan.bytes.now scan.at };

    ghost invariant = { λ scan. (IsSought scan.ctx.usable scan.ctx.shapes.now scan.owned.now scan.image) × (IsScan scan.owned.now scan.image (length scan.bytes.now) scan.at scan.end scan.spans) };
}

impl<'t, 'a> ImageScan<'t, 'a> {
    /// All candidates of the image of this number, whose bytes these are.
    #[tactic(auto, using(crate::proofs::ScanLemmas::scan_begins))]
    pub fn start(image: u32, bytes: &'a [u8], owned: &'t OwnedRuns, ctx: Ctx<'t>) -> Self
        requires sought { IsSought ctx.usable ctx.shapes.now owned.now image }
        requires size { length bytes.now ≡ owned.now.page_size }
        requires small { length bytes.now ≤ 65536 }
        ensures { result ≡ carved_from ctx.entry.usable ctx.entry.shapes.now (told_by owned.now) image 0 bytes.now }
    {
        let spans = owned.unowned(image);
        ImageScan {
            image,
            bytes,
            at: 0,
            end: 0,
            spans,
            owned,
            ctx,
        }
    }
}

impl<'t, 'a> Iterator for ImageScan<'t, 'a> {
    ghost use Rattle.std.specs.Iterator.{YieldsFirst, item_count};

    type Item = Candidate<'a>;

    ghost next_gives = { YieldsFirst (λ scan. scan) };

    ghost remaining = { item_count (λ scan. scan) };

    #[tactic(auto, using(crate::proofs::ScanLemmas::scan_done, crate::proofs::ScanLemmas::nothing_behind))]
    fn next(&mut self) -> Option<Candidate<'a>> {
        let spans = &mut self.spans;
        match next_in_image(
            self.bytes, self.image, self.at, self.end, spans, self.owned, &self.ctx,
        ) {
            Some((found, end)) => {
                self.at = found.at + 1;
                self.end = end;
                Some(found)
            }
            None => {
                self.at = self.bytes.len() as u32;
                self.end = self.at;
                None
            }
        }
    }
}

/// The first candidate of an image from a place of a run on that ends at a place, and the end of its own run.
fn next_in_image<'a>(
    bytes: &'a [u8],
    image: u32,
    at: u32,
    end: u32,
    spans: &mut Unowned<'_>,
    owned: &OwnedRuns,
    ctx: &Ctx<'_>,
) -> Option<(Candidate<'a>, u32)>
    requires sought { IsSought ctx.now.usable ctx.now.shapes.now owned.now image }
    requires scan { IsScan owned.now image (length bytes.now) at end spans.old }
    ensures found { MatchOption result (image_rest ctx.now.usable ctx.now.shapes.now owned.now image bytes.now at ≡ []) (λ found. IsNextInImage ctx.now.usable ctx.now.shapes.now owned.now image bytes.now at found.0) }
    ensures scan { IfSome result (λ found. IsScan owned.now image (length bytes.now) (found.0.at + 1) found.1 spans.new) }
    ensures end { IfNone result (spans.new ≡ []) }
{
    let mut at = at;
    let mut end = end;
    loop {
        let run = bytes.split_at(end as usize).0;
        if let Some(found) = next_in_run(run, image, at, owned, ctx) {
            return Some((found, end));
        }
        let span = spans.next()?;
        at = span.start;
        end = span.start + span.len;
    }
}
