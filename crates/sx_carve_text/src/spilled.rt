//! The text of `carve` with completed candidates.
ghost use Rattle.std.specs.Prelude.{◌≡◌, ◌<◌, ◌^◌, [], true, is_some, if◌then◌else◌, IfOk, OnOk, string_bytes, option_copied};
ghost use Rattle.sx_images.specs.Images.{images_of};
ghost use Rattle.sx_carve.specs.Candidates.{candidates_of, told_by};
ghost use Rattle.sx_carve.specs.Evidence.{evidence_bytes, AreOf, Fit};
ghost use Rattle.sx_lines.specs.Lines.{ended, IsNextLine};
ghost use Rattle.sx_spill.specs.Completion.{completed_of};
ghost use Rattle.sx_spill.specs.Unused.{unused_by};
ghost use Rattle.sx_carve_text.specs.Spilled.{spilled_lines, completed_line, line_by};
ghost use Rattle.sx_carve_text.specs.SpilledRest.{spilled_from, IsSpilling};

use crate::candidate_line::put_candidate_line;
use crate::carve::CarveLine;
use crate::whole_line::put_whole_line;
use std::alloc::AllocError;
use std::marker::Model;
use sx_bytes::Encoding;
use sx_carve::{Candidate, Candidates};
use sx_grammar::Ctx;
use sx_images::{Image, ImageTable};
use sx_lines::Lines;
use sx_moment::Evidence;
use sx_owned::OwnedRuns;
use sx_spill::Spill;

/// The lines of `carve` that are still to come, where candidates are completed by their overflow pages.
///
/// Each candidate is looked for when its line is asked for, and its whole payload is kept for its own line alone.
#[derive(Drop)]
pub struct SpillLines<'t, 'c, 's, 'a> {
    images: &'t ImageTable,
    encoding: Encoding,
    candidates: Candidates<'t, 'a>,
    spill: Spill<'t, 'c, 's>,
    count: u64,
    completed: u64,
    next: CarveLine,
}

impl<'t, 'c, 's, 'a> Model for SpillLines<'t, 'c, 's, 'a> {
    ghost use Rattle.std.specs.Prelude.{ℕ, List};
    ghost use Rattle.sx_images.specs.Images.{images_of};
    ghost use Rattle.sx_spill.specs.Completion.{completed_of};
    ghost use Rattle.sx_spill.specs.Unused.{unused_by};
    ghost use Rattle.sx_carve_text.specs.SpilledRest.{spilled_rest, IsSpilling};

    ghost Value = { List (List ℕ) };

    ghost view = { λ it. spilled_rest it.next it.encoding (images_of it.images.now) (completed_of (unused_by it.spill)) it.count it.completed it.candidates };

    ghost invariant = { λ it. IsSpilling (images_of it.images.now) it.count it.completed it.candidates };
}

impl<'t, 'c, 's, 'a> SpillLines<'t, 'c, 's, 'a> {
    /// All lines over the candidates of the images of this evidence, as [`crate::CarveLines::new`] has them, each completed
    /// where `spill` completes it.
    ///
    /// Each line is made when it is written. A completed candidate takes memory for its payload, and its line has each of
    /// its values whole.
    pub fn new(
        evidence: Evidence<'a>,
        images: &'t ImageTable,
        owned: &'t OwnedRuns,
        ctx: Ctx<'t>,
        encoding: Encoding,
        spill: Spill<'t, 'c, 's>,
    ) -> Self
        requires fit { Fit ctx.usable ctx.shapes.now images.now owned.now }
        requires images { AreOf (evidence_bytes evidence.database.now (option_copied evidence.wal) (option_copied evidence.journal)) images.now }
        ensures { result ≡ spilled_lines encoding (images_of images.now) (completed_of (unused_by spill.entry)) (candidates_of ctx.entry.usable ctx.entry.shapes.now (told_by owned.now) images.now.page_size (evidence_bytes evidence.entry.database.now (option_copied evidence.entry.wal) (option_copied evidence.entry.journal)) (images_of images.now)) }
    {
        let _images = images.count();
        let candidates = Candidates::over(evidence, images, owned, ctx);
        SpillLines {
            images,
            encoding,
            candidates,
            spill,
            count: 0,
            completed: 0,
            next: CarveLine::Candidate,
        }
    }
}

impl<'t, 'c, 's, 'a> Lines for SpillLines<'t, 'c, 's, 'a> {
    ghost lines = { λ it. it };

    fn next_line(&mut self, line: &mut String) -> Result<bool, AllocError> {
        match self.next {
            CarveLine::Candidate => {
                let more = put_next(
                    self.images,
                    self.encoding,
                    &mut self.candidates,
                    &mut self.spill,
                    &mut self.count,
                    &mut self.completed,
                    line,
                )?;
                if !more {
                    self.next = CarveLine::End;
                }
                Ok(true)
            }
            CarveLine::End => Ok(false),
        }
    }
}

/// Puts the line of the next candidate into `line` and counts it, or the last line where there is none; whether it is that of
/// a candidate.
#[tactic(auto, using(crate::proofs::Spilling::one_there, crate::proofs::Spilling::more_there, crate::proofs::Spilling::one_spilled, crate::proofs::Spilling::none_spilled))]
fn put_next(
    images: &ImageTable,
    encoding: Encoding,
    candidates: &mut Candidates<'_, '_>,
    spill: &mut Spill<'_, '_, '_>,
    count: &mut u64,
    completed: &mut u64,
    line: &mut String,
) -> Result<bool, AllocError>
    requires { IsSpilling (images_of images.now) count.old completed.old candidates.old }
    ensures line { IfOk result (λ more. IsNextLine (spilled_from encoding (images_of images.now) (completed_of (unused_by spill.old)) count.old completed.old candidates.old) (if more then spilled_from encoding (images_of images.now) (completed_of (unused_by spill.old)) count.new completed.new candidates.new else []) (string_bytes line.new) true) }
    ensures kept { IsSpilling (images_of images.now) count.new completed.new candidates.new }
    ensures same { spill.new ≡ spill.old }
{
    let Some(found) = candidates.next() else {
        put_completed_count(*count, *completed, line)?;
        return Ok(false);
    };
    *count += 1;
    let image = images.image(found.image);
    images.images_lie_in_their_files();
    let whole = put_spilled_line(encoding, image, &found, spill, line)?;
    *completed += u64::from(whole);
    Ok(true)
}

/// Puts the line of a candidate in this image into `line`, completed where that can be; whether it is.
fn put_spilled_line(
    encoding: Encoding,
    image: Image,
    candidate: &Candidate<'_>,
    spill: &mut Spill<'_, '_, '_>,
    line: &mut String,
) -> Result<bool, AllocError>
    requires { image.offset < 2 ^ 32 }
    ensures whole { IfOk result (λ whole. whole ≡ is_some (completed_of (unused_by spill.old) candidate.now.sighting)) }
    ensures line { OnOk result (string_bytes line.new ≡ ended (line_by encoding image candidate.now (completed_of (unused_by spill.old) candidate.now.sighting))) }
    ensures same { spill.new ≡ spill.old }
{
    match spill.complete(&candidate.reading)? {
        Some(payload) => {
            put_whole_line(encoding, image, candidate, payload.as_slice(), line)?;
            Ok(true)
        }
        None => {
            put_candidate_line(encoding, image, candidate, line)?;
            Ok(false)
        }
    }
}

/// Puts the last line into `line`.
#[tactic(auto, unfolding(crate::specs::Spilled::completed_line))]
fn put_completed_count(count: u64, completed: u64, line: &mut String) -> Result<(), AllocError>
    ensures { OnOk result (string_bytes line.new ≡ ended (completed_line count completed)) }
{
    line.clear();
    writeln!(line, "candidates {count} completed {completed}")
}
