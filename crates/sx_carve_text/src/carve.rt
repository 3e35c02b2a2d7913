//! The text of `carve`.
ghost use Rattle.std.specs.Prelude.{◌≡◌, ◌+◌, ◌<◌, ◌^◌, [], length, true, if◌then◌else◌, IfOk, OnOk, string_bytes, option_copied};
ghost use Rattle.sx_images.specs.Images.{images_of};
ghost use Rattle.sx_carve.specs.Candidates.{candidates_of, told_by};
ghost use Rattle.sx_carve.specs.Evidence.{evidence_bytes, AreOf, Fit};
ghost use Rattle.sx_lines.specs.Lines.{ended, IsNextLine};
ghost use Rattle.sx_carve_text.specs.Carve.{carve_lines, count_line};
ghost use Rattle.sx_carve_text.specs.Rest.{counted_from, IsCarving};

use crate::candidate_line::put_candidate_line;
use std::alloc::AllocError;
use std::marker::Model;
use sx_bytes::Encoding;
use sx_carve::Candidates;
use sx_grammar::Ctx;
use sx_images::ImageTable;
use sx_lines::Lines;
use sx_moment::Evidence;
use sx_owned::OwnedRuns;

/// The lines of `carve` that are still to come.
///
/// Each candidate is looked for when its line is asked for, and a value is written from its borrow into the line.
#[derive(Drop)]
pub struct CarveLines<'t, 'a> {
    images: &'t ImageTable,
    encoding: Encoding,
    candidates: Candidates<'t, 'a>,
    count: u64,
    next: CarveLine,
}

/// The next line of `carve`.
#[derive(Clone, Copy)]
pub enum CarveLine {
    /// That of the next candidate, or the last line where there is none.
    Candidate,
    /// None.
    End,
}

impl<'t, 'a> Model for CarveLines<'t, 'a> {
    ghost use Rattle.std.specs.Prelude.{ℕ, List};
    ghost use Rattle.sx_images.specs.Images.{images_of};
    ghost use Rattle.sx_carve_text.specs.Rest.{lines_from, IsCarving};

    ghost Value = { List (List ℕ) };

    ghost view = { λ it. lines_from it.next it.encoding (images_of it.images.now) it.count it.candidates };

    ghost invariant = { λ it. IsCarving (images_of it.images.now) it.count it.candidates };
}

impl<'t, 'a> CarveLines<'t, 'a> {
    /// All lines over the candidates of the images of this evidence, where these bytes of them are owned and these freeblocks
    /// begin; texts are in the encoding of the last moment asked for.
    ///
    /// The conditions are those of [`Candidates::over`]. Takes no memory; each line is made when it is written, and the cost
    /// is that of finding the candidates and of their values' bytes.
    pub fn new(
        evidence: Evidence<'a>,
        images: &'t ImageTable,
        owned: &'t OwnedRuns,
        ctx: Ctx<'t>,
        encoding: Encoding,
    ) -> Self
        requires fit { Fit ctx.usable ctx.shapes.now images.now owned.now }
        requires images { AreOf (evidence_bytes evidence.database.now (option_copied evidence.wal) (option_copied evidence.journal)) images.now }
        ensures { result ≡ carve_lines encoding (images_of images.now) (candidates_of ctx.entry.usable ctx.entry.shapes.now (told_by owned.now) images.now.page_size (evidence_bytes evidence.entry.database.now (option_copied evidence.entry.wal) (option_copied evidence.entry.journal)) (images_of images.now)) }
    {
        let _images = images.count();
        let candidates = Candidates::over(evidence, images, owned, ctx);
        CarveLines {
            images,
            encoding,
            candidates,
            count: 0,
            next: CarveLine::Candidate,
        }
    }
}

impl<'t, 'a> Lines for CarveLines<'t, 'a> {
    ghost lines = { λ it. it };

    fn next_line(&mut self, line: &mut String) -> Result<bool, AllocError> {
        match self.next {
            CarveLine::Candidate => {
                let more = put_next(
                    self.images,
                    self.encoding,
                    &mut self.candidates,
                    &mut self.count,
                    line,
                )?;
                if !more {
                    self.next = CarveLine::End;
                }
                Ok(true)
            }
            CarveLine::End => Ok(false),
        }
    }
}

/// Puts the line of the next candidate into `line` and counts it, or the last line where there is none; whether it is that of
/// a candidate.
#[tactic(auto, using(crate::proofs::Counting::one_there, crate::proofs::Counting::more_there, crate::proofs::Counting::one_counted, crate::proofs::Counting::none_counted))]
fn put_next(
    images: &ImageTable,
    encoding: Encoding,
    candidates: &mut Candidates<'_, '_>,
    count: &mut u64,
    line: &mut String,
) -> Result<bool, AllocError>
    requires { IsCarving (images_of images.now) count.old candidates.old }
    ensures line { IfOk result (λ more. IsNextLine (counted_from encoding (images_of images.now) count.old candidates.old) (if more then counted_from encoding (images_of images.now) count.new candidates.new else []) (string_bytes line.new) true) }
    ensures kept { IsCarving (images_of images.now) count.new candidates.new }
{
    let Some(found) = candidates.next() else {
        put_count_line(*count, line)?;
        return Ok(false);
    };
    *count += 1;
    let image = images.image(found.image);
    images.images_lie_in_their_files();
    put_candidate_line(encoding, image, &found, line)?;
    Ok(true)
}

/// Puts the last line into `line`.
#[tactic(auto, unfolding(crate::specs::Carve::count_line))]
fn put_count_line(count: u64, line: &mut String) -> Result<(), AllocError>
    ensures { OnOk result (string_bytes line.new ≡ ended (count_line count)) }
{
    line.clear();
    writeln!(line, "candidates {count}")
}
