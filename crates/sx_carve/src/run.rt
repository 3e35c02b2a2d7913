//! The candidates of one run of bytes that nothing owns.
ghost use Rattle.std.specs.Prelude.{◌≡◌, ℕ, List, false, None, ◌<◌, ◌≤◌, [], MatchOption, drop, length};
ghost use Rattle.sx_owned.specs.Owned.{Owned, block_at};
ghost use Rattle.sx_grammar.specs.declared.shape.ShapeKey.{ShapeKey};
ghost use Rattle.sx_grammar.specs.Choice.{setting_of, accepted_at};
ghost use Rattle.sx_carve.specs.Scan.{run_rest, IsSought, IsNextInRun};

use crate::candidate::Candidate;
use sx_grammar::{Ctx, accept, is_ruled_out, next_start};
use sx_owned::OwnedRuns;

/// The first candidate of a run from a place on. The run begins with its image.
///
/// Each place at which a form can begin is asked, also one within another candidate.
#[tactic(auto, using(crate::proofs::RunLemmas::none_here, crate::proofs::RunLemmas::one_here, crate::proofs::RunLemmas::run_end))]
pub fn next_in_run<'a>(
    run: &'a [u8],
    image: u32,
    from: u32,
    owned: &OwnedRuns,
    ctx: &Ctx<'_>,
) -> Option<Candidate<'a>>
    requires within { from ≤ length run.now }
    requires small { length run.now ≤ 65536 }
    requires sought { IsSought ctx.now.usable ctx.now.shapes.now owned.now image }
    ensures { MatchOption result (run_rest ctx.now.usable ctx.now.shapes.now owned.now image run.now from ≡ []) (IsNextInRun ctx.now.usable ctx.now.shapes.now owned.now image run.now from) }
{
    let mut at = next_place(run, from);
    while (at as usize) < run.len() {
        if can_begin(run, image, at, owned, ctx) {
            let block = owned.is_block(image, at);
            if let Some(reading) = accept(run, at, at, block, ctx) {
                return Some(Candidate { image, at, reading });
            }
        }
        at = next_place(run, at + 1);
    }
    None
}

/// Whether a look at a few bytes leaves it open that a candidate begins at a place of a run that begins with its image.
///
/// It stands before the reading itself, whose answer is large: in a run of text nearly every place is ruled out here.
#[inline(always)]
fn can_begin(run: &[u8], image: u32, at: u32, owned: &OwnedRuns, ctx: &Ctx<'_>) -> bool
    requires within { at < length run.now }
    requires small { length run.now ≤ 65536 }
    requires sought { IsSought ctx.now.usable ctx.now.shapes.now owned.now image }
    ensures { result ≡ false → accepted_at ctx.now.usable ctx.now.shapes.now (setting_of at (block_at owned.now image at) ctx.now.usable) (drop at run.now) ≡ None }
{
    let block = owned.is_block(image, at);
    !is_ruled_out(run, at, at, block, ctx)
}

/// The next place of a run, from one on, at which a candidate can begin; the run's end where there is none.
#[inline]
#[tactic(auto, using(crate::proofs::RunLemmas::places_passed))]
fn next_place(run: &[u8], at: u32) -> u32
    requires within { at ≤ length run.now }
    requires small { length run.now ≤ 65536 }
    ensures same { (usable : ℕ) (shapes : List ShapeKey) (table : Owned) (image : ℕ) → 480 ≤ usable → run_rest usable shapes table image run.now at ≡ run_rest usable shapes table image run.now result }
    ensures behind { at ≤ result }
    ensures inside { result ≤ length run.now }
{
    next_start(run, at)
}
