//! The moment that the words ask for.
ghost use Rattle.std.specs.Prelude.{◌≡◌, IfOk, IfErr, Ok};
ghost use Rattle.std.specs.List.{last_or};
ghost use Rattle.sx_base.specs.declared.moment.Moment.{Moment};
ghost use Rattle.sx_moment.specs.Gathered.{moments_of};
ghost use Rattle.sx_app.specs.Moments.{moment_of, MayMiss};
ghost use Rattle.sx_app.specs.Owed.{Gives};

use crate::refused::Refused;
use sx_base::Moment;
use sx_moment::{Case, Snapshot};
use sx_words::When;

/// The pages at the moment that is asked for. `NoMoment` comes exactly where that isn't one of the evidence, and carries
/// the number of commits.
#[tactic(auto, using(crate::proofs::Missing::can_miss), unfolding(crate::specs::Moments::moment_of))]
pub fn snapshot_asked<'c, 'a>(case: &'c Case<'a>, at: When) -> Result<Snapshot<'c, 'a>, Refused>
    ensures told { Gives (λ snapshot. snapshot.moment) result (moment_of case.now at) }
    ensures case { IfOk result (λ snapshot. snapshot.case.now ≡ case.now) }
    ensures may { IfErr result (MayMiss at) }
{
    match at {
        When::Last => Ok(last_snapshot(case)),
        When::At(moment) => match case.snapshot(moment) {
            Some(snapshot) => Ok(snapshot),
            None => Err(Refused::NoMoment(case.wal().commits())),
        },
    }
}

/// The pages at the last moment.
#[tactic(auto, using(crate::proofs::Missing::last_is))]
pub fn last_snapshot<'c, 'a>(case: &'c Case<'a>) -> Snapshot<'c, 'a>
    ensures last { last_or None (moments_of case.now) ≡ Some result.moment }
    ensures case { result.case.now ≡ case.now }
{
    match case.snapshot(case.last()) {
        Some(snapshot) => snapshot,
        None => unreachable!(),
    }
}

/// The moment that is asked for, whether it is one of the evidence or not.
#[tactic(auto, using(crate::proofs::Missing::last_meant, crate::proofs::Missing::named_meant), unfolding(crate::specs::Moments::moment_of))]
pub fn moment_meant(case: &Case<'_>, at: When) -> Moment
    ensures { (moment : Moment) → moment_of case.now at ≡ Ok moment → moment ≡ result }
{
    match at {
        When::Last => case.last(),
        When::At(moment) => moment,
    }
}
