//! The pages of a case at one moment.
ghost use Rattle.std.specs.Prelude.{◌≡◌, IsTrue, is_some, length, IfSome};
ghost use Rattle.sx_base.specs.Held.{held_pages};
ghost use Rattle.sx_moment.specs.Gathered.{is_moment, size_at};
ghost use Rattle.sx_moment.specs.Views.{view_of};

use crate::case::Case;
use sx_base::Moment;

/// The pages of the evidence at one moment that it holds.
///
/// A view is a borrow of the evidence: it outlives the snapshot and the case. No call takes memory, and none goes over
/// the pages that the moment claims. The number of held pages is counted once, when the snapshot is taken.
#[derive(Clone, Copy)]
pub struct Snapshot<'c, 'a> {
    pub(crate) case: &'c Case<'a>,
    pub(crate) moment: Moment,
    pub(crate) held: u32,
    ghost listed: { IsTrue (is_moment case.now moment) },
    ghost counted: { held ≡ length (held_pages (size_at case.now moment) (view_of case.now moment)) },
}

impl<'a> Case<'a> {
    /// The pages at a moment, and `None` exactly where the evidence doesn't hold that moment.
    ///
    /// The held pages were counted for all commits when the case was gathered. At the journal's moment they are counted here,
    /// at a step for each page past the end of the file that a Good record holds.
    pub fn snapshot(&self, moment: Moment) -> Option<Snapshot<'_, 'a>>
        ensures some { IfSome result (λ snapshot. (snapshot.case.now ≡ self.now) × (snapshot.moment ≡ moment)) }
        ensures none { is_some result ≡ is_moment self.now moment }
    {
        let sources = self.sources();
        if !sources.has_moment(moment) {
            return None;
        }
        let past = self.past_held(moment, sources.size(moment));
        Some(Snapshot {
            case: self,
            moment,
            held: sources.file_held(moment) + past,
        })
    }
}
