//! The views of a moment: where each stands, and that it lies within one file.
ghost use Rattle.std.specs.Prelude.{◌≡◌, ℕ, Some, IfSome};
ghost use Rattle.sx_base.specs.declared.evidence.Place.{Place};
ghost use Rattle.sx_moment.specs.Views.{origin_of, source_of, view_of, bytes_from, IsWhole};
ghost use Rattle.sx_moment.specs.Images.{Stands};

use crate::origin::Origin;
use crate::snapshot::Snapshot;
use sx_base::Place;

impl<'c, 'a> Snapshot<'c, 'a> {
    /// Where the view of a page comes from, if it has one.
    #[tactic(auto, unfolding(crate::specs::Views::origin_of))]
    pub(crate) fn origin(&self, no: u32) -> Option<Origin>
        ensures origin { result ≡ origin_of self.now.case.now self.now.moment no }
        ensures stands { IfSome result (Stands self.now.case.now no) }
    {
        let sources = self.case.sources();
        if no == 0 || no > sources.size(self.moment) || no == sources.lock_page() {
            return None;
        }
        match self.case.image(self.moment, no) {
            Some(origin) => Some(origin),
            None if no <= sources.page_count() => Some(Origin::Database),
            None => None,
        }
    }

    /// The place in the evidence where the view of page `no` begins, and `None` exactly where it has no view.
    pub fn source(&self, no: u32) -> Option<Place>
        ensures { result ≡ source_of self.now.case.now self.now.moment no }
    {
        match self.origin(no) {
            Some(origin) => Some(self.case.sources().place(origin, no)),
            None => None,
        }
    }

    /// Each view lies wholly within one file: it is the page size's bytes there, from its source on. This is a law of the
    /// definitions; the function has no code.
    pub fn views_lie(&self)
        ensures { (number : ℕ) → (place : Place) → source_of self.now.case.now self.now.moment number ≡ Some place
            → IsWhole self.now.case.now place × (view_of self.now.case.now self.now.moment number ≡ Some (bytes_from self.now.case.now place)) }
    {
        let _sources = self.case.sources();
    }
}
