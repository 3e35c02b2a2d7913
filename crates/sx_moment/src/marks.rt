//! The marks of a moment: which views a checkpoint may have written ("Checkpointing").
ghost use Rattle.std.specs.Prelude.{◌≡◌, Some, length};
ghost use Rattle.sx_moment.specs.Marks.{is_uncertain, uncertain_pages};
ghost use Rattle.sx_moment.specs.Firsts.{is_taken};
ghost use Rattle.sx_moment.specs.Images.{first_slot, is_bare};

use crate::first_image::FirstImage;
use crate::first_images::FirstImages;
use crate::snapshot::Snapshot;
use sx_base::Moment;

/// The pages that a Committed slot equals, each with its first slot, and for each commit how many of them it sees.
#[derive(Clone, Copy)]
pub struct Marks<'c> {
    pub images: &'c FirstImages,
    pub counts: &'c [u32],
}

impl<'c, 'a> Snapshot<'c, 'a> {
    /// Whether the view of page `no` is uncertain: it is the page of the file, and a later Committed frame has that page
    /// and the same bytes, so that a checkpoint may have written it over the page of this moment ("Checkpointing").
    pub fn uncertain(&self, no: u32) -> bool
        ensures { result ≡ is_uncertain self.now.case.now self.now.moment no }
    {
        let size = self.case.sources().size(self.moment);
        match self.case.marks().images.find(no) {
            Some(first) => self.is_uncertain_mark(size, FirstImage { page: no, first }),
            None => false,
        }
    }

    /// How many views are uncertain: at a commit and at the file's moment a look-up, at the journal's at most a step for each
    /// page that a Committed frame equals.
    pub fn uncertain_count(&self) -> u32
        ensures { result ≡ length (uncertain_pages self.now.case.now self.now.moment) }
    {
        let size = self.case.sources().size(self.moment);
        let marks = self.case.marks();
        match self.moment {
            Moment::Journal => self.count_bare(),
            Moment::File => marks.images.within(size),
            Moment::Commit(k) => marks.images.within(size) - marks.counts[k as usize - 1],
        }
    }

    // How many views are uncertain, mark by mark.
    fn count_bare(&self) -> u32
        ensures { result ≡ length (uncertain_pages self.now.case.now self.now.moment) }
    {
        let size = self.case.sources().size(self.moment);
        let marks = self.case.marks().images;
        let mut count = 0;
        for i in 0..marks.len() {
            if self.is_uncertain_mark(size, marks.at(i)) {
                count += 1;
            }
        }
        count
    }

    // Whether a page, whose first slot is known, has no image at the moment.
    fn is_bare(&self, mark: FirstImage) -> bool
        requires { first_slot self.now.case.now mark.page ≡ Some mark.first }
        ensures { result ≡ is_bare self.now.case.now self.now.moment mark }
    {
        let sources = self.case.sources();
        match self.moment {
            Moment::Journal => self.case.image(Moment::Journal, mark.page).is_none(),
            _ => sources.limit(self.moment) <= mark.first,
        }
    }

    // Whether a marked page is uncertain at the moment, of this size.
    fn is_uncertain_mark(&self, size: u32, mark: FirstImage) -> bool
        requires { first_slot self.now.case.now mark.page ≡ Some mark.first }
        ensures { result ≡ is_taken (is_bare self.now.case.now self.now.moment) size mark }
    {
        self.is_bare(mark) && mark.page <= size
    }
}
