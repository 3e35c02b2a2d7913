//! The pages of a snapshot: their views, and those that are held.
use crate::snapshot::Snapshot;
use sx_base::{PageViews, Pages};

impl<'c, 'a> PageViews for Snapshot<'c, 'a> {
    ghost use Rattle.sx_moment.specs.Gathered.{size_at};
    ghost use Rattle.sx_moment.specs.Views.{view_of};

    ghost pages = { λ snapshot. size_at snapshot.case.now snapshot.moment };

    ghost page_size = { λ snapshot. snapshot.case.now.header.page_size };

    ghost view = { λ snapshot. view_of snapshot.case.now snapshot.moment };
}

impl<'c, 'a> Pages<'a> for Snapshot<'c, 'a> {
    fn size(&self) -> u32 {
        self.case.sources().size(self.moment)
    }

    fn page(&self, no: u32) -> Option<&'a [u8]> {
        match self.origin(no) {
            Some(origin) => Some(self.case.sources().bytes(origin, no)),
            None => None,
        }
    }

    fn held(&self) -> u32 {
        self.held
    }

    fn held_at(&self, i: u32) -> u32 {
        let sources = self.case.sources();
        let file = sources.file_held(self.moment);
        let past = self.case.past(self.moment);
        let bound = sources.bound(self.moment);
        let size = sources.size(self.moment);
        if i < file {
            sources.file_at(self.moment, i)
        } else {
            past.taken_at(i - file, bound, size)
        }
    }

    fn next_held(&self, after: u32) -> Option<u32> {
        let sources = self.case.sources();
        let past = self.case.past(self.moment);
        let bound = sources.bound(self.moment);
        let size = sources.size(self.moment);
        match sources.file_after(self.moment, after) {
            Some(page) => Some(page),
            None => past.taken_after(after, bound, size),
        }
    }
}
