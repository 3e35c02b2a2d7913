//! Pages that stand in a list.
ghost use Rattle.std.specs.Prelude.{◌≡◌, ◌^◌, ◌<◌, length};

use crate::pages::{PageViews, Pages};

/// Pages that stand in a list of fewer than 4,294,967,296 sheets: page 1 first, each page after the one before.
///
/// A sheet with exactly the page size's bytes is the view of its page. Any other, an empty one say, stands for a page
/// without a view. This is the plainest implementation of [`Pages`]: it counts by going through the list, and so is
/// meant for few pages.
#[derive(Clone, Copy)]
pub struct Sheets<'s, 'a> {
    page_size: u32,
    sheets: &'s [&'a [u8]],
    ghost few: { length sheets.now < 2 ^ 32 },
}

impl<'s, 'a> Sheets<'s, 'a> {
    /// The pages of `page_size` bytes that stand in this list.
    pub fn new(page_size: u32, sheets: &'s [&'a [u8]]) -> Self
        requires { length sheets.now < 2 ^ 32 }
        ensures page_size { result.page_size ≡ page_size }
        ensures sheets { result.sheets.now ≡ sheets.now }
    {
        Sheets { page_size, sheets }
    }
}

impl<'s, 'a> PageViews for Sheets<'s, 'a> {
    ghost use Rattle.std.specs.Prelude.{length};
    ghost use Rattle.sx_base.specs.Sheets.{sheet_view};

    ghost pages = { λ it. length it.sheets.now };

    ghost page_size = { λ it. it.page_size };

    ghost view = { λ it. sheet_view it.page_size it.sheets.now };
}

impl<'s, 'a> Pages<'a> for Sheets<'s, 'a> {
    #[tactic(auto, using(crate::proofs::SheetViews::view_past), unfolding(crate::specs::Sheets::sheet_view))]
    fn size(&self) -> u32 {
        self.sheets.len() as u32
    }

    #[tactic(auto, unfolding(crate::specs::Sheets::sheet_view))]
    fn page(&self, no: u32) -> Option<&'a [u8]> {
        if no == 0 {
            return None;
        }
        let place = (no - 1) as usize;
        if place >= self.sheets.len() {
            return None;
        }
        let sheet = self.sheets[place];
        if sheet.len() == self.page_size as usize {
            Some(sheet)
        } else {
            None
        }
    }

    fn held(&self) -> u32 {
        let mut count = 0;
        let mut at = 0;
        while let Some(no) = self.next_held(at) {
            count += 1;
            at = no;
        }
        count
    }

    fn held_at(&self, i: u32) -> u32 {
        let mut count = 0;
        let mut at = 0;
        while let Some(no) = self.next_held(at) {
            if count == i {
                return no;
            }
            count += 1;
            at = no;
        }
        unreachable!()
    }

    fn next_held(&self, after: u32) -> Option<u32> {
        for place in after as usize..self.sheets.len() {
            let no = place as u32 + 1;
            if self.page(no).is_some() {
                return Some(no);
            }
        }
        None
    }
}
