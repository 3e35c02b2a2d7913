//! The pages of one moment, as borrowed views of the evidence.
ghost use Rattle.std.specs.Prelude.{◌≡◌, ℕ, ◌<◌, List, Option, Some, None, length, slice_index, option_copied, IfSome};
ghost use Rattle.sx_base.specs.Held.{held_pages, held_after};

/// What contracts see of the pages of one moment: the size in pages, the page size in bytes, and the view of each page by
/// its number.
///
/// Pages count from 1 ("Pages"). A page within the size may have no view, where the evidence doesn't hold it.
///
/// This stands apart from the calls of [`Pages`], which name a lifetime. A type that keeps pages and has a meaning of its
/// own takes the bound `PageViews`, and its methods the bound `Pages`.
pub trait PageViews {
    /// The size, in pages: the number of the last page that the moment claims.
    ghost pages: { Self → ℕ };

    /// The length of each view, in bytes.
    ghost page_size: { Self → ℕ };

    /// The bytes of a page, by its number.
    ghost view: { Self → ℕ → Option (List ℕ) };
}

/// The pages of one moment. Each view is a borrow of the evidence with the lifetime `'a`, and no call takes memory.
pub trait Pages<'a>: PageViews {
    /// The size, in pages. Neither page 0 nor a page past the size has a view, and each view has as many bytes as the page
    /// size.
    fn size(&self) -> u32
        ensures size { result ≡ Self.pages self.now }
        ensures within { (number : ℕ) → result < number → Self.view self.now number ≡ None }
        ensures from_one { Self.view self.now 0 ≡ None }
        ensures whole { (number : ℕ) → (page : List ℕ) → Self.view self.now number ≡ Some page → length page ≡ Self.page_size self.now };

    /// The bytes of page `no`, as many as the page size, and `None` exactly where it has no view.
    fn page(&self, no: u32) -> Option<&'a [u8]>
        ensures view { option_copied result ≡ Self.view self.now no }
        ensures whole { IfSome result (λ bytes. length bytes.now ≡ Self.page_size self.now) };

    /// How many pages have a view.
    fn held(&self) -> u32
        ensures { result ≡ length (held_pages (Self.pages self.now) (Self.view self.now)) };

    /// The number of the page at place `i` among those that have a view, in rising order. Places count from 0, and `i`
    /// is below [`Pages::held`].
    ///
    /// A call may go through as many pages as are held below it: a walk over all of them goes by [`Pages::next_held`].
    fn held_at(&self, i: u32) -> u32
        requires { i < length (held_pages (Self.pages self.now) (Self.view self.now)) }
        ensures { result ≡ slice_index (held_pages (Self.pages self.now) (Self.view self.now)) i };

    /// The least page above `after` that has a view, and `None` exactly where there is none.
    ///
    /// A walk over all held pages goes by this call, from `after` 0 on.
    fn next_held(&self, after: u32) -> Option<u32>
        ensures { result ≡ held_after (Self.pages self.now) (Self.view self.now) after };
}
