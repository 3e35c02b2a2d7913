//! The pages of a moment whose usable bytes nothing owns.
ghost use Rattle.std.specs.Prelude.{◌≡◌, ℕ, ◌<◌, ◌≤◌, true, List, length, is_some, nat_eq, IfSome, option_copied};
ghost use Rattle.std.specs.List.{list_any};
ghost use Rattle.sx_images.specs.Images.{images_of};
ghost use Rattle.sx_moment.specs.Views.{source_of};
ghost use Rattle.sx_owned.specs.Owned.{images_of as owned_images, owned_at};
ghost use Rattle.sx_spill.specs.Chains.{are_distinct};
ghost use Rattle.sx_spill.specs.Unused.{Fit, image_in, image_at, is_unowned, unused_by};

use std::marker::Model;
use sx_base::Pages;
use sx_images::{ImageTable, Physical};
use sx_moment::Snapshot;
use sx_owned::OwnedRuns;

/// The pages of a moment of whose images nothing owns a usable byte.
#[derive(Drop)]
pub struct UnusedPages<'t, 'c, 'a> {
    snapshot: &'t Snapshot<'c, 'a>,
    images: &'t ImageTable,
    owned: &'t OwnedRuns,
    usable: u32,
}

impl<'t, 'c, 'a> Model for UnusedPages<'t, 'c, 'a> {
    ghost use Rattle.sx_spill.specs.Unused.{Given, Fit};

    ghost Value = { Given };

    ghost view = { λ it. record { case = it.snapshot.now.case.now; moment = it.snapshot.now.moment; images = it.images.now; owned = it.owned.now; usable = it.usable } };

    ghost invariant = { λ it. Fit it.snapshot.now.case.now it.images.now it.owned.now it.usable };
}

impl<'t, 'c, 'a> UnusedPages<'t, 'c, 'a> {
    /// The pages of a moment of whose images these bytes are owned, with so many usable bytes.
    pub fn of(
        snapshot: &'t Snapshot<'c, 'a>,
        images: &'t ImageTable,
        owned: &'t OwnedRuns,
        usable: u32,
    ) -> Self
        requires { Fit snapshot.now.case.now images.now owned.now usable }
        ensures { result ≡ record { case = snapshot.now.case.now; moment = snapshot.now.moment; images = images.now; owned = owned.now; usable = usable } }
    {
        UnusedPages {
            snapshot,
            images,
            owned,
            usable,
        }
    }

    /// How many bytes of a page are in use, 480 or more.
    pub fn usable(&self) -> u32
        ensures usable { result ≡ self.now.usable }
        ensures least { 480 ≤ result }
    {
        self.usable
    }

    /// The view of page `no`, where it has one and nothing owns a usable byte of its image.
    ///
    /// It takes a look at the first run of the image's owned bytes.
    #[tactic(auto, unfolding(crate::specs::Unused::unused_at))]
    pub fn page(&self, no: u32) -> Option<&'a [u8]>
        ensures view { option_copied result ≡ (unused_by self.now).view no }
        ensures whole { IfSome result (λ page. self.now.usable ≤ length page.now) }
    {
        let image = image_of(self.snapshot, self.images, no)?;
        if !is_unowned(self.owned, image, self.usable) {
            return None;
        }
        self.snapshot.page(no)
    }

    /// How many pages of the moment have a view: no more distinct ones can be found here.
    #[tactic(auto, using(crate::proofs::HeldNumbers::unused_few))]
    pub fn most(&self) -> u32
        ensures { (numbers : List ℕ) → are_distinct numbers ≡ true → ((q : ℕ) → list_any (nat_eq q) numbers ≡ true → is_some ((unused_by self.now).view q) ≡ true) → length numbers ≤ result }
    {
        let _size = self.snapshot.size();
        self.snapshot.held()
    }
}

/// The number of the image that the view of page `no` begins in.
fn image_of(snapshot: &Snapshot<'_, '_>, images: &ImageTable, no: u32) -> Option<u32>
    ensures image { result ≡ image_at images.now (source_of snapshot.now.case.now snapshot.now.moment no) }
    ensures there { IfSome result (λ image. image < length (images_of images.now)) }
{
    let place = snapshot.source(no)?;
    match images.place_of(place) {
        Some(Physical::Image(image, _)) => Some(image),
        _ => None,
    }
}

/// Whether none of the first so many bytes of an image is owned.
#[tactic(auto, using(crate::proofs::FrontLemmas::front_unowned, crate::proofs::FrontLemmas::all_owned))]
fn is_unowned(owned: &OwnedRuns, image: u32, usable: u32) -> bool
    requires image { image < owned_images owned.now }
    requires some { 0 < usable }
    requires within { usable ≤ owned.now.page_size }
    ensures { result ≡ is_unowned (owned_at owned.now) usable image }
{
    match owned.unowned(image).next() {
        Some(span) => span.start == 0 && span.len >= usable,
        None => false,
    }
}
