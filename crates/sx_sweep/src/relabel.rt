//! Labels a page of a moment, where it isn't as it was labelled last.
ghost use Rattle.std.specs.Prelude.{◌≡◌, ℕ, ◌<◌, ◌≤◌, ◌==◌, ◌&&◌, length, slice_index, IfSome, OnOk, Some, None};
ghost use Rattle.sx_images.specs.Images.{images_of};
ghost use Rattle.sx_moment.specs.Views.{source_of, bytes_from};
ghost use Rattle.sx_owned.specs.Owned.{images_of as owned_images};
ghost use Rattle.sx_prov.specs.Keys.{key_of, keyed_labels};
ghost use Rattle.sx_sums.specs.Entries.{entry_at};
ghost use Rattle.sx_sweep.specs.Growth.{nowhere, Grows};
ghost use Rattle.sx_sweep.specs.Owning.{is_viewed};
ghost use Rattle.sx_sweep.specs.Told.{owning_in, only_in};
ghost use Rattle.sx_sweep.specs.Passing.{key_begins, IsKnown, Passes};

use crate::known::Known;
use crate::page::{add_map, add_node};
use crate::scene::Scene;
use std::alloc::{AllocError, Global};
use sx_base::{Pages, Place};
use sx_images::ImageTable;
use sx_owned::OwnedRuns;
use sx_prov::{PageKey, PageMap, Standing, keyed_map, page_key};
use sx_sums::Labelled;

impl<'s, 'c, 'a> Scene<'s, 'c, 'a> {
    /// Goes over the page of a rank: where its view and its key are those with which it was labelled last, its bytes are known.
    pub fn relabel(&self, alloc: Global, rank: u32, known: &mut Known) -> Result<(), AllocError>
        requires rank { rank < length self.now.sweep.now.numbers }
        requires known { IsKnown self.now.sweep.now.case self.now.sweep.now.numbers self.now.images.now known.old.owned known.old.sums }
        ensures { OnOk result (Passes self.now.sweep.now.case self.now.sweep.now.moment self.now.sweep.now.numbers self.now.table.now self.now.layout.now self.now.images.now known.old.owned known.new.owned known.old.sums known.new.sums (λ other. rank == other)) }
    {
        let Some(place) = self.sweep.source(rank) else {
            known.sums.hide(rank);
            return Ok(());
        };
        let no = self.sweep.number(rank);
        let key = page_key(self.sweep, self.table, self.layout, no);
        match same_labels(known.sums.last(rank), place, key) {
            Some(labelled) => {
                known.sums.show(rank, labelled);
                Ok(())
            }
            None => self.label(alloc, rank, no, place, key, known),
        }
    }

    /// Labels the page of a rank, which has a view and this key.
    fn label(
        &self,
        alloc: Global,
        rank: u32,
        no: u32,
        place: Place,
        key: PageKey,
        known: &mut Known,
    ) -> Result<(), AllocError>
        requires rank { rank < length self.now.sweep.now.numbers }
        requires number { no ≡ slice_index self.now.sweep.now.numbers rank }
        requires place { source_of self.now.sweep.now.case self.now.sweep.now.moment no ≡ Some place }
        requires usable { key.usable ≡ self.now.layout.now.usable }
        requires key { key ≡ key_of self.now.table.now self.now.layout.now.usable no }
        requires known { IsKnown self.now.sweep.now.case self.now.sweep.now.numbers self.now.images.now known.old.owned known.old.sums }
        ensures { OnOk result (Passes self.now.sweep.now.case self.now.sweep.now.moment self.now.sweep.now.numbers self.now.table.now self.now.layout.now self.now.images.now known.old.owned known.new.owned known.old.sums known.new.sums (λ other. rank == other)) }
    {
        let snapshot = self.sweep.snapshot();
        snapshot.views_lie();
        let Some(view) = self.sweep.page(no) else {
            unreachable!()
        };
        let map = keyed_map(alloc, view, key)?;
        add_view(self.images, place, view, key, &map, &mut known.owned)?;
        let totals = map.totals();
        known.sums.show(rank, Labelled { place, key, totals });
        Ok(())
    }
}

/// With what a page was labelled last, where that was with this place and this key.
fn same_labels(last: Option<Labelled>, place: Place, key: PageKey) -> Option<Labelled>
    ensures { IfSome result (λ labelled. (last ≡ Some labelled) × (labelled.place ≡ place) × (labelled.key ≡ key)) }
{
    match last {
        Some(labelled) if labelled.place == place && labelled.key == key => Some(labelled),
        _ => None,
    }
}

/// Adds what a view's labels and key give, to the image that begins where the view does, if one does.
fn add_view(
    images: &ImageTable,
    place: Place,
    view: &[u8],
    key: PageKey,
    map: &PageMap,
    owned: &mut OwnedRuns,
) -> Result<(), AllocError>
    requires count { owned_images owned.old ≡ length (images_of images.now) }
    requires same { owned.old.page_size ≡ images.now.page_size }
    requires long { length view.now ≡ owned.old.page_size }
    requires size { length map.now ≡ owned.old.page_size }
    requires least { 480 ≤ key.usable }
    requires within { key.usable ≤ length view.now }
    requires small { length view.now ≤ 65536 }
    ensures { OnOk result (Grows owned.old owned.new (λ image at. is_viewed (images_of images.now) (Some place) image && owning_in map.now at) (λ image at. is_viewed (images_of images.now) (Some place) image && key_begins key view.now at)) }
{
    let Some(image) = images.find(place) else {
        return Ok(());
    };
    add_map(map, image, owned)?;
    add_begun(view, key, image, owned)
}

/// Names the freeblocks that a key gives, in the image that is the view.
#[tactic(auto, unfolding(crate::specs::Passing::key_begins))]
fn add_begun(view: &[u8], key: PageKey, image: u32, owned: &mut OwnedRuns) -> Result<(), AllocError>
    requires image { image < owned_images owned.old }
    requires size { length view.now ≡ owned.old.page_size }
    requires least { 480 ≤ key.usable }
    requires within { key.usable ≤ length view.now }
    requires small { length view.now ≤ 65536 }
    ensures { OnOk result (Grows owned.old owned.new nowhere (only_in image (key_begins key view.now))) }
{
    match key.standing {
        Standing::FirstNode => add_node(view, 1, key.usable, image, owned),
        Standing::Node => add_node(view, 2, key.usable, image, owned),
        _ => Ok(()),
    }
}
