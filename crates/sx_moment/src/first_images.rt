//! Lists of pages that are asked by their number.
ghost use Rattle.std.specs.Prelude.{◌≡◌, ◌≢◌, ℕ, ◌<◌, ◌≤◌, ◌^◌, length, find, nat_lt, slice_get, slice_index, slice_index_or, Some, IfSome, IfNone};
ghost use Rattle.sx_moment.specs.Firsts.{Rises, first_in, below, is_taken, taken, IsSearched, IsSearchedAbove};
ghost use Rattle.sx_moment.specs.declared.first_image.FirstImage.{FirstImage as Image};

use crate::first_image::FirstImage;
use std::marker::Model;

/// Pages in rising order, each with the place of its first image. Contracts see the list.
#[derive(Drop)]
pub struct FirstImages {
    items: Vec<FirstImage>,
}

impl Model for FirstImages {
    ghost use Rattle.std.specs.Prelude.{List};
    ghost use Rattle.sx_moment.specs.Firsts.{Rises};
    ghost use Rattle.sx_moment.specs.declared.first_image.FirstImage.{FirstImage};

    ghost Value = { List FirstImage };

    ghost view = { λ images. images.items.items };

    ghost invariant = { λ images. Rises 1 images.items.items };
}

impl FirstImages {
    /// These pages, which rise, and none of which is 0.
    pub fn new(items: Vec<FirstImage>) -> Self
        requires { Rises 1 items.items }
        ensures { result ≡ items.items }
    {
        FirstImages { items }
    }

    /// How many pages there are.
    pub fn len(&self) -> usize
        ensures value { result ≡ length self.now }
        ensures few { result < 2 ^ 63 }
        ensures rise { Rises 1 self.now }
    {
        self.items.len()
    }

    /// The page at a place of the list, from 0, with its first image.
    pub fn at(&self, place: usize) -> FirstImage
        requires { place < length self.now }
        ensures { slice_get self.now place ≡ Some result }
    {
        self.items[place]
    }

    /// The first image of a page, where the page is listed. The cost is that of a binary search.
    pub fn find(&self, page: u32) -> Option<u32>
        ensures { result ≡ first_in self.now page }
    {
        let place = place_of(&self.items, page);
        if place == self.items.len() {
            return None;
        }
        let image = self.items[place];
        if image.page == page {
            Some(image.first)
        } else {
            None
        }
    }

    /// The place of a page with this first image. The cost is that of a binary search.
    pub fn place(&self, image: FirstImage) -> Option<usize>
        ensures rise { Rises 1 self.now }
        ensures some { IfSome result (λ place. slice_get self.now place ≡ Some image) }
        ensures none { IfNone result ((k : ℕ) → (d : Image) → k < length self.now → slice_index_or self.now k d ≢ image) }
    {
        let place = place_of(&self.items, image.page);
        if place == self.items.len() {
            return None;
        }
        if self.items[place] == image {
            Some(place)
        } else {
            None
        }
    }

    /// How many of the pages lie within a size: they are the first of the list. The cost is that of a binary search.
    pub fn within(&self, size: u32) -> u32
        ensures bound { result ≤ length self.now }
        ensures searched { IsSearchedAbove size self.now result }
    {
        place_above(&self.items, size) as u32
    }

    /// How many of the pages lie within a size and have their first image below a bound.
    pub fn count_taken(&self, bound: u32, size: u32) -> u32
        ensures { result ≡ length (taken (below bound) size self.now) }
    {
        let mut count = 0;
        for i in 0..self.items.len() {
            if is_taken(self.items[i], bound, size) {
                count += 1;
            }
        }
        count
    }

    /// The page at a place among those that [`FirstImages::count_taken`] counts, in rising order from 0.
    pub fn taken_at(&self, place: u32, bound: u32, size: u32) -> u32
        requires { place < length (taken (below bound) size self.now) }
        ensures { result ≡ slice_index (taken (below bound) size self.now) place }
    {
        let mut left = place;
        for i in 0..self.items.len() {
            let image = self.items[i];
            if is_taken(image, bound, size) {
                if left == 0 {
                    return image.page;
                }
                left -= 1;
            }
        }
        unreachable!()
    }

    /// The least of these pages above a number: one binary search, and from there forward.
    pub fn taken_after(&self, after: u32, bound: u32, size: u32) -> Option<u32>
        ensures { result ≡ find (nat_lt after) (taken (below bound) size self.now) }
    {
        let above = place_above(&self.items, after);
        for i in above..self.items.len() {
            let image = self.items[i];
            if is_taken(image, bound, size) {
                return Some(image.page);
            }
        }
        None
    }
}

// How many of the pages, which rise, are below a number.
fn place_of(images: &[FirstImage], page: u32) -> usize
    requires { Rises 1 images.now }
    ensures bound { result ≤ length images.now }
    ensures searched { IsSearched page images.now result }
{
    images.partition_point(|image| image.page < page)
}

// How many of the pages, which rise, are at or below a number.
fn place_above(images: &[FirstImage], page: u32) -> usize
    requires { Rises 1 images.now }
    ensures bound { result ≤ length images.now }
    ensures searched { IsSearchedAbove page images.now result }
{
    images.partition_point(|image| image.page <= page)
}

// Whether a page lies within the size and has its first image below the bound.
fn is_taken(image: FirstImage, bound: u32, size: u32) -> bool
    ensures { result ≡ is_taken (below bound) size image }
{
    image.first < bound && image.page <= size
}
