//! What a case keeps beside the evidence: which images each page has first.
ghost use Rattle.std.specs.Prelude.{◌≡◌, ℕ, ◌<◌, ◌≤◌, ◌==◌, ◌||◌, ◌&&◌, Bool, not, if◌then◌else◌, None, [], ◌∷◌, ◌++◌, length, map, is_some, IfOk, OnOk};
ghost use Rattle.std.specs.Ordering.{nat_cmp};
ghost use Rattle.std.specs.BTreeMap.{get};
ghost use Rattle.sx_base.specs.Places.{first_place};
ghost use Rattle.sx_chain.specs.Newest.{has_number};
ghost use Rattle.sx_journal.specs.Entries.{is_good_class};
ghost use Rattle.sx_moment.specs.Gathered.{page_count};
ghost use Rattle.sx_moment.specs.Views.{lock_in, slot_pages};
ghost use Rattle.sx_moment.specs.Marks.{is_same};
ghost use Rattle.sx_moment.specs.Firsts.{first_in};
ghost use Rattle.sx_moment.specs.Images.{first_slot, first_record, past_only, is_in_file, is_marked};
ghost use Rattle.sx_moment.specs.Gathering.{noted, images_of, image_with, firsts_of, has_key};

use crate::first_image::FirstImage;
use crate::first_images::FirstImages;
use crate::sources::Sources;
use std::alloc::{AllocError, Global};
use std::collections::BTreeMap;
use sx_base::Class;
use sx_chain::Chains;

// Notes that the image `i` holds the page, where it counts and none was noted before.
fn note(found: &mut BTreeMap<u32, u32>, counts: bool, page: u32, i: u32) -> Result<(), AllocError>
    ensures { OnOk result ((number : ℕ) → get nat_cmp found.new number ≡ noted counts page i (get nat_cmp found.old number) number) }
{
    if !counts || found.contains_key(&page) {
        return Ok(());
    }
    found.insert(page, i)?;
    Ok(())
}

/// The first Good record of each page. The cost is a look-up for each record.
pub fn first_records(alloc: Global, sources: &Sources<'_>) -> Result<BTreeMap<u32, u32>, AllocError>
    ensures { IfOk result (λ found. (number : ℕ) → get nat_cmp found number ≡ first_record sources.now number) }
{
    let mut found = BTreeMap::new(alloc);
    for i in 0..sources.records() {
        let item = sources.record(i);
        note(&mut found, is_good_class(item.class), item.page, i)?;
    }
    Ok(found)
}

/// The pages of the file that some Committed slot equals, each with one such slot. A page of the file is compared at most
/// once with each slot of it, and with none after one that equals it.
pub fn same_pages(alloc: Global, sources: &Sources<'_>) -> Result<FirstImages, AllocError>
    ensures { IfOk result (λ images. (number : ℕ) → is_some (first_in images number) ≡ is_marked sources.now number) }
{
    let found = same_slots(alloc, sources)?;
    let images = numbered_images(alloc, &found)?;
    Ok(images)
}

// The same as a map, while it grows.
fn same_slots(alloc: Global, sources: &Sources<'_>) -> Result<BTreeMap<u32, u32>, AllocError>
    ensures { IfOk result (λ found. (number : ℕ) → is_some (get nat_cmp found number) ≡ is_marked sources.now number) }
{
    let mut found = BTreeMap::new(alloc);
    for i in 0..sources.slots() {
        note_same(&mut found, sources, i)?;
    }
    Ok(found)
}

// Notes the page of slot `i` where the slot equals it.
fn note_same(
    found: &mut BTreeMap<u32, u32>,
    sources: &Sources<'_>,
    i: u32,
) -> Result<(), AllocError>
    requires { i < length sources.now.wal.slots }
    ensures { OnOk result ((number : ℕ) → is_some (get nat_cmp found.new number)
        ≡ (is_some (get nat_cmp found.old number) || (is_in_file (lock_in sources.now) (page_count sources.now) number && is_same sources.now number i))) }
{
    let page = sources.slot(i).page;
    if !sources.is_in_file(page) {
        return Ok(());
    }
    if found.contains_key(&page) {
        return Ok(());
    }
    note(found, sources.is_same(i), page, i)
}

// The pages of a map but 0, which is the number of no page: in less than half the memory of the map.
fn numbered_images(alloc: Global, found: &BTreeMap<u32, u32>) -> Result<FirstImages, AllocError>
    ensures { IfOk result (λ images. (number : ℕ) → first_in images number ≡ (if not (number == 0) then get nat_cmp found.now number else None)) }
{
    let mut items = Vec::with_capacity(alloc, found.len())?;
    for (page, first) in found.iter() {
        push_if(&mut items, *page != 0, *page, *first)?;
    }
    Ok(FirstImages::new(items))
}

/// The pages past the end of the file that can have a view and that slots hold, each with its first slot. The cost is a
/// look-up for each page.
pub fn past_of_slots(
    alloc: Global,
    frames: &Chains,
    sources: &Sources<'_>,
) -> Result<FirstImages, AllocError>
    requires { frames.now ≡ slot_pages sources.now }
    ensures { IfOk result (λ images. (number : ℕ) → first_in images number ≡ past_only sources.now (first_slot sources.now) number) }
{
    let pages = frames.numbers();
    let mut items = Vec::new(alloc);
    for i in 0..pages.len() {
        push_first(&mut items, pages[i], past_slot(frames, sources, pages[i]))?;
    }
    Ok(FirstImages::new(items))
}

// The first slot of a page past the end of the file that can have a view.
fn past_slot(frames: &Chains, sources: &Sources<'_>, page: u32) -> Option<u32>
    requires { frames.now ≡ slot_pages sources.now }
    ensures { result ≡ past_only sources.now (first_slot sources.now) page }
{
    if sources.page_count() < page && page != sources.lock_page() {
        frames.oldest(page)
    } else {
        None
    }
}

/// Of the first Good records of pages, those past the end of the file that can have a view. The cost is that of going
/// over the map.
pub fn past_of_records(
    alloc: Global,
    found: &BTreeMap<u32, u32>,
    sources: &Sources<'_>,
) -> Result<FirstImages, AllocError>
    ensures { IfOk result (λ images. (number : ℕ) → first_in images number ≡ past_only sources.now (get nat_cmp found.now) number) }
{
    let lock = sources.lock_page();
    let count = sources.page_count();
    let mut items = Vec::with_capacity(alloc, found.len())?;
    for (page, first) in found.iter() {
        push_if(&mut items, count < *page && *page != lock, *page, *first)?;
    }
    Ok(FirstImages::new(items))
}

/// The pages of a list, each with its first slot. The cost is a look-up for each.
pub fn marked_images(
    alloc: Global,
    same: &FirstImages,
    frames: &Chains,
) -> Result<FirstImages, AllocError>
    ensures { IfOk result (λ images. (number : ℕ) → first_in images number
        ≡ (if has_key (first_in same.now) number then first_place (has_number frames.now number) (length frames.now) else None)) }
{
    let mut items = Vec::with_capacity(alloc, same.len())?;
    for i in 0..same.len() {
        let page = same.at(i).page;
        push_first(&mut items, page, frames.oldest(page))?;
    }
    Ok(FirstImages::new(items))
}

// Puts a page with its first image behind the others, where it has one.
fn push_first(items: &mut Vec<FirstImage>, page: u32, first: Option<u32>) -> Result<(), AllocError>
    ensures { OnOk result (items.new.items ≡ items.old.items ++ image_with page first) }
{
    match first {
        Some(first) => items.push(FirstImage { page, first })?,
        None => {}
    }
    Ok(())
}

// Puts a page with its first image behind the others, where it is kept.
fn push_if(
    items: &mut Vec<FirstImage>,
    keeps: bool,
    page: u32,
    first: u32,
) -> Result<(), AllocError>
    ensures { OnOk result (items.new.items ≡ items.old.items ++ (if keeps then (record { page = page; first = first }) ∷ [] else [])) }
{
    if keeps {
        items.push(FirstImage { page, first })?;
    }
    Ok(())
}

// Whether a record is Good.
fn is_good_class(class: Class) -> bool
    ensures { result ≡ is_good_class class }
{
    matches!(class, Class::Good)
}
