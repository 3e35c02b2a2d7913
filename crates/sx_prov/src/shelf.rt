//! Page maps that are kept, for callers that ask for one page again and again.
ghost use Rattle.std.specs.Prelude.{◌≡◌, ℕ, ◌<◌, ◌≤◌, ◌^◌, ◌++◌, ◌∷◌, [], List, length, slice_get, Option, Some, None, IsSome, IsTrue, IfOk, IfSome, IfNone, OnOk, OnErr, Contains, if◌then◌else◌, ◌==◌, ◌≢◌};
ghost use Rattle.sx_base.specs.Maps.{lock_page_of};
ghost use Rattle.std.specs.Ordering.{nat_cmp};
ghost use Rattle.std.specs.BTreeMap.{get};
ghost use Rattle.sx_base.specs.Places.{last_place};
ghost use Rattle.sx_chain.specs.Newest.{has_number};
ghost use Rattle.sx_chain.specs.Links.{IsChained};
ghost use Rattle.sx_prov.specs.Keys.{key_of, keyed_labels, table_labels};
ghost use Rattle.sx_prov.specs.Shelf.{Entry, entry_of, entries_of, images_of, links_of, IsMade, AreKept, IsAsked};

use crate::key::{PageKey, page_key};
use crate::keyed::keyed_map;
use crate::map::PageMap;
use std::alloc::{AllocError, Global};
use std::collections::BTreeMap;
use std::marker::Model;
use sx_base::{Layout, Pages};
use sx_refs::RefTable;

/// A map that is kept: of the page with this key and these bytes, which are those of an image.
#[derive(Drop)]
struct Kept<'a> {
    image: u32,
    key: PageKey,
    view: &'a [u8],
    map: PageMap,
    /// The place of the map before it that is of the same image.
    before: Option<u32>,
}

/// Maps that were made, each found again by its image, its key and its bytes. Contracts see the list of these.
#[derive(Drop)]
pub struct Maps<'a> {
    alloc: Global,
    kept: Vec<Kept<'a>>,
    newest: BTreeMap<u32, u32>,
}

impl<'a> Model for Maps<'a> {
    ghost use Rattle.std.specs.Prelude.{List};
    ghost use Rattle.std.specs.Ordering.{nat_cmp};
    ghost use Rattle.std.specs.BTreeMap.{get};
    ghost use Rattle.sx_prov.specs.Shelf.{Entry, entries_of, AreKept};

    ghost Value = { List Entry };

    ghost view = { λ maps. entries_of maps.kept.items };

    ghost invariant = { λ maps. AreKept maps.kept.items (get nat_cmp maps.newest) };
}

impl<'a> Maps<'a> {
    /// No maps.
    pub fn fresh(alloc: Global) -> Result<Self, AllocError>
        ensures { IfOk result (λ maps. maps ≡ []) }
    {
        Ok(Maps {
            alloc,
            kept: Vec::new(alloc),
            newest: BTreeMap::new(alloc),
        })
    }

    /// The place, from 0, of the kept map of an image with this key and these bytes, which is made where there is none.
    fn keep(&mut self, image: u32, key: PageKey, view: &'a [u8]) -> Result<u32, AllocError>
        requires least { 480 ≤ key.usable }
        requires within { key.usable ≤ length view.now }
        requires small { length view.now ≤ 65536 }
        ensures { IsAsked self.old self.new (record { image = image; key = key; view = view.entry.now }) result }
    {
        let before = newest_of(&self.newest, image);
        if let Some(place) = find(&self.kept, before, image, key, view) {
            return Ok(place);
        }
        let map = keyed_map(self.alloc, view, key)?;
        let one = Kept {
            image,
            key,
            view,
            map,
            before,
        };
        push(&mut self.kept, &mut self.newest, one)
    }

    /// The place, from 0, of the map of page `no` of a moment, which is an image of that number: a kept one, or one that is
    /// made and kept now.
    ///
    /// The conditions are those of [`page_map`](crate::page_map), that the page has a view, and that it isn't the lock-byte
    /// page. A kept map is found among those of its image, from the newest back, each of which costs a comparison of its
    /// bytes. Where there is one the call takes no memory. It answers `AllocError` where memory runs out, and then nothing
    /// has changed.
    pub fn place_of<P: Pages<'a>>(
        &mut self,
        pages: &P,
        refs: &RefTable,
        layout: &Layout,
        no: u32,
        image: u32,
    ) -> Result<u32, AllocError>
        requires page_size { P.page_size pages.now ≡ layout.now.page_size }
        requires least { 480 ≤ layout.now.usable }
        requires within { layout.now.usable ≤ layout.now.page_size }
        requires small { layout.now.page_size ≤ 65536 }
        requires viewed { IsSome (P.view pages.now no) }
        ensures { (bytes : List ℕ) → P.view pages.now no ≡ Some bytes
            → IsAsked self.old self.new (record { image = image; key = key_of refs.now layout.now.usable no; view = bytes }) result }
    {
        // That the pages have a size says how long their views are.
        let _size = pages.size();
        let key = page_key(pages, refs, layout, no);
        match pages.page(no) {
            Some(view) => self.keep(image, key, view),
            None => unreachable!(),
        }
    }

    /// The map at a place.
    pub fn map(&self, place: u32) -> &PageMap
        requires { place < length self.now }
        ensures { (entry : Entry) → slice_get self.now place ≡ Some entry → result.now ≡ keyed_labels entry.key entry.view }
    {
        &self.kept[place as usize].map
    }

    /// The map of page `no` of a moment, kept or made now: what [`page_map`](crate::page_map) gives.
    ///
    /// Conditions, cost and refusal are those of [`Maps::place_of`], whose clause says what is kept then.
    pub fn map_of<P: Pages<'a>>(
        &mut self,
        pages: &P,
        refs: &RefTable,
        layout: &Layout,
        no: u32,
        image: u32,
    ) -> Result<&PageMap, AllocError>
        requires page_size { P.page_size pages.now ≡ layout.now.page_size }
        requires least { 480 ≤ layout.now.usable }
        requires within { layout.now.usable ≤ layout.now.page_size }
        requires small { layout.now.page_size ≤ 65536 }
        requires viewed { IsSome (P.view pages.now no) }
        requires lock { no ≢ lock_page_of layout.now.page_size }
        ensures { IfOk result (λ map. map.now ≡ table_labels refs.now layout.now (P.view pages.now) no) }
    {
        let place = self.place_of(pages, refs, layout, no, image)?;
        Ok(self.map(place))
    }
}

/// Puts a map behind the others, and answers its place. A refusal changes nothing.
fn push<'a>(
    kept: &mut Vec<Kept<'a>>,
    newest: &mut BTreeMap<u32, u32>,
    one: Kept<'a>,
) -> Result<u32, AllocError>
    requires kept { AreKept kept.old.items (get nat_cmp newest.old) }
    requires before { one.before ≡ get nat_cmp newest.old one.image }
    requires made { IsMade one }
    ensures kept { AreKept kept.new.items (get nat_cmp newest.new) }
    ensures ok { OnOk result (kept.new.items ≡ kept.old.items ++ one.entry ∷ []) }
    ensures place { IfOk result (λ place. place ≡ length kept.old.items) }
    ensures err { OnErr result (kept.new.items ≡ kept.old.items) }
{
    let place = kept.len();
    if place >= u32::MAX as usize - 1 {
        return Err(AllocError);
    }
    let image = one.image;
    kept.push(one)?;
    match note(newest, image, place as u32) {
        Ok(()) => Ok(place as u32),
        Err(refused) => {
            kept.truncate(place);
            Err(refused)
        }
    }
}

/// Notes the place of the newest map of an image. A refusal changes nothing.
fn note(newest: &mut BTreeMap<u32, u32>, image: u32, place: u32) -> Result<(), AllocError>
    ensures ok { OnOk result ((other : ℕ) → get nat_cmp newest.new other ≡ (if image == other then Some place else get nat_cmp newest.old other)) }
    ensures err { OnErr result ((other : ℕ) → get nat_cmp newest.new other ≡ get nat_cmp newest.old other) }
{
    newest.insert(image, place)?;
    Ok(())
}

/// The place of the newest map of an image.
fn newest_of(newest: &BTreeMap<u32, u32>, image: u32) -> Option<u32>
    ensures { result ≡ get nat_cmp newest.now image }
{
    newest.get(&image).copied()
}

/// The place of the map of an image with this key and these bytes, looked for from the newest of the image back.
fn find(
    kept: &[Kept<'_>],
    newest: Option<u32>,
    image: u32,
    key: PageKey,
    view: &[u8],
) -> Option<u32>
    requires chained { IsChained (images_of kept.now) (links_of kept.now) }
    requires newest { newest ≡ last_place (has_number (images_of kept.now) image) (length kept.now) }
    ensures some { IfSome result (λ place. slice_get (entries_of kept.now) place ≡ Some (record { image = image; key = key; view = view.now })) }
    ensures none { IfNone result (Contains (entries_of kept.now) (record { image = image; key = key; view = view.now }) → ⊥) }
{
    let mut found = newest;
    while let Some(place) = found {
        let one = &kept[place as usize];
        if is_of(one, key, view) {
            return found;
        }
        found = one.before;
    }
    None
}

/// Whether a kept map is of a page with this key and these bytes.
fn is_of(one: &Kept<'_>, key: PageKey, view: &[u8]) -> bool
    ensures yes { IsTrue result → ((entry_of one.now).key ≡ key) × ((entry_of one.now).view ≡ view.now) }
    ensures no { (entry_of one.now).key ≡ key → (entry_of one.now).view ≡ view.now → IsTrue result }
{
    one.key == key && one.view == view
}
