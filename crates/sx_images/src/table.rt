//! The images of the three files, by number.
ghost use Rattle.std.specs.Prelude.{◌≡◌, ◌↔◌, ℕ, ◌+◌, ◌<◌, ◌≤◌, ◌^◌, length, slice_get, Option, Some, None};
ghost use Rattle.sx_images.specs.Images.{pages_of, images_of, length_of, Holds, IsBefore};
ghost use Rattle.sx_images.specs.Search.{begun};

use crate::image::Image;
use crate::lengths::Lengths;
use crate::physical::Physical;
use crate::stretch::Stretch;
use std::marker::Model;
use sx_base::{Class, Part, Place};

/// The page images of the three files, in order of file and offset, and how the rest of the files is laid out.
///
/// It takes 16 bytes for each frame of the log, each record and each segment of the journal, and none for the pages of
/// the database.
#[derive(Drop)]
pub struct ImageTable {
    pub(crate) page_size: u32,
    pub(crate) lengths: Lengths,
    pub(crate) frames: u32,
    pub(crate) stored: Vec<Image>,
    pub(crate) head_len: u32,
    pub(crate) sector: u32,
    pub(crate) stretches: Vec<Stretch>,
}

impl Model for ImageTable {
    ghost use Rattle.sx_images.specs.Images.{Table, kept};
    ghost use Rattle.sx_images.specs.Read.{IsTable};

    ghost Value = { Table };

    ghost view = { λ table. kept table.page_size table.lengths table.frames table.stored.items table.head_len table.sector table.stretches.items };

    ghost invariant = { λ table. IsTable (kept table.page_size table.lengths table.frames table.stored.items table.head_len table.sector table.stretches.items) };
}

impl ImageTable {
    /// The size of an image in bytes.
    pub fn page_size(&self) -> u32
        ensures { result ≡ self.now.page_size }
    {
        self.page_size
    }

    /// The lengths of the three files.
    pub fn lengths(&self) -> Lengths
        ensures { result ≡ self.now.lengths }
    {
        self.lengths
    }

    /// How many images there are.
    #[tactic(auto, unfolding(crate::specs::Images::images_of))]
    pub fn count(&self) -> u32
        ensures { result ≡ length (images_of self.now) }
    {
        self.pages() + self.stored.len() as u32
    }

    /// Image `i`, from 0.
    #[tactic(auto, unfolding(crate::specs::Images::images_of))]
    pub fn image(&self, i: u32) -> Image
        requires { i < length (images_of self.now) }
        ensures { slice_get (images_of self.now) i ≡ Some result }
    {
        let pages = self.pages();
        if i < pages {
            return Image {
                part: Part::Database,
                offset: u64::from(i) * u64::from(self.page_size),
                page: i + 1,
                class: Class::File,
            };
        }
        self.stored[(i - pages) as usize]
    }

    /// The image that begins at a place, and `None` exactly where none does.
    ///
    /// The cost is logarithmic in the segments of the journal, and constant in the other files.
    pub fn find(&self, place: Place) -> Option<u32>
        ensures { (i : ℕ) → (result ≡ Some i) ↔ Holds self.now i 0 place }
    {
        begun(self.place_of(place))
    }

    /// The images stand in order of file and offset, and none reaches into the next. This is a law; the call has no code.
    pub fn images_stand_in_order(&self)
        ensures { (i j : ℕ) (first second : Image) → i < j → slice_get (images_of self.now) i ≡ Some first → slice_get (images_of self.now) j ≡ Some second → IsBefore self.now.page_size first second }
    {
        let _frames = self.frames;
    }

    /// Each image lies in its file, which has fewer than 2^32 bytes. This is a law; the call has no code.
    pub fn images_lie_in_their_files(&self)
        ensures within { (i : ℕ) (image : Image) → slice_get (images_of self.now) i ≡ Some image → image.offset + self.now.page_size ≤ length_of self.now.lengths image.part }
        ensures small { (i : ℕ) (image : Image) → slice_get (images_of self.now) i ≡ Some image → image.offset < 2 ^ 32 }
    {
        let _frames = self.frames;
    }

    /// How many whole pages the database file has.
    pub(crate) fn pages(&self) -> u32
        ensures { result ≡ pages_of self.now }
    {
        (self.lengths.database / u64::from(self.page_size)) as u32
    }
}

/// The image whose first byte this is, if it is one's.
fn begun(place: Option<Physical>) -> Option<u32>
    ensures { result ≡ begun place }
{
    match place {
        Some(Physical::Image(i, b)) => { if b == 0 { Some(i) } else { None } }
        _ => None,
    }
}
