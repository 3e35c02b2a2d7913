//! Which bytes of images are owned, and where freeblocks begin.
ghost use Rattle.std.specs.Prelude.{◌≡◌, ℕ, ◌+◌, ◌<◌, ◌≤◌, List, [], length, All, not, IfOk, OnOk, OnErr};
ghost use Rattle.sx_owned.specs.declared.run.Run.{Run};
ghost use Rattle.sx_owned.specs.Owned.{images_of, owned_at, block_at, IsFresh, Owns, Begins};
ghost use Rattle.sx_owned.specs.Spans.{AreMaximal};

use crate::places::Places;
use crate::run::Run;
use crate::unowned::Unowned;
use std::alloc::{AllocError, Global};
use std::marker::Model;
use sx_base::Span;

/// Which bytes of page images are owned, and where freeblocks begin; images are named by their numbers from 0.
///
/// The memory is in proportion to the images and the runs of owned bytes that follow one another.
#[derive(Drop)]
pub struct OwnedRuns {
    page_size: u32,
    owned: Vec<Places>,
    blocks: Vec<Places>,
}

impl Model for OwnedRuns {
    ghost use Rattle.sx_owned.specs.Owned.{Owned, IsTable};

    ghost Value = { Owned };

    ghost view = { λ table. record { page_size = table.page_size; owned = table.owned.items; blocks = table.blocks.items } };

    ghost invariant = { λ table. IsTable table.owned.items table.blocks.items table.page_size };
}

impl OwnedRuns {
    /// So many images of `page_size` bytes each, of which nothing is owned.
    ///
    /// The cost is linear in the images. It answers `AllocError` where memory runs out.
    pub fn fresh(alloc: Global, images: u32, page_size: u32) -> Result<OwnedRuns, AllocError>
        ensures { IfOk result (λ made. IsFresh made images page_size) }
    {
        let owned = empty_sets(alloc, images)?;
        let blocks = empty_sets(alloc, images)?;
        Ok(OwnedRuns {
            page_size,
            owned,
            blocks,
        })
    }

    /// How many images there are.
    pub fn images(&self) -> u32
        ensures { result ≡ images_of self.now }
    {
        self.owned.len() as u32
    }

    /// The size of an image in bytes.
    pub fn page_size(&self) -> u32
        ensures { result ≡ self.now.page_size }
    {
        self.page_size
    }

    /// The bytes of `span` of an image are owned from now on. A refusal changes nothing.
    ///
    /// The cost is constant where no owned run of the image begins behind the span, and else linear in the image's runs.
    /// It answers `AllocError` where memory runs out.
    pub fn add(&mut self, image: u32, span: Span) -> Result<(), AllocError>
        requires image { image < images_of self.old }
        requires within { span.start + span.len ≤ self.old.page_size }
        ensures ok { OnOk result (Owns self.old self.new image span) }
        ensures err { OnErr result (self.new ≡ self.old) }
    {
        if span.len == 0 {
            return Ok(());
        }
        let places = &mut self.owned[image as usize];
        places.add(Run {
            start: span.start,
            end: span.start + span.len,
        })
    }

    /// A freeblock begins at the offset `at` of an image. A refusal changes nothing.
    ///
    /// Costs and `AllocError` are those of [`OwnedRuns::add`].
    pub fn block(&mut self, image: u32, at: u32) -> Result<(), AllocError>
        requires image { image < images_of self.old }
        requires within { at < self.old.page_size }
        ensures ok { OnOk result (Begins self.old self.new image at) }
        ensures err { OnErr result (self.new ≡ self.old) }
    {
        let places = &mut self.blocks[image as usize];
        places.add(Run {
            start: at,
            end: at + 1,
        })
    }

    /// The maximal spans of the bytes of an image that aren't owned, in order.
    ///
    /// Going over them costs the image's runs. Takes no memory.
    pub fn unowned(&self, image: u32) -> Unowned<'_>
        requires { image < images_of self.now }
        ensures { AreMaximal self.now.page_size (λ at. not (owned_at self.now image at)) result }
    {
        let places = &self.owned[image as usize];
        places.gaps(self.page_size)
    }

    /// Whether a freeblock begins at the offset `at` of an image.
    ///
    /// The cost is logarithmic in the image's freeblocks.
    #[inline]
    pub fn is_block(&self, image: u32, at: u32) -> bool
        requires { image < images_of self.now }
        ensures { result ≡ block_at self.now image at }
    {
        let places = &self.blocks[image as usize];
        places.contains(at)
    }
}

/// So many sets without a place.
fn empty_sets(alloc: Global, count: u32) -> Result<Vec<Places>, AllocError>
    ensures count { IfOk result (λ sets. length sets.items ≡ count) }
    ensures none { IfOk result (λ sets. All (λ places. places ≡ []) sets.items) }
{
    let mut sets = Vec::with_capacity(alloc, count as usize)?;
    for _ in 0..count {
        sets.push(Places::none(alloc))?;
    }
    Ok(sets)
}
