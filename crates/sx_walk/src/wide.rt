//! The pages of a moment as what names pages, over more numbers than are held.
ghost use Rattle.std.specs.Prelude.{◌≤◌};
ghost use Rattle.sx_closure.specs.Graph.{IsGraph};
ghost use Rattle.sx_follow.specs.Climbing.{IsSourced};
ghost use Rattle.sx_follow.specs.Widened.{widened};
ghost use Rattle.sx_refs.specs.Pages.{graph_of};

use std::alloc::AllocError;
use std::marker::PhantomData;
use sx_base::{Layout, PageViews, Pages};
use sx_closure::{Pair, Receiver};
use sx_follow::Names;
use sx_refs::give_named;

/// The pages of a moment over more numbers than are held, as what names pages: one without a view names nothing.
#[derive(Drop)]
pub(crate) struct WideLinks<'p, 'a, P: PageViews> {
    pub pages: &'p P,
    pub numbers: &'p [u32],
    pub layout: Layout,
    pub roots: &'p [i64],
    pub views: PhantomData<&'a [u8]>,
    ghost least: { 480 ≤ layout.usable },
    ghost within: { layout.usable ≤ P.page_size pages.now },
    ghost small: { P.page_size pages.now ≤ 65536 },
    ghost graph: { IsGraph (widened numbers.now (graph_of (P.pages pages.now) (P.view pages.now) layout roots.now)) },
    ghost sourced: { IsSourced (widened numbers.now (graph_of (P.pages pages.now) (P.view pages.now) layout roots.now)) },
}

impl<'p, 'a, P: Pages<'a>> Names for WideLinks<'p, 'a, P> {
    ghost use Rattle.sx_follow.specs.Widened.{widened};
    ghost use Rattle.sx_refs.specs.Pages.{graph_of};

    ghost graph = { λ it. widened it.numbers.now (graph_of (P.pages it.pages.now) (P.view it.pages.now) it.layout it.roots.now) };

    #[tactic(auto, unfolding(sx_refs::specs::Pages::graph_of))]
    fn give<R: Receiver>(&self, pair: Pair, receiver: &mut R) -> Result<(), AllocError> {
        give_named(self.pages, self.layout.usable, pair, receiver)
    }

    ghost sound = { λ it. it.graph };

    ghost sourced = { λ it. it.sourced };
}
