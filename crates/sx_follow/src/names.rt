//! What names pages.
ghost use Rattle.std.specs.Prelude.{◌≡◌, IfOk};
ghost use Rattle.sx_closure.specs.Graph.{Graph, IsGraph};
ghost use Rattle.sx_follow.specs.Climbing.{IsSourced};

use std::alloc::AllocError;
use sx_closure::{Pair, Receiver};

/// What a pair names, for whatever takes targets.
pub trait Names {
    /// The held pages, the root targets, and the targets of each pair.
    ghost graph: { Self → Graph };

    /// Gives the targets of a pair.
    fn give<R: Receiver>(&self, pair: Pair, receiver: &mut R) -> Result<(), AllocError>
        ensures { IfOk result (λ _. receiver.new ≡ R.after receiver.old ((Self.graph self.now).targets pair)) };

    /// What names pages is the graph of a database.
    ghost sound: { (it : Self) → IsGraph (graph it) };

    /// Roots stand in no page, and what a pair names stands in its page.
    ghost sourced: { (it : Self) → IsSourced (graph it) };
}
