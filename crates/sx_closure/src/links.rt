//! What names pages.
ghost use Rattle.std.specs.Prelude.{◌≡◌, IfOk};
ghost use Rattle.sx_closure.specs.Graph.{Graph, IsGraph};
ghost use Rattle.sx_closure.specs.Tallying.{added_all};

use crate::pair::Pair;
use crate::tally::Tally;
use std::alloc::{AllocError, Global};

/// What names pages: the roots, and each page in each of its roles.
///
/// An implementation may read the pages at each question, or keep what they name.
pub trait Links {
    /// The held pages, the root targets, and the targets of each pair.
    ghost graph: { Self → Graph };

    /// The numbers of the held pages, in rising order.
    fn held(&self, alloc: Global) -> Result<Vec<u32>, AllocError>
        ensures { IfOk result (λ held. held.items ≡ (Self.graph self.now).held) };

    /// Counts the root targets.
    fn add_roots(&self, tally: &mut Tally) -> Result<(), AllocError>
        ensures { IfOk result (λ _. tally.new ≡ added_all tally.old (Self.graph self.now).roots) };

    /// Counts the targets of a pair.
    fn add_targets(&self, pair: Pair, tally: &mut Tally) -> Result<(), AllocError>
        ensures { IfOk result (λ _. tally.new ≡ added_all tally.old ((Self.graph self.now).targets pair)) };

    /// What names pages is the graph of a database.
    ghost sound: { (it : Self) → IsGraph (graph it) };
}
