//! What sums that were made or followed say.
ghost use Rattle.std.specs.Prelude.{ℕ, List};
ghost use Rattle.sx_closure.specs.Graph.{Graph, IsGraph};
ghost use Rattle.sx_follow.specs.Sums.{Sums as TheSums};
ghost use Rattle.sx_follow.specs.Following.{HasFollowed, AreReferences};
ghost use Rattle.sx_follow.specs.Widened.{widened, IsWider, AreReferencesOf};

/// The sums over all targets of a graph are those of the references that the definition gives.
pub fn sums_are_references()
    ensures { (graph : Graph) (all : TheSums) → IsGraph graph → HasFollowed graph all → AreReferences graph all }
{}

/// The sums over all targets of a graph over more pages than are held, of which the others name nothing, say of each held page
/// what the definition gives; and with what they say of the others, how many links are dead.
pub fn wider_sums_are_references()
    ensures { (numbers : List ℕ) (graph : Graph) (all : TheSums) → IsGraph graph → IsGraph (widened numbers graph) → IsWider numbers graph → HasFollowed (widened numbers graph) all → AreReferencesOf graph all }
{}
