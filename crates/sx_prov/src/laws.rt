//! Laws of the definitions. The functions have no code.
ghost use Rattle.std.specs.Prelude.{◌≡◌, ◌≤◌, ◌<◌, ℕ, ◌+◌, ◌-◌, ◌*◌, List, Option, length};
ghost use Rattle.sx_base.specs.declared.evidence.Span.{Span};
ghost use Rattle.sx_base.specs.declared.label.Label.{Label};
ghost use Rattle.sx_base.specs.declared.layout.Layout.{Layout};
ghost use Rattle.sx_base.specs.Labels.{is_owning, is_slack, is_fault};
ghost use Rattle.sx_closure.specs.Graph.{Graph};
ghost use Rattle.sx_closure.specs.Chains.{IsLeft, one_reference};
ghost use Rattle.sx_prov.specs.Items.{IsInOne, items_of};
ghost use Rattle.sx_prov.specs.Labels.{label_of};
ghost use Rattle.sx_prov.specs.Places.{left_at_overflow};
ghost use Rattle.sx_prov.specs.Runs.{AreRuns, runs_of};
ghost use Rattle.sx_prov.specs.Stretches.{AreStretches, stretches_of};
ghost use Rattle.sx_prov.specs.Sums.{bytes_in, bytes_of, present_of};

/// The runs of labels are the one list of maximal runs: they cover the labels, each begins where the one before it ends, and
/// neighbours have different labels.
#[tactic(auto, using(crate::proofs::Maximal::runs_are, crate::proofs::Maximal::only_runs))]
pub fn runs_by_rules()
    ensures are { (labels : List Label) → AreRuns 0 labels (runs_of labels) }
    ensures only { (labels : List Label) (runs : List (Span × Label)) → AreRuns 0 labels runs → runs ≡ runs_of labels }
{}

/// What is found by going back along a chain is what is still to come at an overflow page, by its place in the chain of a
/// cell; and nothing is found exactly where the page has no place.
#[tactic(auto, using(crate::proofs::Chains::left_law))]
pub fn places_by_chains()
    ensures { (graph : Graph) (body page : ℕ) → IsLeft (one_reference graph) body page (left_at_overflow graph body page) }
{}

/// Each page from 1 to the size is in exactly one of a moment's stretches: a present page by itself, the others in stretches
/// that don't touch one another.
#[tactic(auto, using(crate::proofs::Stretching::stretches_are))]
pub fn stretches_by_rules()
    ensures { (lock : ℕ) (view : ℕ → Option (List ℕ)) (size : ℕ) → AreStretches lock view size 0 (stretches_of lock view size) }
{}

/// The bytes of all pages of a moment in each group of labels are those of the present pages, and each other page's bytes
/// are faults.
#[tactic(auto, using(crate::proofs::Sums::owned_bytes, crate::proofs::Sums::slack_bytes, crate::proofs::Sums::fault_bytes))]
pub fn totals_by_present_pages()
    ensures owned { (graph : Graph) (layout : Layout) (view : ℕ → Option (List ℕ)) (size : ℕ) → bytes_of is_owning graph layout view size ≡ bytes_in is_owning graph layout view (present_of layout view size) }
    ensures slack { (graph : Graph) (layout : Layout) (view : ℕ → Option (List ℕ)) (size : ℕ) → bytes_of is_slack graph layout view size ≡ bytes_in is_slack graph layout view (present_of layout view size) }
    ensures fault { (graph : Graph) (layout : Layout) (view : ℕ → Option (List ℕ)) (size : ℕ) → bytes_of is_fault graph layout view size ≡ bytes_in is_fault graph layout view (present_of layout view size) + (size - length (present_of layout view size)) * layout.page_size }
{}

/// Each byte of the pages from 1 to a moment's size is in exactly one item of its map, and the item's label is the byte's.
#[tactic(auto, using(crate::proofs::Items::each_in_one))]
pub fn bytes_are_in_one_item()
    ensures { (graph : Graph) (layout : Layout) (view : ℕ → Option (List ℕ)) (size page at : ℕ) → 1 ≤ page → page ≤ size → at < layout.page_size → IsInOne (items_of graph layout view size) page at (label_of graph layout view page at) }
{}
