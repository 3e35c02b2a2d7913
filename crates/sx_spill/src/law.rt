//! A law of the definitions.
ghost use Rattle.std.specs.Prelude.{◌≡◌, ◌↔◌, ℕ, List, Some};
ghost use Rattle.sx_grammar.specs.Sightings.{Sighting};
ghost use Rattle.sx_spill.specs.Completion.{completed_of, IsCompleted};
ghost use Rattle.sx_spill.specs.Unused.{Unused};

/// A candidate is completed exactly where there are as many distinct pages as it needs, one behind the other, and its payload
/// is its local part and then the needed bytes of these pages. This is a law of the definitions; the function has no code.
pub fn completed_both_ways()
    ensures { (pages : Unused) (sighting : Sighting) (payload : List ℕ) → (completed_of pages sighting ≡ Some payload) ↔ IsCompleted pages sighting payload }
{}
