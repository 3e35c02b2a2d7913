//! Laws of the definitions.
ghost use Rattle.std.specs.Prelude.{◌≡◌, ◌↔◌, ◌++◌, ◌≤◌, ℕ, List, true, is_some, length, Some, None};
ghost use Rattle.sx_owned.specs.Owned.{Owned, owned_at, block_at};
ghost use Rattle.sx_grammar.specs.declared.shape.ShapeKey.{ShapeKey};
ghost use Rattle.sx_grammar.specs.Sightings.{Sighting};
ghost use Rattle.sx_grammar.specs.Choice.{Rises, forms_of, setting_of};
ghost use Rattle.sx_grammar.specs.Freed.{IsFreed};
ghost use Rattle.sx_carve.specs.Candidates.{Told, TellSame, told_by, candidate_at, candidates_of};
ghost use Rattle.sx_base.specs.declared.evidence.Part.{Part};
ghost use Rattle.sx_images.specs.declared.image.Image.{Image};
ghost use Rattle.sx_carve.specs.Choice.{IsUnowned, NoneUnowned, IsFirstUnowned};

/// At an offset of an image there is no candidate exactly where no form has a span there that lies in the image and of which
/// nothing is owned, and the candidate is the span of the first form in the order that has one. This is a law of the
/// definitions; the function has no code.
pub fn candidates_are_first_forms()
    ensures none { (usable : ℕ) (shapes : List ShapeKey) (table : Owned) (image at : ℕ) (bytes : List ℕ) → 480 ≤ usable → Rises 1 shapes → (candidate_at usable shapes (told_by table) image at bytes ≡ None) ↔ NoneUnowned (owned_at table image) at usable (setting_of at (block_at table image at) usable) bytes (forms_of shapes) }
    ensures some { (usable : ℕ) (shapes : List ShapeKey) (table : Owned) (image at : ℕ) (bytes : List ℕ) (sighting : Sighting) → 480 ≤ usable → Rises 1 shapes → (candidate_at usable shapes (told_by table) image at bytes ≡ Some sighting) ↔ IsFirstUnowned (owned_at table image) at usable shapes (setting_of at (block_at table image at) usable) bytes sighting }
{}

/// Where a freed cell begins in an image and nothing owns any of its bytes, there is a candidate, whatever follows the cell.
/// This is a law of the definitions; the function has no code.
pub fn freed_cells_have_candidates()
    ensures { (usable : ℕ) (shapes : List ShapeKey) (table : Owned) (image at : ℕ) (span rest : List ℕ) → usable ≤ 65536 → IsFreed shapes (setting_of at (block_at table image at) usable) span → IsUnowned (owned_at table image) at (length span) → is_some (candidate_at usable shapes (told_by table) image at (span ++ rest)) ≡ true }
{}

/// The candidates follow from what is told of each byte and of each offset, however that is kept. This is a law of the
/// definitions; the function has no code.
#[tactic(auto, using(crate::proofs::TellingLemmas::same_told))]
pub fn candidates_follow_from_what_is_told()
    ensures { (usable : ℕ) (shapes : List ShapeKey) (one other : Told) (page_size : ℕ) (files : Part → List ℕ) (images : List Image) → TellSame one other → candidates_of usable shapes one page_size files images ≡ candidates_of usable shapes other page_size files images }
{}
