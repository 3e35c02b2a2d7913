//! Which views the answers over a tree depend on, as laws.
ghost use Rattle.std.specs.Prelude.{◌≡◌, ℕ, ℤ, Bool, List, Option, IsTrue};
ghost use Rattle.sx_bytes.specs.declared.encoding.Encoding.{Encoding};
ghost use Rattle.sx_schema.specs.Entries.{schema_of};
ghost use Rattle.sx_history.specs.Closed.{AreAlike};
ghost use Rattle.sx_history.specs.History.{faults_of, found_of};

/// What a tree says of a rowid depends on the pages that have the root and, with each page, all that it leads to. It is the same
/// by two lists of views that hold the same pages, where each overflow page among them has the same view, and each b-tree page
/// too, unless it is a leaf by both whose cells hold their payloads and that says the same of the rowid. This is a law of the
/// definitions; the function has no code.
#[tactic(auto, using(crate::proofs::Says::found_by_views, crate::proofs::Says::faults_by_views))]
pub fn answers_by_views()
    ensures found { (size usable root : ℕ) (rowid : ℤ) (view next : ℕ → Option (List ℕ)) (node chain : ℕ → Bool) → AreAlike usable root rowid view next (λ n. IsTrue (node n)) (λ n. IsTrue (chain n)) → found_of size next usable root rowid ≡ found_of size view usable root rowid }
    ensures faults { (size usable root : ℕ) (rowid : ℤ) (view next : ℕ → Option (List ℕ)) (node chain : ℕ → Bool) → AreAlike usable root rowid view next (λ n. IsTrue (node n)) (λ n. IsTrue (chain n)) → faults_of size next usable root ≡ faults_of size view usable root }
{}

/// The schema depends on the pages that have page 1 and, with each page, all that it leads to: it is the same by two lists of
/// views that hold the same pages and agree on these. This is a law of the definitions; the function has no code.
#[tactic(auto, using(crate::proofs::SameSchema::schema_by))]
pub fn schema_by_views()
    ensures { (size usable : ℕ) (rowid : ℤ) (encoding : Encoding) (view next : ℕ → Option (List ℕ)) (node chain : ℕ → Bool) → AreAlike usable 1 rowid view next (λ n. IsTrue (node n)) (λ n. IsTrue (chain n)) → ((n : ℕ) → IsTrue (node n) → next n ≡ view n) → schema_of size next usable encoding ≡ schema_of size view usable encoding }
{}
