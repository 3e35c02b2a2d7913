//! What the pages and the rows of a tree are.
ghost use Rattle.std.specs.Prelude.{◌≡◌, ℕ, ◌+◌, ◌≤◌, Bool, true};
ghost use Rattle.sx_node.specs.Nodes.{NodePage};
ghost use Rattle.sx_tree.specs.Parts.{part_children};
ghost use Rattle.sx_tree.specs.Trees.{Tree, IsBounded, IsClosed, stands_in, children_of, held_count, rounds, tree_pages};
ghost use Rattle.sx_tree.specs.Rows.{items_of, rows_of};

/// The pages of a tree are the least set that has the root, where it is held, and with each page the held pages among the
/// children that it names. As many rounds as pages are held find them, and more find no other. This is a law of the
/// definitions; the function has no code.
#[tactic(auto, using(crate::proofs::Rounds::tree_is_closed, crate::proofs::Rounds::tree_is_least, crate::proofs::Rounds::more_rounds))]
pub fn pages_are_least()
    ensures closed { (tree : Tree) → IsBounded tree → IsClosed tree (stands_in (tree_pages tree)) }
    ensures least { (tree : Tree) (set : ℕ → Bool) (number : ℕ) → IsClosed tree set → stands_in (tree_pages tree) number ≡ true → set number ≡ true }
    ensures enough { (tree : Tree) (n : ℕ) → IsBounded tree → held_count tree ≤ n → rounds tree n ≡ tree_pages tree }
{}

/// No page stands below itself on a walk: more pages one below the other than are held, and one that isn't, change no row.
/// This is a law of the definitions; the function has no code.
#[tactic(auto, using(crate::proofs::Depth::more_rows))]
pub fn rows_are_finite()
    ensures { (tree : Tree) (most : ℕ) → IsBounded tree → held_count tree + 1 ≤ most → items_of tree most tree.root ≡ rows_of tree }
{}

/// The children whose items stand in the place of a b-tree page's parts are those among all pages that it names, in the same
/// order. This is a law of the definitions; the function has no code.
#[tactic(auto, using(crate::proofs::Leaves::parts_children))]
pub fn children_are_targets()
    ensures { (node : NodePage) → part_children node ≡ children_of node }
{}
