//! Laws of the definitions. The function has no code.
ghost use Rattle.std.specs.Prelude.{ℕ, Bool, ◌↔◌, Contains, map};
ghost use Rattle.std.specs.List.Sorted.{IsStrictlyIncreasing};
ghost use Rattle.sx_generations.specs.Neighbours.{IsStreak, streaks_of};
ghost use Rattle.sx_generations.specs.declared.neighbours.Streak.{Streak};

/// The streaks among things in a row are exactly the maximal lists of at least two neighbours, each of which is joined to
/// the next: no longer list has one of them, and no other list is one. They stand in order, so each stands once. Runs of
/// slots and groups of records are made of them.
pub fn streaks_by_rules()
    ensures are { (joined : ℕ → Bool) (count : ℕ) (streak : Streak) → Contains (streaks_of joined count) streak ↔ IsStreak joined count streak }
    ensures order { (joined : ℕ → Bool) (count : ℕ) → IsStrictlyIncreasing (map (λ (streak : Streak). streak.first) (streaks_of joined count)) }
{}
