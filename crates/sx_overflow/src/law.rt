//! What the pieces of a payload and the lengths of chains tell.
ghost use Rattle.std.specs.Prelude.{◌≡◌, ℕ, ◌+◌, ◌≤◌, ◌&&◌, min, true, false, List, length, Option, Some, None, nat_le, Contains};
ghost use Rattle.std.specs.List.{concat};
ghost use Rattle.sx_cell.specs.declared.cell.Cell.{Cell};
ghost use Rattle.sx_cell.specs.Cells.{WasRead};
ghost use Rattle.sx_base.specs.Held.{held_pages};
ghost use Rattle.sx_cell.specs.Local.{need_of};
ghost use Rattle.sx_overflow.specs.Chains.{link_of, linked, chain_of, IsTrail};
ghost use Rattle.sx_overflow.specs.Payloads.{to_come, payload_of};
ghost use Rattle.sx_overflow.specs.Whole.{HasUsable, IsPayload};

/// The pieces joined are the payload and no other bytes are, they are as many as its cell says, and it is called short
/// exactly where there is none. This is a law of the definitions; the function has no code.
#[tactic(auto, using(crate::proofs::WholeLemmas::whole_is_payload, crate::proofs::WholeLemmas::whole_is_long, crate::proofs::WholeLemmas::payload_is_whole, crate::proofs::WholeLemmas::payload_is_only))]
pub fn pieces_make_the_payload()
    ensures whole { (size : ℕ) (view : ℕ → Option (List ℕ)) (page : List ℕ) (usable : ℕ) (cell : Cell) → HasUsable view usable → (payload_of size view page usable cell).whole ≡ true → IsPayload size view page usable cell (concat (payload_of size view page usable cell).pieces) }
    ensures long { (size : ℕ) (view : ℕ → Option (List ℕ)) (page : List ℕ) (usable : ℕ) (cell : Cell) → 480 ≤ usable → usable ≤ length page → HasUsable view usable → WasRead page usable cell → (payload_of size view page usable cell).whole ≡ true → length (concat (payload_of size view page usable cell).pieces) ≡ cell.payload }
    ensures only { (size : ℕ) (view : ℕ → Option (List ℕ)) (page : List ℕ) (usable : ℕ) (cell : Cell) (bytes : List ℕ) → HasUsable view usable → IsPayload size view page usable cell bytes → bytes ≡ concat (payload_of size view page usable cell).pieces }
    ensures short { (size : ℕ) (view : ℕ → Option (List ℕ)) (page : List ℕ) (usable : ℕ) (cell : Cell) (bytes : List ℕ) → (payload_of size view page usable cell).whole ≡ false → ¬ IsPayload size view page usable cell bytes }
{}

/// The length of a chain, counted up to some number of pages, tells its length up to each smaller one. It is 0 where no
/// page is there, else one more than that of the page behind, and a chain that comes back to a page of its own has every
/// length. A payload is whole exactly where it needs no more pages than are held, nor than its chain has. So one number
/// for each page serves every payload. This is a law of the definitions; the function has no code.
#[tactic(auto, using(crate::proofs::Lengths::chain_front, crate::proofs::Lengths::chain_none, crate::proofs::Lengths::chain_next, crate::proofs::Lengths::chain_round, crate::proofs::Lengths::whole_by_length))]
pub fn chains_by_length()
    ensures front { (view : ℕ → Option (List ℕ)) (number need most : ℕ) → need ≤ most → length (chain_of view number need) ≡ min need (length (chain_of view number most)) }
    ensures none { (view : ℕ → Option (List ℕ)) (number most : ℕ) → linked view number ≡ None → length (chain_of view number most) ≡ 0 }
    ensures next { (view : ℕ → Option (List ℕ)) (number most : ℕ) (page : List ℕ) → linked view number ≡ Some page → length (chain_of view number most) ≡ min (length (chain_of view (link_of page) most) + 1) most }
    ensures round { (view : ℕ → Option (List ℕ)) (from at most : ℕ) (trail : List ℕ) → IsTrail view from trail at → Contains trail at → length (chain_of view at most) ≡ most }
    ensures whole { (size : ℕ) (view : ℕ → Option (List ℕ)) (usable number left : ℕ) (first : List (List ℕ)) → (to_come size view usable first number left).whole ≡ (nat_le (need_of usable left) (length (held_pages size view)) && nat_le (need_of usable left) (length (chain_of view number (length (held_pages size view))))) }
{}
