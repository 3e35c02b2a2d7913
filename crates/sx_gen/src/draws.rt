//! The draws of a drill: one stream of numbers from a seed.
ghost use Rattle.std.specs.Prelude.{◌≡◌, ◌+◌, ◌*◌, ◌/◌, ◌^◌, ◌<◌, ◌≤◌, EachIndex, IfOk, OnOk, length, slice_index};
ghost use Rattle.sx_gen.specs.Draws.{next_state, state_after, letters, letters_of_row, first_letter, taken_leaves};

use std::alloc::{AllocError, Global};

/// The letters of a row: 4 large ones, its number, and 8 small ones, its text.
pub const LETTERS_OF_ROW: usize = 12;

/// A stream of draws, by the state behind the last one.
#[derive(Drop)]
pub struct Draws {
    pub state: u64,
}

impl Draws {
    /// The next draw: the upper 31 bits of the state behind this one.
    #[tactic(auto, using(crate::proofs::Drawing::one_modulus))]
    pub fn draw(&mut self) -> u32
        ensures state { self.new.state ≡ next_state self.old.state }
        ensures value { result ≡ next_state self.old.state / 2 ^ 33 }
    {
        self.state = self
            .state
            .wrapping_mul(6364136223846793005)
            .wrapping_add(1442695040888963407);
        (self.state >> 33) as u32
    }
}

/// The letters of so many rows, row after row, a draw each. Linear in the rows.
#[tactic(auto, unfolding(crate::specs::Draws::letters, crate::specs::Draws::state_after))]
pub fn draw_letters(alloc: Global, draws: &mut Draws, rows: usize) -> Result<Vec<u8>, AllocError>
    requires { rows ≤ 8000 }
    ensures value { IfOk result (λ drawn. drawn.items ≡ letters draws.old.state rows) }
    ensures len { IfOk result (λ drawn. length drawn.items ≡ 12 * rows) }
    ensures state { OnOk result (draws.new.state ≡ state_after draws.old.state (letters_of_row * rows)) }
{
    let mut drawn = Vec::with_capacity(alloc, LETTERS_OF_ROW * rows)?;
    for k in 0..LETTERS_OF_ROW * rows {
        let number = draws.draw();
        drawn.push(first_letter(k) + (number % 26) as u8)?;
    }
    Ok(drawn)
}

/// The letter that begins the alphabet which letter `k` is of.
fn first_letter(k: usize) -> u8
    ensures value { result ≡ first_letter k }
    ensures small { result ≤ 97 }
{
    if k % LETTERS_OF_ROW < 4 { b'A' } else { b'a' }
}

/// The leaves that so many commits take, a draw each. Linear in the commits.
#[tactic(auto, unfolding(crate::specs::Draws::taken_leaves, crate::specs::Draws::state_after))]
pub fn draw_leaves(
    alloc: Global,
    draws: &mut Draws,
    leaves: u32,
    commits: u32,
) -> Result<Vec<u32>, AllocError>
    requires { 0 < leaves }
    ensures value { IfOk result (λ taken. taken.items ≡ taken_leaves draws.old.state leaves commits) }
    ensures len { IfOk result (λ taken. length taken.items ≡ commits) }
    ensures below { IfOk result (λ taken. EachIndex taken.items (λ k. slice_index taken.items k < leaves)) }
{
    let mut taken = Vec::with_capacity(alloc, commits as usize)?;
    for _k in 0..commits {
        taken.push(draws.draw() % leaves)?;
    }
    Ok(taken)
}
