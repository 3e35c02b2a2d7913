//! Pages by rank.
ghost use Rattle.std.specs.Prelude.{◌≡◌, ℕ, ◌^◌, ◌<◌, ◌≤◌, ◌==◌, ◌&&◌, false, length, nat_le, nat_lt, slice_index, IfSome, IfNone};
ghost use Rattle.sx_moment.specs.Ranks.{AreRanks, RiseFromOne};
ghost use Rattle.sx_moment.specs.Turns.{is_among};

use std::marker::Model;

/// The numbers of pages in rising order, fewer than 4,294,967,296. The rank of a page is its place, from 0. Contracts see
/// the list.
#[derive(Drop)]
pub struct Ranks {
    numbers: Vec<u32>,
}

impl Model for Ranks {
    ghost use Rattle.std.specs.Prelude.{List, ℕ};
    ghost use Rattle.sx_moment.specs.Ranks.{AreRanks};

    ghost Value = { List ℕ };

    ghost view = { λ ranks. ranks.numbers.items };

    ghost invariant = { λ ranks. AreRanks ranks.numbers.items };
}

impl Ranks {
    /// The pages of these numbers, none of which is 0.
    pub fn new(numbers: Vec<u32>) -> Self
        requires { RiseFromOne numbers.items }
        ensures { result ≡ numbers.items }
    {
        are_few(&numbers);
        Ranks { numbers }
    }

    /// How many pages there are.
    pub fn len(&self) -> u32
        ensures value { result ≡ length self.now }
        ensures ranks { AreRanks self.now }
    {
        self.numbers.len() as u32
    }

    /// The numbers of the pages.
    pub fn numbers(&self) -> &[u32]
        ensures { result.now ≡ self.now }
    {
        &self.numbers
    }

    /// The number of the page of a rank.
    pub fn number(&self, rank: u32) -> u32
        requires { rank < length self.now }
        ensures { result ≡ slice_index self.now rank }
    {
        self.numbers[rank as usize]
    }

    /// The rank of a page, where it has one. A page of the file stands one or two places before its number, and is found
    /// there; the cost of any other is that of a binary search.
    pub fn rank(&self, no: u32) -> Option<u32>
        ensures some { IfSome result (λ rank. (rank < length self.now) × (slice_index self.now rank ≡ no)) }
        ensures none { IfNone result (is_among self.now no ≡ false) }
        ensures ranks { AreRanks self.now }
    {
        let _numbers = &self.numbers;
        let near = no.saturating_sub(1);
        if self.is_at(near, no) {
            return Some(near);
        }
        let near = no.saturating_sub(2);
        if self.is_at(near, no) {
            return Some(near);
        }
        self.search(no)
    }

    // Whether a page stands at a rank.
    fn is_at(&self, rank: u32, no: u32) -> bool
        ensures { result ≡ (nat_lt rank (length self.now) && (slice_index self.now rank == no)) }
    {
        (rank as usize) < self.numbers.len() && self.numbers[rank as usize] == no
    }

    // The rank of a page by a binary search.
    fn search(&self, no: u32) -> Option<u32>
        ensures some { IfSome result (λ rank. (rank < length self.now) × (slice_index self.now rank ≡ no)) }
        ensures none { IfNone result (is_among self.now no ≡ false) }
    {
        match self.numbers.binary_search(&no) {
            Ok(rank) => Some(rank as u32),
            Err(_) => None,
        }
    }

    /// How many of the pages lie within a size: they are the first. The cost is that of a binary search.
    pub fn within(&self, size: u32) -> u32
        ensures bound { result ≤ length self.now }
        ensures within { (rank : ℕ) → rank < length self.now → nat_lt rank result ≡ nat_le (slice_index self.now rank) size }
    {
        self.numbers.partition_point(|number| *number <= size) as u32
    }
}

// Numbers of 32 bits that rise from 1 on are fewer than 4,294,967,296. This is a law of the type; the function has no code.
fn are_few(numbers: &[u32])
    requires { RiseFromOne numbers.now }
    ensures { length numbers.now < 2 ^ 32 }
{
    if numbers.is_empty() {
        return;
    }
    let _last = numbers[numbers.len() - 1];
}
