//! Chains of equal numbers.
ghost use Rattle.std.specs.Prelude.{◌≡◌, ℕ, ◌+◌, ◌^◌, ◌<◌, ◌≤◌, ◌==◌, List, Some, length, min, count_by, IfOk, IfSome, slice_index};
ghost use Rattle.sx_base.specs.Places.{first_place, last_place};
ghost use Rattle.sx_chain.specs.Newest.{has_number};
ghost use Rattle.sx_chain.specs.Heads.{AreDistinct, place_below};
ghost use Rattle.sx_chain.specs.Links.{numbers_of, links_of, fars_of, IsFar, IsSkewed};

use crate::heads::{distinct, head_at, known_rank, put_end, rank_of};
use crate::node::Node;
use std::alloc::{AllocError, Global};
use std::marker::Model;
use std::sync::ledger::Ledger;
use sx_base::Steps;

/// A list of numbers that can be asked for the newest item of a number below any bound.
///
/// Each item is a node that holds the place of the item before it with the same number, or none. The greatest place of
/// each number stands at its rank among the distinct numbers. Contracts see the list.
#[derive(Drop)]
pub struct Chains {
    nodes: Vec<Node>,
    distinct: Vec<u32>,
    ends: Vec<u32>,
}

impl Model for Chains {
    ghost use Rattle.std.specs.Prelude.{ℕ, List};
    ghost use Rattle.sx_chain.specs.Links.{numbers_of, links_of, fars_of, IsChained, IsSkewed};
    ghost use Rattle.sx_chain.specs.Heads.{AreDistinct, AreHeads};

    ghost Value = { List ℕ };

    ghost view = { λ chains. numbers_of chains.nodes.items };

    ghost invariant = { λ chains. IsChained (numbers_of chains.nodes.items) (links_of chains.nodes.items)
        × AreDistinct (numbers_of chains.nodes.items) chains.distinct.items
        × AreHeads (numbers_of chains.nodes.items) chains.distinct.items chains.ends.items
        × IsSkewed (numbers_of chains.nodes.items) (links_of chains.nodes.items) (fars_of chains.nodes.items) };
}

/// Links a list of fewer than 4,294,967,296 numbers.
///
/// It takes memory in proportion to the list, and the time of a sort, with one look-up for each number. It answers `AllocError` where
/// memory runs out, and nothing else.
pub fn build(alloc: Global, numbers: &[u32]) -> Result<Chains, AllocError>
    requires { length numbers.now < 2 ^ 32 }
    ensures { IfOk result (λ chains. chains ≡ numbers.now) }
{
    let distinct = distinct(alloc, numbers)?;
    let mut ends = vec![in alloc; 0u32; distinct.len()]?;
    let mut nodes = Vec::with_capacity(alloc, numbers.len())?;
    for (i, number) in numbers.iter().enumerate() {
        let rank = known_rank(&distinct, *number);
        let previous = head_at(&ends, rank);
        let node = linked(&nodes, *number, previous, i as u32);
        nodes.push(node)?;
        put_end(&mut ends, rank, i as u32 + 1);
    }
    Ok(Chains {
        nodes,
        distinct,
        ends,
    })
}

/// The item behind these, linked to the one before it with its number.
fn linked(nodes: &[Node], number: u32, previous: Option<u32>, own: u32) -> Node
    requires own { own ≡ length nodes.now }
    requires before { IfSome previous (λ before. (before < length nodes.now) × (slice_index (numbers_of nodes.now) before ≡ number)) }
    requires skewed { IsSkewed (numbers_of nodes.now) (links_of nodes.now) (fars_of nodes.now) }
    ensures number { result.number ≡ number }
    ensures previous { place_below result.end ≡ previous }
    ensures far { IsFar (numbers_of nodes.now) number previous own result.far }
{
    let Some(before) = previous else {
        return Node::new(number, None, own, 0);
    };
    let near = nodes[before as usize];
    let further = nodes[near.far as usize];
    if near.span == further.span {
        Node::new(
            number,
            previous,
            further.far,
            near.span.wrapping_add(further.span).wrapping_add(1),
        )
    } else {
        Node::new(number, previous, before, 1)
    }
}

impl Chains {
    /// The greatest place below `before` at which `page` stands in the list, and `None` exactly where there is none.
    ///
    /// Places count from 0. One step is the reading of one link: there are at most as many as the list has items of
    /// that number. The count of steps is below 2^63 when the call begins. The call takes no memory.
    pub fn newest<L: Ledger>(&self, page: u32, before: u32, steps: &mut Steps<L>) -> Option<u32>
        requires { steps.old < 2 ^ 63 }
        ensures newest { result ≡ last_place (has_number self.now page) (min before (length self.now)) }
        ensures links { steps.new ≤ steps.old + count_by (λ number. number == page) self.now }
        ensures later { steps.old ≤ steps.new }
    {
        let mut found = self.head(page);
        while let Some(place) = found {
            if place < before {
                return found;
            }
            found = self.nodes[place as usize].follow(before, steps);
        }
        None
    }

    /// The numbers of the list in rising order, each once.
    pub fn numbers(&self) -> &[u32]
        ensures { AreDistinct self.now result.now }
    {
        &self.distinct
    }

    /// The least place at which `page` stands in the list, and `None` exactly where it doesn't.
    ///
    /// Places count from 0. The cost is that of a binary search and of the links from the greatest place to the least by
    /// their far ends, about log n of them for n items of that number. The call takes no memory.
    pub fn oldest(&self, page: u32) -> Option<u32>
        ensures { result ≡ first_place (has_number self.now page) (length self.now) }
    {
        match self.head(page) {
            Some(place) => Some(self.oldest_before(place)),
            None => None,
        }
    }

    // The oldest item of the number that stands at a place.
    fn oldest_before(&self, place: u32) -> u32
        requires { place < length self.now }
        ensures { Some result ≡ first_place (has_number self.now (slice_index self.now place)) (length self.now) }
    {
        let mut oldest = place;
        while let Some(further) = self.nodes[oldest as usize].further() {
            oldest = further;
        }
        oldest
    }

    // The greatest place of a number.
    fn head(&self, number: u32) -> Option<u32>
        ensures { result ≡ last_place (has_number self.now number) (length self.now) }
    {
        match rank_of(&self.distinct, number) {
            Some(rank) => head_at(&self.ends, rank),
            None => None,
        }
    }
}
