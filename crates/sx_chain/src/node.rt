//! An item of the list, with its link.
ghost use Rattle.std.specs.Prelude.{◌≡◌, ◌+◌, ◌-◌, ◌^◌, ◌<◌, ◌==◌, if◌then◌else◌, None, Some, IfSome};
ghost use Rattle.sx_chain.specs.Heads.{place_below};
ghost use Rattle.sx_chain.specs.Links.{followed};

use std::sync::ledger::Ledger;
use sx_base::Steps;

/// One item of the list: its number, and the link to the items before it with that number.
///
/// A link has two ends: the item right before, and a far one. Items whose far ends span as much make the next span both, so
/// that a way down a chain of n items takes about 2 log n links ("skew binary numbers").
#[derive(Clone, Copy)]
pub struct Node {
    pub number: u32,
    /// One past the item before, and 0 where this one is the first of its number: half of what an option takes.
    end: u32,
    /// The far item, and the place of this one where it is the first of its number.
    pub far: u32,
    /// How many items the far end goes back.
    pub span: u32,
}

impl Node {
    pub fn new(number: u32, previous: Option<u32>, far: u32, span: u32) -> Self
        requires { IfSome previous (λ place. place < 2 ^ 32 - 1) }
        ensures number { result.number ≡ number }
        ensures previous { place_below result.end ≡ previous }
        ensures far { result.far ≡ far }
        ensures span { result.span ≡ span }
    {
        let end = end_of(previous);
        Node {
            number,
            end,
            far,
            span,
        }
    }

    /// Reads the link, on the way down to a bound: to the far item where that isn't below it, else to the item before. This
    /// is the one way to it, and it is one step.
    pub fn follow<L: Ledger>(&self, before: u32, steps: &mut Steps<L>) -> Option<u32>
        requires { steps.old < 2 ^ 64 - 1 }
        ensures link { result ≡ followed (place_below self.now.end) self.now.far before }
        ensures counted { steps.new ≡ steps.old + 1 }
    {
        steps.tick();
        match place_below(self.end) {
            Some(place) => Some(if before <= self.far { self.far } else { place }),
            None => None,
        }
    }

    /// The far item, where there is an item before this one.
    pub fn further(&self) -> Option<u32>
        ensures { result ≡ (if self.now.end == 0 then None else Some self.now.far) }
    {
        if self.end == 0 { None } else { Some(self.far) }
    }
}

/// The place right below an end, if there is one.
pub fn place_below(end: u32) -> Option<u32>
    ensures { result ≡ place_below end }
{
    if end == 0 { None } else { Some(end - 1) }
}

// One past a place, and 0 where there is none.
#[tactic(auto, using(crate::proofs::Linked::below_end))]
fn end_of(place: Option<u32>) -> u32
    requires { IfSome place (λ place. place < 2 ^ 32 - 1) }
    ensures { place_below result ≡ place }
{
    match place {
        Some(place) => place + 1,
        None => 0,
    }
}
