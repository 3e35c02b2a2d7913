//! Things in a row, of which each may be joined to the next one.
ghost use Rattle.std.specs.Prelude.{◌≡◌, ℕ, ◌+◌, ◌≤◌, ◌<◌, Bool, IfOk};
ghost use Rattle.std.specs.Bool.{OnTrue};
ghost use Rattle.sx_generations.specs.Neighbours.{is_followed, links_from, streaks_of};

use std::alloc::{AllocError, Global};

/// A maximal list of at least two neighbours, each joined to the next one.
#[derive(Clone, Copy, Debug, PartialEq, Eq)]
pub struct Streak {
    /// The place of the first.
    pub first: u32,
    /// How many they are.
    pub len: u32,
}

/// Things in a row. Places count from 0.
pub trait Neighbours {
    /// How many they are.
    ghost places: { Self → ℕ };

    /// Whether the one at a place is joined to the next.
    ghost joined: { Self → ℕ → Bool };

    /// How many they are.
    fn count(&self) -> u32
        ensures { result ≡ places self.now };

    /// Whether the one at `at` is joined to the next.
    fn joins(&self, at: u32) -> bool
        requires { at + 1 < places self.now }
        ensures { result ≡ joined self.now at };
}

/// The streaks of a row, in order.
///
/// Each thing is asked once whether it is joined to the next. It takes 8 bytes of memory a streak.
#[tactic(auto, using(crate::proofs::Walks::found_all))]
pub fn streaks<N: Neighbours>(alloc: Global, row: &N) -> Result<Vec<Streak>, AllocError>
    ensures { IfOk result (λ streaks. streaks.items ≡ streaks_of (N.joined row.now) (N.places row.now)) }
{
    let count = row.count();
    let mut found = Vec::new(alloc);
    let mut at = 0;
    while at < count {
        let links = links_from(row, at);
        if links > 0 {
            found.push(Streak {
                first: at,
                len: links + 1,
            })?;
        }
        at += links + 1;
    }
    Ok(found)
}

/// How many things from `first` on are joined to the next, one after the other.
fn links_from<N: Neighbours>(row: &N, first: u32) -> u32
    requires { first < N.places row.now }
    ensures links { result ≡ links_from (N.joined row.now) (N.places row.now) first }
    ensures within { first + result < N.places row.now }
{
    let _few = row.count();
    let mut at = first;
    while is_followed(row, at) {
        at += 1;
    }
    at - first
}

/// Whether there is a next thing behind the one at `at`, and that is joined to it.
fn is_followed<N: Neighbours>(row: &N, at: u32) -> bool
    requires { at < N.places row.now }
    ensures value { result ≡ is_followed (N.joined row.now) (N.places row.now) at }
    ensures within { OnTrue result (at + 1 < N.places row.now) }
{
    let count = row.count();
    at + 1 < count && row.joins(at)
}
