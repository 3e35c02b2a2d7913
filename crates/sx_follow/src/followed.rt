//! The sums of one graph followed to another of the same held pages.
ghost use Rattle.std.specs.Prelude.{◌≡◌, IfOk, IfSome};
ghost use Rattle.sx_follow.specs.Following.{CanFollow, HasFollowed};
ghost use Rattle.sx_follow.specs.Keeping.{AreKeptBut};

use crate::falling::{Falling, fall};
use crate::names::Names;
use crate::rising::{Rising, rise};
use crate::sums::Sums;
use std::alloc::{AllocError, Global};
use sx_closure::{Kept, Pair};

/// Sums that were followed to another graph, and the pairs that were named or lost a name on the way: each page of which the
/// sums may be others now is among these.
#[derive(Drop)]
pub struct Followed {
    /// The sums.
    pub sums: Sums,
    /// The pairs that were named, in the order in which they were.
    pub named: Vec<Pair>,
    /// The pairs that lost a name, in the order in which they did.
    pub lost: Vec<Pair>,
}

/// The sums of a graph with these held pages and root targets, from nothing: what the roots name rises, and what that
/// reaches.
///
/// The cost is that of asking each reached pair once and a look-up for each target. It answers `AllocError` where memory runs
/// out, or a sum is no number of 64 bits or a count none of 32.
pub fn begin<N: Names>(
    alloc: Global,
    names: &N,
    held: Vec<u32>,
    roots: &Kept,
) -> Result<Sums, AllocError>
    requires held { held.items ≡ (N.graph names.now).held }
    requires roots { roots.now ≡ (N.graph names.now).roots }
    ensures { IfOk result (HasFollowed (N.graph names.now)) }
{
    let mut rising = Rising::from(alloc, Sums::fresh(alloc, held)?);
    roots.give(&mut rising)?;
    rise(names, &mut rising)?;
    let (sums, _) = rising.parts();
    Ok(sums)
}

/// Follows the sums of one graph to another: first what comes is added and what it reaches rises, then what goes is taken
/// back and what nothing names any more falls, and then each pair that lost a name and stands must have a way of single
/// references from a root, in so many steps together. `None` where one hasn't: then the sums have to be made anew.
///
/// The cost is a look-up for each target that is added or taken back, asking once each pair that rises or falls, and at most
/// so many steps. It answers `AllocError` as [`begin`] does.
pub fn follow<N: Names>(
    alloc: Global,
    names: &N,
    sums: Sums,
    come: &Kept,
    gone: &Kept,
    steps: u64,
) -> Result<Option<Followed>, AllocError>
    requires { CanFollow (N.graph names.now) sums come.now gone.now }
    ensures followed { IfOk result (λ found. IfSome found (λ followed. HasFollowed (N.graph names.now) followed.sums)) }
    ensures kept { IfOk result (λ found. IfSome found (λ followed. AreKeptBut followed.named.items followed.lost.items sums followed.sums)) }
{
    let mut rising = Rising::from(alloc, sums);
    come.give(&mut rising)?;
    rise(names, &mut rising)?;
    let (risen, named) = rising.parts();
    let mut falling = Falling::from(alloc, risen);
    gone.give(&mut falling)?;
    fall(names, &mut falling)?;
    Ok(falling.checked(named, steps))
}
