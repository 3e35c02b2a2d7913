//! The newest slot of a page, without a count of steps.
ghost use Rattle.std.specs.Prelude.{◌≡◌, ◌<◌, length, min};
ghost use Rattle.sx_base.specs.Places.{last_place};
ghost use Rattle.sx_chain.specs.Newest.{has_number};

use std::marker::Brand;
use std::sync::ledger::{Blank, Ledger};
use sx_base::Steps;
use sx_chain::Chains;

/// The greatest place below `before` at which the chains hold `page`.
pub fn newest(chains: &Chains, page: u32, before: u32) -> Option<u32>
    ensures { result ≡ last_place (has_number chains.now page) (min before (length chains.now)) }
{
    newest_of::<Brand>(chains, page, before, Blank::new(1))
}

fn newest_of<L: Ledger>(chains: &Chains, page: u32, before: u32, blank: Blank) -> Option<u32>
    requires name { blank.name ≡ L.name }
    requires parts { blank.parts ≡ L.parts }
    requires some_parts { 0 < blank.parts }
    ensures { result ≡ last_place (has_number chains.now page) (min before (length chains.now)) }
{
    let mut steps = Steps::<L>::zero(blank);
    chains.newest(page, before, &mut steps)
}
