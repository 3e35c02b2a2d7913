//! Labels the pages of many ranks.
ghost use Rattle.std.specs.Prelude.{◌≡◌, ◌<◌, ◌==◌, length, OnOk};
ghost use Rattle.sx_moment.specs.Turns.{is_among};
ghost use Rattle.sx_sweep.specs.Passing.{IsKnown, Gone, Passes};

use crate::known::Known;
use crate::scene::Scene;
use std::alloc::{AllocError, Global};

impl<'s, 'c, 'a> Scene<'s, 'c, 'a> {
    /// Goes over the pages of all ranks.
    pub fn relabel_all(&self, alloc: Global, known: &mut Known) -> Result<(), AllocError>
        requires known { IsKnown self.now.sweep.now.case self.now.sweep.now.numbers self.now.images.now known.old.owned known.old.sums }
        ensures { OnOk result (Gone self.now.sweep.now.case self.now.sweep.now.moment self.now.sweep.now.numbers self.now.table.now self.now.layout.now self.now.images.now known.old.owned known.new.owned known.new.sums) }
    {
        for rank in 0..self.sweep.ranks() {
            self.relabel(alloc, rank, known)?;
        }
        Ok(())
    }

    /// Goes over the pages of these ranks; what is no rank is passed over.
    pub fn relabel_listed(
        &self,
        alloc: Global,
        ranks: &[u32],
        known: &mut Known,
    ) -> Result<(), AllocError>
        requires known { IsKnown self.now.sweep.now.case self.now.sweep.now.numbers self.now.images.now known.old.owned known.old.sums }
        ensures { OnOk result (Passes self.now.sweep.now.case self.now.sweep.now.moment self.now.sweep.now.numbers self.now.table.now self.now.layout.now self.now.images.now known.old.owned known.new.owned known.old.sums known.new.sums (is_among ranks.now)) }
    {
        for rank in ranks {
            self.relabel_if_any(alloc, *rank, known)?;
        }
        Ok(())
    }

    /// Goes over the page of a rank, if it is one.
    fn relabel_if_any(&self, alloc: Global, rank: u32, known: &mut Known) -> Result<(), AllocError>
        requires known { IsKnown self.now.sweep.now.case self.now.sweep.now.numbers self.now.images.now known.old.owned known.old.sums }
        ensures { OnOk result (Passes self.now.sweep.now.case self.now.sweep.now.moment self.now.sweep.now.numbers self.now.table.now self.now.layout.now self.now.images.now known.old.owned known.new.owned known.old.sums known.new.sums (λ other. rank == other)) }
    {
        if rank >= self.sweep.ranks() {
            return Ok(());
        }
        self.relabel(alloc, rank, known)
    }
}
