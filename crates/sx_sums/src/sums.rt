//! The sums over the pages that have a view.
ghost use Rattle.std.specs.Prelude.{◌≡◌, ℕ, ◌+◌, ◌^◌, ◌<◌, ◌≤◌, Some, None, true, false, length, replicate, slice_set, sum_by, IfOk};
ghost use Rattle.sx_prov.specs.declared.map.Totals.{Totals};
ghost use Rattle.sx_sums.specs.declared.entry.Entry.{Entry};
ghost use Rattle.sx_sums.specs.Entries.{entry_at, bytes_last, counts_of, owned_of, slack_of, fault_of, IsPage};

use crate::entry::{Entry, Labelled};
use std::alloc::{AllocError, Global};
use std::marker::Model;
use sx_prov::Totals;

/// For each rank what its page was labelled with last, if it was, and whether the page has a view at the moment. Contracts
/// see the list of these.
///
/// It keeps how many bytes of the pages that have a view are in each group of labels: each change and each question takes
/// constant time. All memory is taken when it is made.
#[derive(Drop)]
pub struct Sums {
    entries: Vec<Entry>,
    owned: u64,
    slack: u64,
    fault: u64,
}

impl Model for Sums {
    ghost use Rattle.std.specs.Prelude.{List};
    ghost use Rattle.sx_sums.specs.declared.entry.Entry.{Entry};
    ghost use Rattle.sx_sums.specs.Entries.{AreSums};

    ghost Value = { List Entry };

    ghost view = { λ sums. sums.entries.items };

    ghost invariant = { λ sums. AreSums sums.entries.items sums.owned sums.slack sums.fault };
}

impl Sums {
    /// So many ranks, of which no page was labelled and none has a view.
    ///
    /// The cost is linear in the ranks, and so is the memory. It answers `AllocError` where memory runs out.
    pub fn fresh(alloc: Global, ranks: u32) -> Result<Sums, AllocError>
        ensures { IfOk result (λ sums. sums ≡ replicate ranks (record { last = None; shown = false })) }
    {
        let none = Entry {
            last: None,
            shown: false,
        };
        let entries = vec![in alloc; none; ranks as usize]?;
        Ok(Sums {
            entries,
            owned: 0,
            slack: 0,
            fault: 0,
        })
    }

    /// With what the page of a rank was labelled last, also where it has no view any more; `None` exactly where it never
    /// was.
    pub fn last(&self, rank: u32) -> Option<Labelled>
        requires { rank < length self.now }
        ensures { result ≡ (entry_at self.now rank).last }
    {
        self.entries[rank as usize].last
    }

    /// The page of a rank has a view now, and was labelled with this. The bytes of its groups are no more than the largest
    /// page has.
    pub fn show(&mut self, rank: u32, labelled: Labelled)
        requires rank { rank < length self.old }
        requires page { IsPage labelled.totals }
        ensures { self.new ≡ slice_set self.old rank (record { last = Some labelled; shown = true }) }
    {
        let entry = Entry {
            last: Some(labelled),
            shown: true,
        };
        self.put(rank, entry);
    }

    /// The page of a rank has no view now. What it was labelled with last stays.
    pub fn hide(&mut self, rank: u32)
        requires { rank < length self.old }
        ensures { self.new ≡ slice_set self.old rank (record { last = (entry_at self.old rank).last; shown = false }) }
    {
        let entry = Entry {
            last: self.entries[rank as usize].last,
            shown: false,
        };
        self.put(rank, entry);
    }

    /// How many bytes of the pages that have a view the database uses.
    pub fn owned(&self) -> u64
        ensures value { result ≡ sum_by owned_of self.now }
        ensures small { result ≤ 2 ^ 48 }
    {
        self.owned
    }

    /// How many bytes of the pages that have a view the database leaves unused.
    pub fn slack(&self) -> u64
        ensures value { result ≡ sum_by slack_of self.now }
        ensures small { result ≤ 2 ^ 48 }
    {
        self.slack
    }

    /// Of how many bytes of the pages that have a view it can't be said.
    pub fn fault(&self) -> u64
        ensures value { result ≡ sum_by fault_of self.now }
        ensures small { result ≤ 2 ^ 48 }
    {
        self.fault
    }

    // Puts an entry in the place of another.
    fn put(&mut self, rank: u32, entry: Entry)
        requires rank { rank < length self.old }
        requires page { IsPage (bytes_last entry.last) }
        ensures { self.new ≡ slice_set self.old rank entry }
    {
        let before = counts(&self.entries[rank as usize]);
        let now = counts(&entry);
        self.owned = moved(self.owned, before.owned, now.owned);
        self.slack = moved(self.slack, before.slack, now.slack);
        self.fault = moved(self.fault, before.fault, now.fault);
        self.entries[rank as usize] = entry;
    }
}

/// The bytes of a page that count: none where it has no view.
#[tactic(auto, unfolding(crate::specs::Entries::counts_of))]
fn counts(entry: &Entry) -> Totals
    ensures { result ≡ counts_of entry.now }
{
    match entry.last {
        Some(labelled) if entry.shown => labelled.totals,
        _ => Totals {
            owned: 0,
            slack: 0,
            fault: 0,
        },
    }
}

/// A sum with one of its parts replaced.
fn moved(sum: u64, before: u32, now: u32) -> u64
    requires part { before ≤ sum }
    requires small { sum ≤ 2 ^ 48 }
    ensures { result + before ≡ sum + now }
{
    sum - u64::from(before) + u64::from(now)
}
