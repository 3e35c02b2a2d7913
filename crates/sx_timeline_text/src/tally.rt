//! How many slots of a write-ahead log have each class.
ghost use Rattle.std.specs.Prelude.{◌≡◌, if◌then◌else◌};
ghost use Rattle.sx_timeline_text.specs.Rest.{tally_of};
ghost use Rattle.sx_timeline_text.specs.Timeline.{is_committed, is_pending, is_foreign, is_broken};

use sx_base::Class;
use sx_wal::WalIndex;

/// How many slots have each of the four classes.
#[derive(Clone, Copy, Debug, PartialEq, Eq)]
pub struct Tally {
    pub committed: u32,
    pub pending: u32,
    pub foreign: u32,
    pub broken: u32,
}

/// Counts the slots of each class, going over them once.
pub fn count_classes(wal: &WalIndex) -> Tally
    ensures { result ≡ tally_of wal.now.slots }
{
    let mut tally = Tally {
        committed: 0,
        pending: 0,
        foreign: 0,
        broken: 0,
    };
    for i in 0..wal.slots() {
        let class = wal.slot(i).class;
        tally.committed += one_if(is_committed(class));
        tally.pending += one_if(is_pending(class));
        tally.foreign += one_if(is_foreign(class));
        tally.broken += one_if(is_broken(class));
    }
    tally
}

fn one_if(counts: bool) -> u32
    ensures { result ≡ (if counts then 1 else 0) }
{
    if counts { 1 } else { 0 }
}

fn is_committed(class: Class) -> bool
    ensures { result ≡ is_committed class }
{
    matches!(class, Class::Committed)
}

fn is_pending(class: Class) -> bool
    ensures { result ≡ is_pending class }
{
    matches!(class, Class::Pending)
}

fn is_foreign(class: Class) -> bool
    ensures { result ≡ is_foreign class }
{
    matches!(class, Class::Foreign)
}

fn is_broken(class: Class) -> bool
    ensures { result ≡ is_broken class }
{
    matches!(class, Class::Broken)
}
