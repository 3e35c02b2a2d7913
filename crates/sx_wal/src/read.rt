//! The walk over a write-ahead log.
ghost use Rattle.std.specs.Prelude.{◌≡◌, ◌<◌, ◌≤◌, ◌^◌, ◌++◌, true, length, take, drop, map, IfOk};
ghost use Rattle.std.specs.Option.{option_map, ForSome};
ghost use Rattle.sx_bytes.specs.PageSize.{IsPageSize};
ghost use Rattle.sx_wal.specs.State.{state_of, is_good, has_slots};
ghost use Rattle.sx_wal.specs.Wal.{log_of, wal_of, bare};
ghost use Rattle.sx_wal.specs.Walk.{run_of, as_committed};

use crate::index::WalIndex;
use crate::log::Log;
use crate::slot::Slot;
use crate::state::{WalState, read_state, sums_of_header};
use std::alloc::{AllocError, Global};
use sx_base::Class;

/// Reads a write-ahead log, or none, of a database whose pages have this size ("WAL File Format").
///
/// Nothing is refused: what is wrong with the log shows in its state and in the classes of its slots. It takes time in
/// proportion to the log, in one pass, and 24 bytes of memory a slot besides 4 to 12 a commit.
#[tactic(auto, unfolding(crate::specs::Wal::wal_of))]
pub fn read_wal(alloc: Global, bytes: Option<&[u8]>, page_size: u32) -> Result<WalIndex, AllocError>
    requires size { IsPageSize page_size }
    requires bounded { ForSome bytes (λ log. length log.now < 2 ^ 32) }
    ensures { IfOk result (λ index. index ≡ wal_of (option_map (λ log. log.now) bytes.entry) page_size) }
{
    match bytes {
        None => Ok(without_slots(alloc, WalState::Absent)),
        Some(bytes) => read_present(alloc, bytes, page_size),
    }
}

/// Reads a log that is there.
#[tactic(auto, using(crate::proofs::WalkLemmas::bare_all))]
fn read_present(alloc: Global, bytes: &[u8], page_size: u32) -> Result<WalIndex, AllocError>
    requires size { IsPageSize page_size }
    requires bounded { length bytes.now < 2 ^ 32 }
    ensures { IfOk result (λ index. index ≡ log_of page_size bytes.now) }
{
    let state = read_state(bytes, page_size);
    if state.has_slots() {
        read_slots(alloc, bytes, page_size, state)
    } else {
        Ok(without_slots(alloc, state))
    }
}

/// A log without slots.
fn without_slots(alloc: Global, state: WalState) -> WalIndex
    ensures { result ≡ bare state }
{
    WalIndex {
        state,
        slots: Vec::new(alloc),
        commits: Vec::new(alloc),
    }
}

/// Reads the slots of a log whose state, Good or BadHeaderSum, has some.
fn read_slots(
    alloc: Global,
    bytes: &[u8],
    page_size: u32,
    state: WalState,
) -> Result<WalIndex, AllocError>
    requires size { IsPageSize page_size }
    requires bounded { length bytes.now < 2 ^ 32 }
    requires header { 32 ≤ length bytes.now }
    requires is { state ≡ state_of bytes.now page_size }
    requires some { has_slots state ≡ true }
    ensures { IfOk result (λ index. index ≡ log_of page_size bytes.now) }
{
    let log = Log::new(bytes, page_size);
    let count = log.frames();
    let mut slots = Vec::with_capacity(alloc, count)?;
    let mut commits = Vec::new(alloc);
    let mut committed = 0;
    let mut run = first_run(bytes, page_size, state);
    for i in 0..count {
        run = log.continued(run, i);
        let valid = run.is_some();
        slots.push(log.slot(i, valid))?;
        if log.is_commit(i, valid) {
            commits.push(i as u32)?;
            committed = i + 1;
        }
    }
    mark_committed(&mut slots, committed);
    Ok(WalIndex {
        state,
        slots,
        commits,
    })
}

/// The sums before the first frame, where the log is good.
fn first_run(bytes: &[u8], page_size: u32, state: WalState) -> Option<(u32, u32)>
    requires header { 32 ≤ length bytes.now }
    requires is { state ≡ state_of bytes.now page_size }
    ensures { result ≡ run_of page_size bytes.now 0 }
{
    match state {
        WalState::Good => Some(sums_of_header(bytes)),
        _ => None,
    }
}

/// Makes the first `count` slots Committed.
fn mark_committed(slots: &mut [Slot], count: usize)
    requires { count ≤ length slots.old }
    ensures { slots.new ≡ map as_committed (take count slots.old) ++ drop count slots.old }
{
    for i in 0..count {
        slots[i].class = Class::Committed;
    }
}
