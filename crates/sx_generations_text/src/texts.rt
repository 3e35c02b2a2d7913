//! The single lines of `generations`.
ghost use Rattle.std.specs.Prelude.{◌≡◌, ◌+◌, ◌<◌, ◌≤◌, ◌^◌, ◌++◌, sum_by, length, OnOk, string_bytes, slice_get};
ghost use Rattle.sx_lines.specs.Lines.{ended};
ghost use Rattle.sx_generations_text.specs.Generations.{word_digits, runs_line, older_run_line, size_of, commit_line, groups_line, group_line, first_to_last};

use std::alloc::AllocError;
use sx_generations::{Confirmed, Group, Older, Run};
use sx_wal::WalIndex;

/// Puts the line that counts the runs and their commits into `line`.
#[tactic(auto, unfolding(crate::specs::Generations::runs_line))]
pub fn put_runs_line(older: &Older, line: &mut String) -> Result<(), AllocError>
    ensures { OnOk result (string_bytes line.new ≡ ended (runs_line older.now)) }
{
    let runs = older.runs();
    let commits = commits_in_all(older);
    line.clear();
    writeln!(line, "wal runs {runs} commits {commits}")
}

// How many commits the runs have.
fn commits_in_all(older: &Older) -> u64
    ensures { result ≡ sum_by (λ run. length run.1) older.now }
{
    let mut commits = 0;
    for i in 0..older.runs() {
        commits += u64::from(older.run(i).commits);
    }
    commits
}

/// Puts the line of run `i` into `line`.
#[tactic(auto, unfolding(crate::specs::Generations::older_run_line, crate::specs::Generations::word_digits))]
pub fn put_run_line(i: u32, run: Run, line: &mut String) -> Result<(), AllocError>
    ensures { OnOk result (string_bytes line.new ≡ ended (older_run_line i run)) }
{
    line.clear();
    write!(line, "run {i} slots ")?;
    put_first_to_last(run.first, run.slots, line)?;
    let (salt1, salt2) = (run.salt1, run.salt2);
    writeln!(line, " salts {salt1:08x} {salt2:08x}")
}

/// Puts the line of a commit of a run into `line`.
#[tactic(auto, unfolding(crate::specs::Generations::commit_line))]
pub fn put_commit_line(wal: &WalIndex, slot: u32, line: &mut String) -> Result<(), AllocError>
    ensures { OnOk result (string_bytes line.new ≡ ended (commit_line wal.now.slots slot)) }
{
    let pages = commit_size(wal, slot);
    line.clear();
    writeln!(line, "commit frame {slot} pages {pages}")
}

// The size word of a slot, 0 where there is no such slot.
fn commit_size(wal: &WalIndex, slot: u32) -> u32
    ensures { result ≡ size_of (slice_get wal.now.slots slot) }
{
    if slot < wal.slots() {
        wal.slot(slot).commit_size
    } else {
        0
    }
}

/// Puts the line that counts the groups into `line`.
#[tactic(auto, unfolding(crate::specs::Generations::groups_line))]
pub fn put_groups_line(confirmed: &Confirmed, line: &mut String) -> Result<(), AllocError>
    ensures { OnOk result (string_bytes line.new ≡ ended (groups_line confirmed.now)) }
{
    let groups = confirmed.groups();
    line.clear();
    writeln!(line, "journal groups {groups}")
}

/// Puts the line of group `i` into `line`.
#[tactic(auto, unfolding(crate::specs::Generations::group_line, crate::specs::Generations::word_digits))]
pub fn put_group_line(i: u32, group: Group, line: &mut String) -> Result<(), AllocError>
    ensures { OnOk result (string_bytes line.new ≡ ended (group_line i group)) }
{
    line.clear();
    write!(line, "group {i} records ")?;
    put_first_to_last(group.first, group.entries, line)?;
    let nonce = group.nonce;
    writeln!(line, " nonce {nonce:08x}")
}

// Puts the first and the last place of so many neighbours behind what `line` holds.
fn put_first_to_last(first: u32, count: u32, line: &mut String) -> Result<(), AllocError>
    ensures { OnOk result (string_bytes line.new ≡ string_bytes line.old ++ first_to_last first count) }
{
    let last = (u64::from(first) + u64::from(count)).saturating_sub(1);
    write!(line, "{first}-{last}")
}
