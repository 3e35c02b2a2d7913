//! How the runs of older generations are listed.
ghost use Rattle.std.specs.Prelude.{◌≡◌, ℕ, ◌+◌, ◌^◌, ◌<◌, ◌≤◌, [], ◌++◌, length, map, IfOk, OnOk};
ghost use Rattle.sx_generations.specs.Neighbours.{streaks_of};
ghost use Rattle.sx_generations.specs.Older.{continues, commits_in, older_run, older_of, AreSlotsOf, IsLog};

use crate::continuing::Frames;
use crate::neighbours::{Streak, streaks};
use crate::runs::{Listed, Older, Run};
use std::alloc::{AllocError, Global};
use sx_bytes::be32;
use sx_wal::WalIndex;

/// The runs of older generations in a log with these bytes, whose index was read from them; an absent log has no bytes.
///
/// The sums of each slot that isn't valid are taken once at most: one pass over the log. It takes 40 bytes of memory a run
/// and 4 a commit. It answers `AllocError` where memory runs out, and nothing else.
pub fn older(alloc: Global, bytes: &[u8], wal: &WalIndex) -> Result<Older, AllocError>
    requires { IsLog bytes.now wal.now }
    ensures { IfOk result (λ older. (page_size : ℕ) → AreSlotsOf page_size bytes.now wal.now → older ≡ older_of page_size bytes.now) }
{
    if wal.slots() == 0 {
        return Ok(nothing(alloc));
    }
    list(alloc, &frames_of(bytes, wal))
}

/// No runs.
fn nothing(alloc: Global) -> Older
    ensures { result ≡ [] }
{
    Older {
        runs: Vec::new(alloc),
        commits: Vec::new(alloc),
    }
}

/// The frames of a log that has slots. The size of its pages stands in its header.
fn frames_of<'a>(bytes: &'a [u8], wal: &'a WalIndex) -> Frames<'a>
    requires log { IsLog bytes.now wal.now }
    requires some { 0 < length wal.now.slots }
    requires few { length wal.now.slots < 2 ^ 32 }
    ensures bytes { result.bytes.now ≡ bytes.entry.now }
    ensures slots { result.slots.now ≡ wal.entry.now }
    ensures size { (page_size : ℕ) → AreSlotsOf page_size bytes.entry.now wal.entry.now → result.page_size ≡ page_size }
{
    Frames {
        bytes,
        page_size: be32(bytes, 8) as usize,
        slots: wal,
    }
}

/// Lists the runs among these frames.
fn list(alloc: Global, frames: &Frames<'_>) -> Result<Older, AllocError>
    ensures { IfOk result (λ older. older ≡ map (older_run frames.now.page_size frames.now.bytes.now)
        (streaks_of (continues frames.now.page_size frames.now.bytes.now) (length frames.now.slots.now.slots))) }
{
    let streaks = streaks(alloc, frames)?;
    let mut runs = Vec::with_capacity(alloc, streaks.len())?;
    let mut commits = Vec::new(alloc);
    for streak in streaks.iter() {
        runs.push(list_run(frames, *streak, &mut commits)?)?;
    }
    Ok(Older { runs, commits })
}

/// Lists a run, and its commits behind those of the runs before it.
#[tactic(auto, unfolding(crate::specs::Older::older_run))]
fn list_run(
    frames: &Frames<'_>,
    streak: Streak,
    commits: &mut Vec<u32>,
) -> Result<Listed, AllocError>
    requires two { 2 ≤ streak.len }
    requires within { streak.first + streak.len ≤ length frames.now.slots.now.slots }
    ensures commits { OnOk result (commits.new.items ≡ commits.old.items ++ commits_in frames.now.page_size frames.now.bytes.now streak) }
    ensures run { IfOk result (λ listed. listed.run ≡ (older_run frames.now.page_size frames.now.bytes.now streak).0) }
    ensures before { IfOk result (λ listed. listed.before ≡ length commits.old.items) }
{
    let before = commits.len();
    list_commits(frames, streak, commits)?;
    let salts = frames.salts_at(streak.first);
    Ok(Listed {
        run: Run {
            first: streak.first,
            slots: streak.len,
            salt1: salts.0,
            salt2: salts.1,
            commits: (commits.len() - before) as u32,
        },
        before,
    })
}

/// Lists the commits of a run.
fn list_commits(
    frames: &Frames<'_>,
    streak: Streak,
    commits: &mut Vec<u32>,
) -> Result<(), AllocError>
    requires two { 2 ≤ streak.len }
    requires within { streak.first + streak.len ≤ length frames.now.slots.now.slots }
    ensures { OnOk result (commits.new.items ≡ commits.old.items ++ commits_in frames.now.page_size frames.now.bytes.now streak) }
{
    for i in streak.first + 1..streak.first + streak.len {
        if frames.has_size(i) {
            commits.push(i)?;
        }
    }
    Ok(())
}
