//! A set of places of one image, kept as runs in order of which none touches the next.
ghost use Rattle.std.specs.Prelude.{◌≡◌, ℕ, ◌+◌, ◌<◌, ◌≤◌, ◌||◌, ◌∷◌, ◌++◌, [], length, take, drop, IfOk, OnOk, OnErr};
ghost use Rattle.sx_owned.specs.Runs.{Apart, Within, Reach, Splits, Extends, holds, is_owned, with_run, free_from};

use crate::run::Run;
use crate::unowned::Unowned;
use std::alloc::{AllocError, Global};
use std::marker::Model;

/// A set of places of one image.
#[derive(Drop)]
pub struct Places {
    runs: Vec<Run>,
}

impl Model for Places {
    ghost use Rattle.std.specs.Prelude.{List};
    ghost use Rattle.sx_owned.specs.declared.run.Run.{Run};
    ghost use Rattle.sx_owned.specs.Runs.{Apart};

    ghost Value = { List Run };

    ghost view = { λ places. places.runs.items };

    ghost invariant = { λ places. Apart 0 places.runs.items };
}

impl Places {
    /// No place. Takes no memory.
    pub fn none(alloc: Global) -> Places
        ensures { result ≡ [] }
    {
        Places {
            runs: Vec::new(alloc),
        }
    }

    /// Adds the places of a run. A refusal changes nothing.
    ///
    /// The cost is constant where no run begins behind this one, and else linear in the runs.
    pub fn add(&mut self, run: Run) -> Result<(), AllocError>
        requires { run.start < run.end }
        ensures ok { OnOk result (Extends self.old self.new run) }
        ensures err { OnErr result (self.new ≡ self.old) }
    {
        add_run(&mut self.runs, run)
    }

    /// Whether it has this place. The cost is logarithmic in the runs.
    #[inline]
    pub fn contains(&self, at: u32) -> bool
        ensures { result ≡ is_owned self.now at }
    {
        holds_place(self.runs.as_slice(), at)
    }

    /// The spans of the places that it hasn't, below a size.
    pub fn gaps(&self, size: u32) -> Unowned<'_>
        ensures gaps { result ≡ free_from 0 size self.now }
        ensures apart { Apart 0 self.now }
    {
        Unowned::new(self.runs.as_slice(), size)
    }
}

/// Adds a run to runs.
fn add_run(runs: &mut Vec<Run>, run: Run) -> Result<(), AllocError>
    requires apart { Apart 0 runs.old.items }
    requires some { run.start < run.end }
    ensures ok { OnOk result (runs.new.items ≡ with_run runs.old.items run) }
    ensures err { OnErr result (runs.new.items ≡ runs.old.items) }
{
    let (first, last, all) = merged(runs.as_slice(), run);
    if first == last {
        return insert_run(runs, first, all);
    }
    runs[first] = all;
    close_gap(runs, first + 1, last);
    Ok(())
}

/// What a run becomes among runs: the numbers from the first that it touches up to the one behind the last, and what it
/// is together with them.
fn merged(runs: &[Run], run: Run) -> (usize, usize, Run)
    requires { Apart 0 runs.now }
    ensures same { with_run runs.now run ≡ take result.0 runs.now ++ result.2 ∷ drop result.1 runs.now }
    ensures rises { result.0 ≤ result.1 }
    ensures within { result.1 ≤ length runs.now }
{
    let first = first_reached(runs, run.start);
    let (touched, all) = joined_from(runs.split_at(first).1, run);
    (first, first + touched, all)
}

/// Puts a run before the one of this number. A refusal changes nothing.
fn insert_run(runs: &mut Vec<Run>, at: usize, run: Run) -> Result<(), AllocError>
    requires { at ≤ length runs.old.items }
    ensures ok { OnOk result (runs.new.items ≡ take at runs.old.items ++ run ∷ drop at runs.old.items) }
    ensures err { OnErr result (runs.new.items ≡ runs.old.items) }
{
    runs.insert(at, run)?;
    Ok(())
}

/// Takes out the runs of the numbers from `from` up to `to`.
fn close_gap(runs: &mut Vec<Run>, from: usize, to: usize)
    requires rises { from ≤ to }
    requires within { to ≤ length runs.old.items }
    ensures { runs.new.items ≡ take from runs.old.items ++ drop to runs.old.items }
{
    let behind = runs.len() - to;
    runs.rotate_left(to);
    runs.truncate(behind + from);
    runs.rotate_left(behind);
}

/// How many runs end before a place, so that they don't even touch a run that begins there; looked for from the end.
fn first_reached(runs: &[Run], at: u32) -> usize
    requires { Apart 0 runs.now }
    ensures { Splits at runs.now result }
{
    let mut left = runs;
    while let Some((last, front)) = left.split_last() {
        if last.end < at {
            return left.len();
        }
        left = front;
    }
    left.len()
}

/// How many runs at the front a run touches, one after the other, and what it is together with them.
fn joined_from(runs: &[Run], run: Run) -> (usize, Run)
    requires { Reach run.start runs.now }
    ensures joined { with_run runs.now run ≡ result.1 ∷ drop result.0 runs.now }
    ensures within { result.0 ≤ length runs.now }
{
    let mut all = run;
    let mut touched = 0;
    let mut left = runs;
    while let Some((next, others)) = left.split_first() {
        if all.end < next.start {
            return (touched, all);
        }
        all = Run {
            start: next.start.min(all.start),
            end: next.end.max(all.end),
        };
        touched += 1;
        left = others;
    }
    (touched, all)
}

/// Whether one of the runs holds a place.
#[inline]
fn holds_place(runs: &[Run], at: u32) -> bool
    requires { Apart 0 runs.now }
    ensures { result ≡ is_owned runs.now at }
{
    let mut left = runs;
    while left.len() > 1 {
        left = nearer_half(left, at);
    }
    is_among(left, at)
}

/// Whether one of a few runs holds a place.
#[tactic(auto, unfolding(crate::specs::Runs::is_owned))]
fn is_among(runs: &[Run], at: u32) -> bool
    ensures { result ≡ is_owned runs.now at }
{
    runs.iter().any(|run| run.start <= at && at < run.end)
}

/// The half of two runs or more that alone can hold a place.
fn nearer_half(runs: &[Run], at: u32) -> &[Run]
    requires some { 1 < length runs.now }
    requires apart { Apart 0 runs.now }
    ensures owned { is_owned result.now at ≡ is_owned runs.now at }
    ensures apart { Apart 0 result.now }
    ensures shorter { length result.now < length runs.now }
{
    let (front, behind) = runs.split_at(runs.len() / 2);
    let Some((first, _)) = behind.split_first() else {
        return front;
    };
    if first.start <= at { behind } else { front }
}
