//! The text of `generations`.
ghost use Rattle.std.specs.Prelude.{◌≡◌, ℕ, ◌<◌, List, IfOk, string_bytes, length};
ghost use Rattle.sx_generations_text.specs.Generations.{generations_lines};
ghost use Rattle.sx_wal.specs.declared.slot.Slot.{Slot};
ghost use Rattle.sx_generations.specs.declared.runs.Run.{Run as OlderRun};
ghost use Rattle.sx_generations_text.specs.Rest.{IsPlace, IsStep, IsWritten};
ghost use Rattle.sx_generations_text.specs.declared.generations_line.GenerationsLine.TheVariants.{Run, Commit, Group};

use crate::generations_line::GenerationsLine;
use crate::texts::{put_commit_line, put_group_line, put_groups_line, put_run_line, put_runs_line};
use std::alloc::AllocError;
use std::marker::Model;
use sx_generations::{Confirmed, Older};
use sx_lines::Lines;
use sx_wal::WalIndex;

/// The lines of `generations` that are still to come. Making them all costs a step for each run, commit and group.
#[derive(Drop)]
pub struct GenerationsLines<'c> {
    wal: &'c WalIndex,
    older: Older,
    confirmed: Confirmed,
    next: GenerationsLine,
}

impl<'c> Model for GenerationsLines<'c> {
    ghost use Rattle.std.specs.Prelude.{ℕ, List};
    ghost use Rattle.sx_generations_text.specs.Rest.{lines_from, IsPlace};

    ghost Value = { List (List ℕ) };

    ghost view = { λ it. lines_from it.next it.wal.now.slots it.older it.confirmed };

    ghost invariant = { λ it. IsPlace it.next it.older };
}

impl<'c> GenerationsLines<'c> {
    /// All lines, over the log that the runs are of.
    pub fn new(wal: &'c WalIndex, older: Older, confirmed: Confirmed) -> Self
        ensures { result ≡ generations_lines wal.entry.now.slots older confirmed }
    {
        GenerationsLines {
            wal,
            older,
            confirmed,
            next: GenerationsLine::Runs,
        }
    }
}

// Puts the line of run `i` into `line`, or behind the last run the one that counts the groups; and which line comes next.
fn put_run_or_groups(
    older: &Older,
    confirmed: &Confirmed,
    i: u32,
    line: &mut String,
) -> Result<GenerationsLine, AllocError>
    ensures { (slots : List Slot) → IfOk result (λ next. IsStep slots older.now confirmed.now (Run i) next (string_bytes line.new)) }
{
    if i < older.runs() {
        put_run_line(i, older.run(i), line)?;
        Ok(GenerationsLine::Commit(i, 0))
    } else {
        put_groups_line(confirmed, line)?;
        Ok(GenerationsLine::Group(0))
    }
}

// Puts the line of commit `k` of run `i` into `line`, or behind the last commit the line behind the run; and which line
// comes next.
fn put_commit_or_run(
    wal: &WalIndex,
    older: &Older,
    confirmed: &Confirmed,
    i: u32,
    k: u32,
    line: &mut String,
) -> Result<GenerationsLine, AllocError>
    requires { i < length older.now }
    ensures { IfOk result (λ next. IsStep wal.now.slots older.now confirmed.now (Commit i k) next (string_bytes line.new)) }
{
    let _runs = older.runs();
    if k < older.run(i).commits {
        put_commit_line(wal, older.commit(i, k), line)?;
        Ok(GenerationsLine::Commit(i, k + 1))
    } else {
        let next = put_run_or_groups(older, confirmed, i + 1, line)?;
        Ok(next)
    }
}

// Puts the line of group `i` into `line`, if there is one; and which line comes next.
fn put_group(
    confirmed: &Confirmed,
    i: u32,
    line: &mut String,
) -> Result<Option<GenerationsLine>, AllocError>
    ensures { (slots : List Slot) (runs : List (OlderRun × List ℕ)) → IfOk result (λ next. IsWritten slots runs confirmed.now (Group i) next (string_bytes line.new)) }
{
    if i < confirmed.groups() {
        put_group_line(i, confirmed.group(i), line)?;
        Ok(Some(GenerationsLine::Group(i + 1)))
    } else {
        Ok(None)
    }
}

// Puts the line at a place into `line`, if one is left; and which line comes next.
fn put_line(
    wal: &WalIndex,
    older: &Older,
    confirmed: &Confirmed,
    at: GenerationsLine,
    line: &mut String,
) -> Result<Option<GenerationsLine>, AllocError>
    requires { IsPlace «at» older.now }
    ensures { IfOk result (λ next. IsWritten wal.now.slots older.now confirmed.now «at» next (string_bytes line.new)) }
{
    match at {
        GenerationsLine::Runs => {
            put_runs_line(older, line)?;
            Ok(Some(GenerationsLine::Run(0)))
        }
        GenerationsLine::Run(i) => Ok(Some(put_run_or_groups(older, confirmed, i, line)?)),
        GenerationsLine::Commit(i, k) => Ok(Some(put_commit_or_run(
            wal, older, confirmed, i, k, line,
        )?)),
        GenerationsLine::Group(i) => put_group(confirmed, i, line),
    }
}

impl Lines for GenerationsLines<'_> {
    ghost lines = { λ it. it };

    fn next_line(&mut self, line: &mut String) -> Result<bool, AllocError> {
        let next = put_line(self.wal, &self.older, &self.confirmed, self.next, line)?;
        let Some(next) = next else {
            return Ok(false);
        };
        self.next = next;
        Ok(true)
    }
}
