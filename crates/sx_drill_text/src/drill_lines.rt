//! The lines of `drill`.
ghost use Rattle.std.specs.Prelude.{◌≡◌, OnOk, string_bytes};
ghost use Rattle.sx_lines.specs.Lines.{ended};
ghost use Rattle.sx_drill_text.specs.Drill.{asked_line, files_line, found_line, drill_lines};
ghost use Rattle.sx_drill_text.specs.Rest.{drill_rest};

use std::alloc::AllocError;
use sx_lines::Lines;

/// What a drill made, and what was found in it.
#[derive(Clone, Copy, Debug, PartialEq, Eq)]
pub struct DrillCounts {
    /// The length of the database in bytes.
    pub database: u64,
    /// The length of the write-ahead log in bytes.
    pub wal: u64,
    /// How many commits the log was read to have.
    pub commits: u32,
    /// How many rows the table was read to have at the last moment.
    pub rows: u64,
    /// How many candidates were found under all moments.
    pub candidates: u64,
}

/// The lines of `drill` that are still to come.
#[derive(Drop)]
pub struct DrillLines {
    seed: u64,
    leaves: u32,
    commits: u32,
    counts: DrillCounts,
    next: DrillLine,
}

/// The next line of `drill`.
#[derive(Clone, Copy)]
pub enum DrillLine {
    /// What it was asked for.
    Asked,
    /// The lengths of the files.
    Files,
    /// What was found in them.
    Found,
    /// None.
    End,
}

impl DrillLines {
    /// All lines of a drill by this seed, with so many leaves and commits, and of what was found.
    pub fn new(seed: u64, leaves: u32, commits: u32, counts: DrillCounts) -> Self
        ensures { drill_rest result ≡ drill_lines seed leaves commits counts }
    {
        DrillLines {
            seed,
            leaves,
            commits,
            counts,
            next: DrillLine::Asked,
        }
    }
}

impl Lines for DrillLines {
    ghost use Rattle.sx_drill_text.specs.Rest.{drill_rest};

    ghost lines = { drill_rest };

    fn next_line(&mut self, line: &mut String) -> Result<bool, AllocError> {
        match self.next {
            DrillLine::Asked => {
                put_asked_line(self.seed, self.leaves, self.commits, line)?;
                self.next = DrillLine::Files;
                Ok(true)
            }
            DrillLine::Files => {
                put_files_line(self.counts, line)?;
                self.next = DrillLine::Found;
                Ok(true)
            }
            DrillLine::Found => {
                put_found_line(self.counts, line)?;
                self.next = DrillLine::End;
                Ok(true)
            }
            DrillLine::End => Ok(false),
        }
    }
}

// Puts the line of what was asked for into `line`.
#[tactic(auto, unfolding(crate::specs::Drill::asked_line))]
fn put_asked_line(seed: u64, leaves: u32, commits: u32, line: &mut String) -> Result<(), AllocError>
    ensures { OnOk result (string_bytes line.new ≡ ended (asked_line seed leaves commits)) }
{
    line.clear();
    writeln!(line, "drill seed {seed} leaves {leaves} commits {commits}")
}

// Puts the line of the files into `line`.
#[tactic(auto, unfolding(crate::specs::Drill::files_line))]
fn put_files_line(counts: DrillCounts, line: &mut String) -> Result<(), AllocError>
    ensures { OnOk result (string_bytes line.new ≡ ended (files_line counts)) }
{
    line.clear();
    let DrillCounts { database, wal, .. } = counts;
    writeln!(line, "database {database} wal {wal}")
}

// Puts the line of what was found into `line`.
#[tactic(auto, unfolding(crate::specs::Drill::found_line))]
fn put_found_line(counts: DrillCounts, line: &mut String) -> Result<(), AllocError>
    ensures { OnOk result (string_bytes line.new ≡ ended (found_line counts)) }
{
    line.clear();
    let DrillCounts {
        commits,
        rows,
        candidates,
        ..
    } = counts;
    writeln!(
        line,
        "commits {commits} rows {rows} candidates {candidates}"
    )
}
