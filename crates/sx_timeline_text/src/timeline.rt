//! The text of `timeline`.
ghost use Rattle.std.specs.Prelude.{◌≡◌, ◌<◌, ◌++◌, IsTrue, length, OnOk, slice_get, string_bytes};
ghost use Rattle.sx_moment.specs.Gathered.{is_moment, moments_of, page_count};
ghost use Rattle.sx_lines.specs.Lines.{ended};
ghost use Rattle.sx_timeline_text.specs.Rest.{timeline_rest};
ghost use Rattle.sx_timeline_text.specs.Timeline.{database_line, log_text, wal_line, journal_line, moment_name, moment_counts, moment_line, timeline_lines};

use crate::tally::{Tally, count_classes};
use std::alloc::AllocError;
use sx_base::{Moment, Pages};
use sx_journal::JournalIndex;
use sx_lines::{Lines, journal_state_name, put_moment, wal_state_name};
use sx_moment::{Case, Snapshot};
use sx_wal::WalIndex;

/// The lines of `timeline` that are still to come.
///
/// They are made from the gathered evidence, one at a time. Making them all costs one pass over the slots of the
/// write-ahead log and a step for each moment; the counts of a moment's pages were kept when it was gathered.
#[derive(Drop)]
pub struct TimelineLines<'c, 'a> {
    case: &'c Case<'a>,
    next: TimelineLine,
}

/// The next line of `timeline`.
#[derive(Clone, Copy)]
pub enum TimelineLine {
    /// The database: page size and usable size in bytes, and whole pages of the file.
    Database,
    /// The write-ahead log.
    Log,
    /// The rollback journal.
    Journal,
    /// The moments behind the first so many.
    Moments(u32),
}

impl<'c, 'a> TimelineLines<'c, 'a> {
    /// All lines over this evidence.
    pub fn new(case: &'c Case<'a>) -> Self
        ensures { timeline_rest result ≡ timeline_lines case.now }
    {
        TimelineLines {
            case,
            next: TimelineLine::Database,
        }
    }
}

// Puts the database's line into `line`.
#[tactic(auto, unfolding(crate::specs::Timeline::database_line))]
fn put_database_line(case: &Case<'_>, line: &mut String) -> Result<(), AllocError>
    ensures { OnOk result (string_bytes line.new ≡ ended (database_line case.now)) }
{
    let page_size = case.header().page_size;
    let usable = case.header().usable;
    let pages = whole_pages(case);
    line.clear();
    writeln!(
        line,
        "database pagesize {page_size} usable {usable} pages {pages}"
    )
}

// How many whole pages the database file has.
fn whole_pages(case: &Case<'_>) -> usize
    ensures { result ≡ page_count case.now }
{
    case.evidence().database.len() / case.header().page_size as usize
}

// Puts the line of a write-ahead log in that state, with so many frames, into `line`.
#[tactic(auto, unfolding(crate::specs::Timeline::log_text))]
fn put_log_line(
    state: &str,
    frames: u32,
    tally: &Tally,
    line: &mut String,
) -> Result<(), AllocError>
    ensures { OnOk result (string_bytes line.new ≡ ended (log_text state.now frames tally.now.committed tally.now.pending tally.now.foreign tally.now.broken)) }
{
    let committed = tally.committed;
    let pending = tally.pending;
    let foreign = tally.foreign;
    let broken = tally.broken;
    line.clear();
    writeln!(
        line,
        "wal {state} frames {frames} committed {committed} pending {pending} foreign {foreign} broken {broken}"
    )
}

// Puts the write-ahead log's line into `line`.
#[tactic(auto, unfolding(crate::specs::Timeline::wal_line))]
fn put_wal_line(wal: &WalIndex, line: &mut String) -> Result<(), AllocError>
    ensures { OnOk result (string_bytes line.new ≡ ended (wal_line wal.now)) }
{
    let tally = count_classes(wal);
    put_log_line(wal_state_name(wal.state()), wal.slots(), &tally, line)
}

// Puts the journal's line into `line`.
#[tactic(auto, unfolding(crate::specs::Timeline::journal_line))]
fn put_journal_line(journal: &JournalIndex, line: &mut String) -> Result<(), AllocError>
    ensures { OnOk result (string_bytes line.new ≡ ended (journal_line journal.now)) }
{
    let state = journal_state_name(journal.state());
    let records = journal.entries();
    let good = journal.good();
    line.clear();
    writeln!(line, "journal {state} records {records} good {good}")
}

// Puts the name of a moment into `line`, and the frame that ends it where it is a commit.
#[tactic(auto, unfolding(crate::specs::Timeline::moment_name))]
fn put_moment_name(case: &Case<'_>, moment: Moment, line: &mut String) -> Result<(), AllocError>
    requires { IsTrue (is_moment case.now moment) }
    ensures { OnOk result (string_bytes line.new ≡ moment_name case.now moment) }
{
    line.clear();
    put_moment(moment, line)?;
    match moment {
        Moment::Commit(k) => {
            let frame = case.wal().commit(k);
            write!(line, " frame {frame}")
        }
        _ => Ok(()),
    }
}

// Puts the counts of a moment's pages behind what `line` holds.
#[tactic(auto, unfolding(crate::specs::Timeline::moment_counts))]
fn put_moment_counts(snapshot: &Snapshot<'_, '_>, line: &mut String) -> Result<(), AllocError>
    ensures { OnOk result (string_bytes line.new ≡ string_bytes line.old ++ ended (moment_counts snapshot.now.case.now snapshot.now.moment)) }
{
    let pages = snapshot.size();
    let held = snapshot.held();
    let uncertain = snapshot.uncertain_count();
    writeln!(line, " pages {pages} held {held} uncertain {uncertain}")
}

// Puts the line of a moment of the evidence into `line`.
fn put_moment_line(case: &Case<'_>, moment: Moment, line: &mut String) -> Result<(), AllocError>
    requires { IsTrue (is_moment case.now moment) }
    ensures { OnOk result (string_bytes line.new ≡ ended (moment_line case.now moment)) }
{
    let Some(snapshot) = case.snapshot(moment) else {
        unreachable!()
    };
    put_moment_name(case, moment, line)?;
    put_moment_counts(&snapshot, line)
}

impl Lines for TimelineLines<'_, '_> {
    ghost use Rattle.sx_timeline_text.specs.Rest.{timeline_rest};

    ghost lines = { timeline_rest };

    fn next_line(&mut self, line: &mut String) -> Result<bool, AllocError> {
        match self.next {
            TimelineLine::Database => {
                put_database_line(self.case, line)?;
                self.next = TimelineLine::Log;
            }
            TimelineLine::Log => {
                put_wal_line(self.case.wal(), line)?;
                self.next = TimelineLine::Journal;
            }
            TimelineLine::Journal => {
                put_journal_line(self.case.journal(), line)?;
                self.next = TimelineLine::Moments(0);
            }
            TimelineLine::Moments(done) => {
                if done >= self.case.moments() {
                    return Ok(false);
                }
                put_moment_line(self.case, self.case.moment(done), line)?;
                self.next = TimelineLine::Moments(done + 1);
            }
        }
        Ok(true)
    }
}
