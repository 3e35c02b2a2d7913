//! Words that the texts of several commands have.
ghost use Rattle.std.specs.Prelude.{◌≡◌, ◌++◌, OnOk, string_bytes};
ghost use Rattle.sx_lines.specs.Names.{part_name, moment_word, class_name, wal_state_name, journal_state_name};

use std::alloc::AllocError;
use sx_base::{Class, Moment, Part};
use sx_journal::JournalState;
use sx_wal::WalState;

/// The name of a part of the evidence.
pub fn part_name(part: Part) -> &'static str
    ensures { result.now ≡ part_name part }
{
    match part {
        Part::Database => "database",
        Part::Wal => "wal",
        Part::Journal => "journal",
    }
}

/// Puts a moment's word behind what `line` holds: `journal`, `0` for the database file, or the number of a commit.
pub fn put_moment(moment: Moment, line: &mut String) -> Result<(), AllocError>
    ensures { OnOk result (string_bytes line.new ≡ string_bytes line.old ++ moment_word moment) }
{
    match moment {
        Moment::Journal => line.push_str("journal"),
        Moment::File => line.push_str("0"),
        Moment::Commit(k) => write!(line, "{k}"),
    }
}

/// The name of a class of page images.
pub fn class_name(class: Class) -> &'static str
    ensures { result.now ≡ class_name class }
{
    match class {
        Class::File => "file",
        Class::Committed => "committed",
        Class::Pending => "pending",
        Class::Foreign => "foreign",
        Class::Broken => "broken",
        Class::Good => "good",
        Class::Bad => "bad",
        Class::After => "after",
        Class::Unchecked => "unchecked",
    }
}

/// The name of a write-ahead log's state.
pub fn wal_state_name(state: WalState) -> &'static str
    ensures { result.now ≡ wal_state_name state }
{
    match state {
        WalState::Absent => "absent",
        WalState::Short => "short",
        WalState::BadMagic => "badmagic",
        WalState::BadVersion => "badversion",
        WalState::BadPageSize => "badpagesize",
        WalState::OtherPageSize => "otherpagesize",
        WalState::BadHeaderSum => "badheadersum",
        WalState::Good => "good",
    }
}

/// The name of a rollback journal's state.
pub fn journal_state_name(state: JournalState) -> &'static str
    ensures { result.now ≡ journal_state_name state }
{
    match state {
        JournalState::Absent => "absent",
        JournalState::Short => "short",
        JournalState::Live => "live",
        JournalState::Zeroed => "zeroed",
        JournalState::Alien => "alien",
    }
}
