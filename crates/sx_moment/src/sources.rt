//! The evidence with what its files were read as.
ghost use Rattle.std.specs.Prelude.{◌≡◌, ℕ, ◌+◌, ◌-◌, ◌*◌, ◌^◌, ◌<◌, ◌≤◌, ◌&&◌, IsTrue, Some, length, slice_index, option_copied, IfOk};
ghost use Rattle.sx_moment.specs.Gathered.{gathered, bytes_in, slot_at, record_at, page_count, file_size, size_at, limit_at, commit_at, is_live_state, is_moment};
ghost use Rattle.sx_moment.specs.Views.{lock_in, place_of, bytes_of, is_good_record, slot_pages};
ghost use Rattle.sx_moment.specs.Reading.{IsGathered};
ghost use Rattle.sx_moment.specs.Limits.{IsSmall};
ghost use Rattle.sx_moment.specs.Images.{is_in_file, bound_at};
ghost use Rattle.sx_moment.specs.Marks.{is_committed, is_same};
ghost use Rattle.sx_moment.specs.Turns.{moment_before};
ghost use Rattle.sx_base.specs.declared.moment.Moment.TheVariants.{Commit};
ghost use Rattle.sx_header.specs.Header.{HasRanges};
ghost use Rattle.sx_wal.specs.Wal.{wal_of};
ghost use Rattle.sx_journal.specs.Journal.{journal_of};

use crate::evidence::Evidence;
use crate::origin::Origin;
use std::alloc::{AllocError, Global};
use std::marker::Model;
use sx_base::{Class, Moment, Part, Place, lock_page};
use sx_header::Header;
use sx_journal::{Entry, JournalIndex, JournalState, read_journal, records_lie_in_file};
use sx_wal::{Slot, WalIndex, commits_stand, read_wal, slots_stand};

/// The evidence, its database's header, and what its log and its journal were read as.
#[derive(Drop)]
pub struct Sources<'a> {
    header: Header,
    evidence: Evidence<'a>,
    wal: WalIndex,
    journal: JournalIndex,
}

impl<'a> Model for Sources<'a> {
    ghost use Rattle.std.specs.Prelude.{option_copied};
    ghost use Rattle.sx_moment.specs.Gathered.{Gathered};
    ghost use Rattle.sx_moment.specs.Reading.{IsGathered, gathered_by};

    ghost Value = { Gathered };

    ghost view = { λ sources. gathered_by sources.header sources.evidence.database.now (option_copied sources.evidence.wal) (option_copied sources.evidence.journal) sources.wal sources.journal };

    ghost invariant = { λ sources. IsGathered (gathered_by sources.header sources.evidence.database.now (option_copied sources.evidence.wal) (option_copied sources.evidence.journal) sources.wal sources.journal) };
}

impl<'a> Sources<'a> {
    /// Reads the log and the journal beside a database with this header. It answers `AllocError` where memory runs out,
    /// and nothing else.
    pub fn read(alloc: Global, header: Header, evidence: Evidence<'a>) -> Result<Self, AllocError>
        requires header { HasRanges header }
        requires small { IsSmall evidence.database.now (option_copied evidence.wal) (option_copied evidence.journal) }
        ensures { IfOk result (λ sources. sources ≡ gathered header evidence.entry.database.now (option_copied evidence.entry.wal) (option_copied evidence.entry.journal)) }
    {
        let wal = read_wal(alloc, evidence.wal, header.page_size)?;
        let journal = read_journal(alloc, evidence.journal, header.page_size)?;
        slots_stand();
        commits_stand();
        records_lie_in_file();
        Ok(Sources {
            header,
            evidence,
            wal,
            journal,
        })
    }

    /// The header of the database.
    pub fn header(&self) -> &Header
        ensures header { result.now ≡ self.now.header }
        ensures ranges { HasRanges self.now.header }
    {
        &self.header
    }

    /// The evidence.
    pub fn evidence(&self) -> Evidence<'a>
        ensures database { result.database.now ≡ self.now.database }
        ensures wal { option_copied result.wal ≡ self.now.wal_bytes }
        ensures journal { option_copied result.journal ≡ self.now.journal_bytes }
    {
        self.evidence
    }

    /// What the log was read as.
    pub fn wal(&self) -> &WalIndex
        ensures wal { result.now ≡ self.now.wal }
        ensures read { self.now.wal ≡ wal_of self.now.wal_bytes self.now.header.page_size }
    {
        &self.wal
    }

    /// What the journal was read as.
    pub fn journal(&self) -> &JournalIndex
        ensures journal { result.now ≡ self.now.journal }
        ensures read { self.now.journal ≡ journal_of self.now.journal_bytes self.now.header.page_size }
    {
        &self.journal
    }

    /// Slot `i` of the log, from 0.
    pub fn slot(&self, i: u32) -> Slot
        requires { i < length self.now.wal.slots }
        ensures { result ≡ slot_at self.now i }
    {
        self.wal.slot(i)
    }

    /// How many slots the log has.
    pub fn slots(&self) -> u32
        ensures value { result ≡ length self.now.wal.slots }
        ensures few { result < 2 ^ 31 }
    {
        self.wal.slots()
    }

    /// How many commits the log has.
    pub fn commits(&self) -> u32
        ensures value { result ≡ length self.now.wal.commits }
        ensures few { result < 2 ^ 31 }
    {
        self.wal.commits()
    }

    /// Record `i` of the journal, from 0.
    pub fn record(&self, i: u32) -> Entry
        requires { i < length self.now.journal.entries }
        ensures { result ≡ record_at self.now i }
    {
        self.journal.entry(i)
    }

    /// How many records the journal has.
    pub fn records(&self) -> u32
        ensures { result ≡ length self.now.journal.entries }
    {
        self.journal.entries()
    }

    /// How many whole pages the file has.
    pub fn page_count(&self) -> u32
        ensures value { result ≡ page_count self.now }
        ensures few { result < 2 ^ 31 }
    {
        (self.evidence.database.len() / self.header.page_size as usize) as u32
    }

    /// The number of the lock-byte page ("The Lock-Byte Page").
    pub fn lock_page(&self) -> u32
        ensures value { result ≡ lock_in self.now }
        ensures first { 1 ≤ result }
    {
        lock_page(self.header.page_size)
    }

    /// The size in pages of the file's own state ("In-header Database Size").
    fn file_size(&self) -> u32
        ensures { result ≡ file_size self.now }
    {
        let header = &self.header;
        if header.pages != 0 && header.change == header.valid_for {
            header.pages
        } else {
            self.page_count()
        }
    }

    /// Whether a moment is one of the evidence's.
    pub fn has_moment(&self, moment: Moment) -> bool
        ensures { result ≡ is_moment self.now moment }
    {
        match moment {
            Moment::Journal => self.has_journal(),
            Moment::File => true,
            Moment::Commit(k) => 1 <= k && k <= self.commits(),
        }
    }

    /// Whether the journal is live.
    pub fn has_journal(&self) -> bool
        ensures { result ≡ is_live_state self.now.journal.state }
    {
        matches!(self.journal.state(), JournalState::Live)
    }

    /// The size of a moment in pages.
    pub fn size(&self, moment: Moment) -> u32
        requires { IsTrue (is_moment self.now moment) }
        ensures { result ≡ size_at self.now moment }
    {
        match moment {
            Moment::Journal => self.journal.initial_size(),
            Moment::File => self.file_size(),
            Moment::Commit(k) => self.slot(self.wal.commit(k)).commit_size,
        }
    }

    /// How many slots stand up to a moment.
    pub fn limit(&self, moment: Moment) -> u32
        requires { IsTrue (is_moment self.now moment) }
        ensures value { result ≡ limit_at self.now moment }
        ensures within { result ≤ length self.now.wal.slots }
        ensures few { result < 2 ^ 31 }
    {
        match moment {
            Moment::Commit(k) => self.wal.commit(k) + 1,
            _ => 0,
        }
    }

    /// How many of the images a moment may see: all records, or the slots up to it.
    pub fn bound(&self, moment: Moment) -> u32
        requires { IsTrue (is_moment self.now moment) }
        ensures value { result ≡ bound_at self.now moment }
        ensures seen { limit_at self.now moment ≤ length self.now.wal.slots }
    {
        match moment {
            Moment::Journal => self.records(),
            _ => self.limit(moment),
        }
    }

    /// How many slots stand up to the moment before a commit, which sees no more.
    pub fn limit_before(&self, k: u32) -> u32
        requires first { 1 ≤ k }
        requires last { k ≤ length self.now.wal.commits }
        ensures value { result ≡ limit_at self.now (moment_before k) }
        ensures order { result ≤ limit_at self.now (Commit k) }
    {
        let _ = &self.header;
        if k == 1 {
            0
        } else {
            self.limit(Moment::Commit(k - 1))
        }
    }

    /// The bytes of the page of the file, where that is wholly there.
    pub fn file_page(&self, no: u32) -> &'a [u8]
        requires first { 1 ≤ no }
        requires within { no ≤ page_count self.now }
        ensures bytes { result.now ≡ bytes_of self.now no Origin.Database }
        ensures whole { length result.now ≡ self.now.header.page_size }
    {
        let page_size = self.header.page_size as usize;
        let start = (no as usize - 1) * page_size;
        &self.evidence.database[start..start + page_size]
    }

    /// Whether a page is one of the file's, wholly there, that can have a view.
    pub fn is_in_file(&self, no: u32) -> bool
        ensures { result ≡ is_in_file (lock_in self.now) (page_count self.now) no }
    {
        0 < no && no <= self.page_count() && no != self.lock_page()
    }

    /// Whether slot `i` is Committed and equal to the page of the file.
    #[tactic(auto, unfolding(crate::specs::Marks::is_same))]
    pub fn is_same(&self, i: u32) -> bool
        requires there { i < length self.now.wal.slots }
        requires within { IsTrue (is_in_file (lock_in self.now) (page_count self.now) (slot_at self.now i).page) }
        ensures { result ≡ is_same self.now (slot_at self.now i).page i }
    {
        let slot = self.slot(i);
        is_committed(slot.class) && self.slot_page(i) == self.file_page(slot.page)
    }

    /// The bytes of the page in a slot.
    pub fn slot_page(&self, i: u32) -> &'a [u8]
        requires { i < length self.now.wal.slots }
        ensures bytes { (number : ℕ) → result.now ≡ bytes_of self.now number (Origin.Slot i) }
        ensures whole { length result.now ≡ self.now.header.page_size }
    {
        let start = self.slot(i).offset as usize;
        let wal = present(self.evidence.wal);
        &wal[start..start + self.header.page_size as usize]
    }

    /// The bytes of the page in a record.
    pub fn record_page(&self, i: u32) -> &'a [u8]
        requires { i < length self.now.journal.entries }
        ensures bytes { (number : ℕ) → result.now ≡ bytes_of self.now number (Origin.Record i) }
        ensures whole { length result.now ≡ self.now.header.page_size }
    {
        let start = self.record(i).offset as usize;
        let journal = present(self.evidence.journal);
        &journal[start..start + self.header.page_size as usize]
    }
}

// Whether a slot is Committed.
fn is_committed(class: Class) -> bool
    ensures { result ≡ is_committed class }
{
    matches!(class, Class::Committed)
}

// The bytes of a file, none where it is absent.
fn present<'a>(file: Option<&'a [u8]>) -> &'a [u8]
    ensures { result.now ≡ bytes_in (option_copied file.entry) }
{
    match file {
        Some(bytes) => bytes,
        None => &[],
    }
}
