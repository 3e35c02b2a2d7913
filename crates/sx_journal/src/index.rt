//! What a journal holds, read once.
ghost use Rattle.std.specs.Prelude.{◌≡◌, ℕ, ◌+◌, ◌^◌, ◌<◌, ◌≤◌, List, All, length, slice_get, IsTrue, IfOk, option_copied};
ghost use Rattle.std.specs.Option.{ForSome};
ghost use Rattle.sx_bytes.specs.PageSize.{IsPageSize};
ghost use Rattle.sx_journal.specs.Header.{is_live};
ghost use Rattle.sx_journal.specs.Entries.{good_count, unchecked};
ghost use Rattle.sx_journal.specs.Journal.{headless, live_journal, journal_of};

use crate::entries::Entries;
use crate::entry::Entry;
use crate::header::{DEFAULT_SECTOR, HEADER_LEN, is_live, is_zeroed};
use crate::segment::{Segment, whole_records};
use crate::state::JournalState;
use crate::walk::{read_segments, read_unchecked};
use std::alloc::{AllocError, Global};
use std::marker::Model;
use sx_bytes::be32;

/// What a rollback journal holds: its state, and the places of its segments and records.
#[derive(Drop)]
pub struct JournalIndex {
    state: JournalState,
    initial_size: u32,
    sector: u32,
    segments: Vec<Segment>,
    entries: Entries,
}

impl Model for JournalIndex {
    ghost use Rattle.std.specs.Prelude.{◌^◌, ◌<◌, length};
    ghost use Rattle.sx_journal.specs.Journal.{Journal};

    ghost Value = { Journal };

    ghost view = { λ index. record { state = index.state; initial_size = index.initial_size; sector = index.sector; segments = index.segments.items; entries = index.entries } };

    ghost invariant = { λ index. length index.segments.items < 2 ^ 32 };
}

/// Reads a journal of at most 4,294,967,295 bytes, or its absence, beside a database of that page size.
///
/// Each record is read once, and of its page only the bytes that the checksum samples. It answers `AllocError` where
/// memory runs out, and nothing else.
#[tactic(auto, unfolding(crate::specs::Journal::journal_of))]
pub fn read_journal(
    alloc: Global,
    bytes: Option<&[u8]>,
    page_size: u32,
) -> Result<JournalIndex, AllocError>
    requires page_size { IsPageSize page_size }
    requires small { ForSome (option_copied bytes) (λ journal. length journal < 2 ^ 32) }
    ensures { IfOk result (λ index. index ≡ journal_of (option_copied bytes.entry) page_size) }
{
    let Some(bytes) = bytes else {
        return Ok(JournalIndex::headless(alloc, JournalState::Absent, Entries::new(alloc)));
    };
    if bytes.len() < HEADER_LEN {
        return Ok(JournalIndex::headless(alloc, JournalState::Short, Entries::new(alloc)));
    }
    if is_live(bytes, page_size) {
        return read_live(alloc, bytes, page_size);
    }
    if is_zeroed(bytes) {
        return read_zeroed(alloc, bytes, page_size);
    }
    Ok(JournalIndex::headless(alloc, JournalState::Alien, Entries::new(alloc)))
}

/// Reads a live journal.
#[tactic(auto, unfolding(crate::specs::Journal::live_journal))]
fn read_live(alloc: Global, bytes: &[u8], page_size: u32) -> Result<JournalIndex, AllocError>
    requires small { length bytes.now < 2 ^ 32 }
    requires page_size { page_size ≤ 65536 }
    requires held { 28 ≤ length bytes.now }
    requires live { IsTrue (is_live bytes.now page_size) }
    ensures { IfOk result (λ index. index ≡ live_journal bytes.now page_size) }
{
    let sector = be32(bytes, 20);
    let (segments, entries) = read_segments(alloc, bytes, page_size, sector)?;
    Ok(JournalIndex {
        state: JournalState::Live,
        initial_size: be32(bytes, 16),
        sector,
        segments,
        entries,
    })
}

/// Reads a zeroed journal: all whole records behind one sector.
#[tactic(auto, unfolding(crate::specs::Entries::unchecked))]
fn read_zeroed(alloc: Global, bytes: &[u8], page_size: u32) -> Result<JournalIndex, AllocError>
    requires small { length bytes.now < 2 ^ 32 }
    requires page_size { page_size ≤ 65536 }
    ensures { IfOk result (λ index. index ≡ headless JournalState.Zeroed (unchecked bytes.now page_size)) }
{
    let start = DEFAULT_SECTOR as usize;
    let count = whole_records(bytes, page_size, start);
    let entries = read_unchecked(alloc, bytes, page_size, start, count)?;
    Ok(JournalIndex::headless(alloc, JournalState::Zeroed, entries))
}

impl JournalIndex {
    /// A journal without a header that counts.
    fn headless(alloc: Global, state: JournalState, entries: Entries) -> Self
        ensures { result ≡ headless state entries }
    {
        JournalIndex {
            state,
            initial_size: 0,
            sector: DEFAULT_SECTOR,
            segments: Vec::new(alloc),
            entries,
        }
    }

    /// What kind of file the journal is.
    pub fn state(&self) -> JournalState
        ensures { result ≡ self.now.state }
    {
        self.state
    }

    /// The size of the database in pages before the transaction, as the first header says it; 0 where the journal isn't
    /// Live.
    pub fn initial_size(&self) -> u32
        ensures { result ≡ self.now.initial_size }
    {
        self.initial_size
    }

    /// The sector size in bytes, as the first header says it; 512 where the journal isn't Live.
    pub fn sector(&self) -> u32
        ensures { result ≡ self.now.sector }
    {
        self.sector
    }

    /// How many segments there are: none where the journal isn't Live.
    pub fn segments(&self) -> u32
        ensures { result ≡ length self.now.segments }
    {
        self.segments.len() as u32
    }

    /// The segment of this number, from 0, in the order of the file.
    pub fn segment(&self, i: u32) -> Segment
        requires { i < length self.now.segments }
        ensures { slice_get self.now.segments i ≡ Some result }
    {
        self.segments[i as usize]
    }

    /// How many records there are: none where the journal is neither Live nor Zeroed.
    pub fn entries(&self) -> u32
        ensures { result ≡ length self.now.entries }
    {
        self.entries.len()
    }

    /// The record of this number, from 0, in the order of the file.
    pub fn entry(&self, i: u32) -> Entry
        requires { i < length self.now.entries }
        ensures { slice_get self.now.entries i ≡ Some result }
    {
        self.entries.get(i)
    }

    /// How many records are Good. In a live journal they are its first.
    pub fn good(&self) -> u32
        ensures { result ≡ good_count self.now.entries }
    {
        self.entries.good()
    }
}

/// Each record of a journal lies in its file, with its page and the checksum behind it. This is a law of the definitions;
/// the function has no code.
#[tactic(auto, using(crate::proofs::Held::journal_held))]
pub fn records_lie_in_file()
    ensures { (bytes : List ℕ) (page_size : ℕ) → All (λ entry. entry.offset + page_size + 4 ≤ length bytes) (journal_of (Some bytes) page_size).entries }
{}
