//! How the groups of confirmed records are found.
ghost use Rattle.std.specs.Prelude.{◌≡◌, ℕ, ◌^◌, ◌<◌, ◌≤◌, [], length, map, IfOk, IsTrue};
ghost use Rattle.sx_bytes.specs.PageSize.{IsPageSize};
ghost use Rattle.sx_generations.specs.Confirmed.{groups_of, nonce_of, has_no_header, confirmed_of, AreRecordsOf, IsJournal};

use crate::groups::{Confirmed, Group};
use crate::neighbours::streaks;
use crate::nonces::{Nonces, nonces_of};
use std::alloc::{AllocError, Global};
use sx_journal::{JournalIndex, JournalState};

/// The length in bytes of a record less its page: the page number and the checksum.
const RECORD_FRAME_LEN: u64 = 8;

/// The groups of records that confirm one another in a journal with these bytes, whose index was read from them; an absent
/// journal has no bytes. Only a zeroed journal has any.
///
/// Each record is read once, and of its page only the bytes that the checksum samples. It takes 4 bytes of memory a record
/// for a time, and 12 a group. It answers `AllocError` where memory runs out, and nothing else.
pub fn confirmed(
    alloc: Global,
    bytes: &[u8],
    journal: &JournalIndex,
) -> Result<Confirmed, AllocError>
    requires { IsJournal bytes.now journal.now }
    ensures { IfOk result (λ confirmed. (page_size : ℕ) → AreRecordsOf page_size bytes.now journal.now → confirmed ≡ confirmed_of page_size bytes.now) }
{
    if !has_no_header(journal.state()) {
        return Ok(nothing(alloc));
    }
    if journal.entries() < 2 {
        return Ok(nothing(alloc));
    }
    confirmed_by(alloc, bytes, page_size_of(bytes, journal), journal)
}

/// The page size of a journal with two records at least: they stand a page and 8 bytes apart.
fn page_size_of(bytes: &[u8], journal: &JournalIndex) -> u32
    requires journal { IsJournal bytes.now journal.now }
    requires zeroed { IsTrue (has_no_header journal.now.state) }
    requires two { 2 ≤ length journal.now.entries }
    ensures are { AreRecordsOf result bytes.now journal.now }
    ensures size { (page_size : ℕ) → AreRecordsOf page_size bytes.now journal.now → result ≡ page_size }
{
    let first = journal.entry(0).offset;
    let second = journal.entry(1).offset;
    (second - first - RECORD_FRAME_LEN) as u32
}

/// The groups of a zeroed journal, of pages of that size.
fn confirmed_by(
    alloc: Global,
    bytes: &[u8],
    page_size: u32,
    journal: &JournalIndex,
) -> Result<Confirmed, AllocError>
    requires { AreRecordsOf page_size bytes.now journal.now }
    ensures { IfOk result (λ confirmed. confirmed ≡ groups_of (map (nonce_of page_size bytes.now) journal.now.entries)) }
{
    let nonces = nonces_of(alloc, bytes, page_size, journal)?;
    groups_of(alloc, &Nonces { items: &nonces })
}

/// The groups of records that give these nonces.
fn groups_of(alloc: Global, nonces: &Nonces<'_>) -> Result<Confirmed, AllocError>
    ensures { IfOk result (λ confirmed. confirmed ≡ groups_of nonces.now.items.now) }
{
    let streaks = streaks(alloc, nonces)?;
    let mut groups = Vec::with_capacity(alloc, streaks.len())?;
    for streak in streaks.iter() {
        groups.push(Group {
            first: streak.first,
            entries: streak.len,
            nonce: nonces.items[streak.first as usize],
        })?;
    }
    Ok(Confirmed { groups })
}

/// Whether the header of the journal is overwritten with zeros.
fn has_no_header(state: JournalState) -> bool
    ensures { result ≡ has_no_header state }
{
    matches!(state, JournalState::Zeroed)
}

/// No groups.
fn nothing(alloc: Global) -> Confirmed
    ensures { result ≡ [] }
{
    Confirmed {
        groups: Vec::new(alloc),
    }
}
