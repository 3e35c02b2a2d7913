//! The images of files that were read.
ghost use Rattle.std.specs.Prelude.{◌≡◌, ℕ, ◌+◌, ◌^◌, ◌<◌, ◌++◌, length, map, take, IfOk, OnOk};
ghost use Rattle.sx_bytes.specs.PageSize.{IsPageSize};
ghost use Rattle.sx_images.specs.Images.{frame_image, record_image, stretches_of, stretch_of, head_len_of, table_of};
ghost use Rattle.sx_images.specs.Read.{AreSmall, IsLogOf, IsJournalOf};

use crate::image::Image;
use crate::lengths::Lengths;
use crate::stretch::Stretch;
use crate::table::ImageTable;
use std::alloc::{AllocError, Global};
use sx_base::Part;
use sx_journal::{JournalIndex, JournalState};
use sx_wal::WalIndex;

/// The length of a header of a live journal in bytes.
const JOURNAL_HEADER: u32 = 28;

/// The page images of a database file, its write-ahead log and its rollback journal, of these lengths in bytes.
///
/// The log and the journal were read from files of these lengths, with this page size; each file has fewer than 2^32 bytes.
/// The cost is linear in the frames, the records and the segments. It answers `AllocError` where memory runs out, and
/// nothing else.
#[tactic(auto, unfolding(crate::specs::Images::table_of))]
pub fn images(
    alloc: Global,
    page_size: u32,
    lengths: Lengths,
    wal: &WalIndex,
    journal: &JournalIndex,
) -> Result<ImageTable, AllocError>
    requires size { IsPageSize page_size }
    requires small { AreSmall lengths }
    requires log { IsLogOf page_size lengths.wal wal.now }
    requires journal { IsJournalOf page_size lengths.journal journal.now }
    ensures { IfOk result (λ table. table ≡ table_of page_size lengths wal.now journal.now) }
{
    let stored = stored_images(alloc, wal, journal)?;
    let stretches = stretches(alloc, journal)?;
    Ok(ImageTable {
        page_size,
        lengths,
        frames: wal.slots(),
        stored,
        head_len: head_len(journal),
        sector: journal.sector(),
        stretches,
    })
}

/// The images of the log's frames, then those of the journal's records.
fn stored_images(
    alloc: Global,
    wal: &WalIndex,
    journal: &JournalIndex,
) -> Result<Vec<Image>, AllocError>
    ensures { IfOk result (λ stored. stored.items ≡ map frame_image wal.now.slots ++ map record_image journal.now.entries) }
{
    let mut stored = frame_images(alloc, wal)?;
    add_record_images(&mut stored, journal)?;
    Ok(stored)
}

/// The images of the log's frames.
fn frame_images(alloc: Global, wal: &WalIndex) -> Result<Vec<Image>, AllocError>
    ensures { IfOk result (λ stored. stored.items ≡ map frame_image wal.now.slots) }
{
    let mut stored = Vec::new(alloc);
    for i in 0..wal.slots() {
        let slot = wal.slot(i);
        stored.push(Image {
            part: Part::Wal,
            offset: slot.offset,
            page: slot.page,
            class: slot.class,
        })?;
    }
    Ok(stored)
}

/// The images of the journal's records behind others.
fn add_record_images(stored: &mut Vec<Image>, journal: &JournalIndex) -> Result<(), AllocError>
    ensures { OnOk result (stored.new.items ≡ stored.old.items ++ map record_image journal.now.entries) }
{
    for i in 0..journal.entries() {
        let entry = journal.entry(i);
        stored.push(Image {
            part: Part::Journal,
            offset: entry.offset,
            page: entry.page,
            class: entry.class,
        })?;
    }
    Ok(())
}

/// The length in bytes of a header of the journal.
fn head_len(journal: &JournalIndex) -> u32
    ensures { result ≡ head_len_of journal.now.state }
{
    match journal.state() {
        JournalState::Live => JOURNAL_HEADER,
        _ => 0,
    }
}

/// The runs of records of the journal.
fn stretches(alloc: Global, journal: &JournalIndex) -> Result<Vec<Stretch>, AllocError>
    ensures runs { IfOk result (λ stretches. stretches.items ≡ stretches_of journal.now journal.now.state) }
    ensures few { IfOk result (λ stretches. length stretches.items < 2 ^ 32) }
{
    match journal.state() {
        JournalState::Live => segment_stretches(alloc, journal),
        JournalState::Zeroed => {
            let mut stretches = Vec::new(alloc);
            stretches.push(Stretch {
                head: 0,
                first: 0,
                entries: journal.entries(),
            })?;
            Ok(stretches)
        }
        _ => Ok(Vec::new(alloc)),
    }
}

/// The runs of records of a live journal.
fn segment_stretches(alloc: Global, journal: &JournalIndex) -> Result<Vec<Stretch>, AllocError>
    ensures runs { IfOk result (λ stretches. stretches.items ≡ map stretch_of journal.now.segments) }
    ensures few { IfOk result (λ stretches. length stretches.items < 2 ^ 32) }
{
    let mut stretches = Vec::new(alloc);
    for i in 0..journal.segments() {
        let segment = journal.segment(i);
        stretches.push(Stretch {
            head: segment.offset,
            first: segment.first,
            entries: segment.entries,
        })?;
    }
    Ok(stretches)
}
