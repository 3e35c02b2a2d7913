//! The segments of a live journal.
ghost use Rattle.std.specs.Prelude.{◌≡◌, ℕ, ◌+◌, ◌^◌, ◌<◌, ◌≤◌, ◌↔◌, List, length};
ghost use Rattle.sx_journal.specs.Segments.{record_len, whole_records, is_counted, records_behind, following, AreSegments, segments_of};

use crate::header::has_header;
use sx_bytes::be32;

/// A segment of a live journal: a header, padded to a sector, and the records behind it.
#[derive(Clone, Copy, Debug, PartialEq, Eq)]
pub struct Segment {
    /// Where its header begins, in bytes from the start of the file.
    pub offset: u64,
    /// The number of records as its header says it. 0 and 4294967295 stand for all up to the end of the file.
    pub count: u32,
    /// The number that the checksums of its records begin with.
    pub nonce: u32,
    /// How many records stand in the segments before it, also where it has none itself.
    pub first: u32,
    /// How many whole records it has.
    pub entries: u32,
}

/// The length of a record in bytes: its page number, its page and its checksum.
pub fn record_len(page_size: u32) -> usize
    requires { page_size ≤ 65536 }
    ensures { result ≡ record_len page_size }
{
    page_size as usize + 8
}

/// How many whole records stand from `start` to the end of the file.
#[tactic(auto, unfolding(crate::specs::Segments::whole_records))]
pub fn whole_records(bytes: &[u8], page_size: u32, start: usize) -> u32
    requires small { length bytes.now < 2 ^ 32 }
    requires page_size { page_size ≤ 65536 }
    ensures { result ≡ whole_records bytes.now page_size start }
{
    (bytes.len().saturating_sub(start) / record_len(page_size)) as u32
}

/// Whether the count of a header is a number of records.
#[tactic(auto, unfolding(crate::specs::Segments::is_counted))]
fn is_counted(count: u32) -> bool
    ensures { result ≡ is_counted count }
{
    count != 0 && count != u32::MAX
}

/// How many records are behind the header: as many as it counts, but no more than are there.
#[tactic(auto, unfolding(crate::specs::Segments::records_behind))]
fn records_behind(bytes: &[u8], page_size: u32, sector: u32, header: usize) -> u32
    requires small { length bytes.now < 2 ^ 32 }
    requires page_size { page_size ≤ 65536 }
    requires held { header + 28 ≤ length bytes.now }
    ensures { result ≡ records_behind bytes.now page_size sector header }
{
    let there = whole_records(bytes, page_size, header + sector as usize);
    let count = be32(bytes, header + 8);
    if is_counted(count) {
        count.min(there)
    } else {
        there
    }
}

/// Where the header after this one stands, if there is one.
///
/// It is looked for only where this one counts its records and all of them are there: at the first multiple of the
/// sector size at or after their end.
#[tactic(auto, unfolding(crate::specs::Segments::following))]
pub fn following(bytes: &[u8], page_size: u32, sector: u32, header: usize) -> Option<usize>
    requires small { length bytes.now < 2 ^ 32 }
    requires page_size { page_size ≤ 65536 }
    requires sector { 0 < sector }
    requires held { header + 28 ≤ length bytes.now }
    ensures { result ≡ following bytes.now page_size sector header }
{
    let count = be32(bytes, header + 8);
    let start = header + sector as usize;
    if !is_counted(count) || count > whole_records(bytes, page_size, start) {
        return None;
    }
    let end = start + count as usize * record_len(page_size);
    let next = end.next_multiple_of(sector as usize);
    if has_header(bytes, next) {
        Some(next)
    } else {
        None
    }
}

impl Segment {
    ghost use Rattle.sx_journal.specs.Segments.{segment_at};

    /// Reads the segment with that header, where so many records stand in the segments before it.
    #[tactic(auto, unfolding(crate::specs::Segments::segment_at))]
    pub fn read(bytes: &[u8], page_size: u32, sector: u32, header: usize, first: u32) -> Self
        requires small { length bytes.now < 2 ^ 32 }
        requires page_size { page_size ≤ 65536 }
        requires held { header + 28 ≤ length bytes.now }
        ensures { result ≡ segment_at bytes.now page_size sector header first }
    {
        Segment {
            offset: header as u64,
            count: be32(bytes, header + 8),
            nonce: be32(bytes, header + 12),
            first,
            entries: records_behind(bytes, page_size, sector, header),
        }
    }
}

/// The readings of a live journal determine its segments: exactly one list begins with the segment at 0 and goes on from
/// each to the one that follows it. This is a law of the definitions; the function has no code.
#[tactic(auto, using(crate::proofs::Readings::readings))]
pub fn segments_by_readings()
    ensures { (bytes : List ℕ) (page_size sector : ℕ) (segments : List Segment) → 0 < sector → 28 ≤ length bytes → AreSegments bytes page_size sector 0 (Some 0) segments ↔ (segments ≡ segments_of bytes page_size sector) }
{}
