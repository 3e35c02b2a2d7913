//! The records and segments of a journal, read in the order of the file.
ghost use Rattle.std.specs.Prelude.{◌≡◌, ◌+◌, ◌^◌, ◌<◌, ◌≤◌, [], ◌++◌, length, IfOk, OnOk};
ghost use Rattle.sx_journal.specs.Segments.{record_len, whole_records, segments_of};
ghost use Rattle.sx_journal.specs.Entries.{records_from, records_of, entries_of};
ghost use Rattle.sx_journal.specs.Grading.{with_record, with_records};
ghost use Rattle.sx_base.specs.declared.moment.Class.TheVariants.{Unchecked};

use crate::entries::Entries;
use crate::entry::{Entry, record_fits};
use crate::segment::{Segment, following, record_len};
use std::alloc::{AllocError, Global};
use sx_base::Class;

/// Reads the record at `place` and gives it its class: Good or Bad where each before it is Good, else After.
#[tactic(auto, unfolding(crate::specs::Grading::with_record))]
fn read_record(
    bytes: &[u8],
    page_size: u32,
    place: usize,
    nonce: u32,
    entries: &mut Entries,
) -> Result<(), AllocError>
    requires page_size { page_size ≤ 65536 }
    requires held { place + record_len page_size ≤ length bytes.now }
    requires room { length entries.old + 1 < 2 ^ 32 }
    ensures { OnOk result (entries.new ≡ with_record bytes.now page_size entries.old (record { place = place; nonce = nonce })) }
{
    let class = if !entries.all_good() {
        Class::After
    } else if record_fits(bytes, page_size, place, nonce) {
        Class::Good
    } else {
        Class::Bad
    };
    entries.push(Entry::read(bytes, page_size, place, class))
}

/// Reads so many records of a segment, one after the other from `start` on.
fn read_records(
    bytes: &[u8],
    page_size: u32,
    start: usize,
    nonce: u32,
    count: u32,
    entries: &mut Entries,
) -> Result<(), AllocError>
    requires small { length bytes.now < 2 ^ 32 }
    requires page_size { page_size ≤ 65536 }
    requires there { count ≤ whole_records bytes.now page_size start }
    requires room { length entries.old + count < 2 ^ 32 }
    ensures { OnOk result (entries.new ≡ with_records bytes.now page_size entries.old (records_from page_size start nonce count)) }
{
    for i in 0..count {
        read_record(
            bytes,
            page_size,
            start + i as usize * record_len(page_size),
            nonce,
            entries,
        )?;
    }
    Ok(())
}

/// Reads the records of a zeroed journal, which nothing can test.
pub fn read_unchecked(
    alloc: Global,
    bytes: &[u8],
    page_size: u32,
    start: usize,
    count: u32,
) -> Result<Entries, AllocError>
    requires small { length bytes.now < 2 ^ 32 }
    requires page_size { page_size ≤ 65536 }
    requires there { count ≤ whole_records bytes.now page_size start }
    ensures { IfOk result (λ entries. entries ≡ entries_of bytes.now page_size Unchecked (records_from page_size start 0 count)) }
{
    let mut entries = Entries::new(alloc);
    for i in 0..count {
        let place = start + i as usize * record_len(page_size);
        entries.push(Entry::read(bytes, page_size, place, Class::Unchecked))?;
    }
    Ok(entries)
}

/// Reads the segments of a live journal with all their records, from its first header on.
pub fn read_segments(
    alloc: Global,
    bytes: &[u8],
    page_size: u32,
    sector: u32,
) -> Result<(Vec<Segment>, Entries), AllocError>
    requires small { length bytes.now < 2 ^ 32 }
    requires page_size { page_size ≤ 65536 }
    requires sector { 0 < sector }
    requires held { 28 ≤ length bytes.now }
    ensures segments { IfOk result (λ read. read.0.items ≡ segments_of bytes.now page_size sector) }
    ensures few { IfOk result (λ read. length read.0.items < 2 ^ 32) }
    ensures entries { IfOk result (λ read. read.1 ≡ with_records bytes.now page_size [] (records_of page_size sector read.0.items)) }
{
    let mut segments = Vec::new(alloc);
    let mut entries = Entries::new(alloc);
    let mut next = Some(0);
    while let Some(header) = next {
        let segment = Segment::read(bytes, page_size, sector, header, entries.len());
        let start = header + sector as usize;
        read_records(
            bytes,
            page_size,
            start,
            segment.nonce,
            segment.entries,
            &mut entries,
        )?;
        segments.push(segment)?;
        next = following(bytes, page_size, sector, header);
    }
    Ok((segments, entries))
}
