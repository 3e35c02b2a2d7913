//! Journals of pages of 512 bytes, of which the bytes 112 and 312 are sampled. What is expected was computed by a
//! reader of another language.
use super::*;
use std::alloc::{AllocError, Global};
use std::process::Abort;
use std::test::Fail;
use sx_base::Class;
use sx_bytes::can_be_page_size;

/// Appends a header of the initial size 2.
fn push_header(
    journal: &mut Vec<u8>,
    count: u32,
    nonce: u32,
    sector: u32,
    page_size: u32,
) -> Result<(), AllocError> {
    journal.extend_from_slice(&[0xd9, 0xd5, 0x05, 0xf9, 0x20, 0xa1, 0x63, 0xd7])?;
    for word in [count, nonce, 2, sector, page_size] {
        journal.extend_from_slice(&word.to_be_bytes())?;
    }
    Ok(())
}

/// Appends a record whose page is zero but for its two sampled bytes.
fn push_record(journal: &mut Vec<u8>, page: u32, sampled: u8, sum: u32) -> Result<(), AllocError> {
    journal.extend_from_slice(&page.to_be_bytes())?;
    journal.extend_from_slice(&[0; 112])?;
    journal.push(sampled)?;
    journal.extend_from_slice(&[0; 199])?;
    journal.push(sampled)?;
    journal.extend_from_slice(&[0; 199])?;
    journal.extend_from_slice(&sum.to_be_bytes())?;
    Ok(())
}

/// A journal of two segments, the first with one record and the second with these two.
fn two_segments(
    alloc: Global,
    second: (u32, u32),
    third: (u32, u32),
) -> Result<Vec<u8>, AllocError> {
    let mut journal = Vec::new(alloc);
    push_header(&mut journal, 1, 0x11, 512, 512)?;
    journal.resize(512, 0)?;
    push_record(&mut journal, 2, 0, 0x11)?;
    journal.resize(1536, 0)?;
    push_header(&mut journal, 2, 0x22, 512, 512)?;
    journal.resize(2048, 0)?;
    push_record(&mut journal, second.0, 0, second.1)?;
    push_record(&mut journal, third.0, 0, third.1)?;
    Ok(journal)
}

fn read(alloc: Global, journal: &[u8]) -> Result<JournalIndex, Fail> {
    if !can_be_page_size(512) || journal.len() > 100_000 {
        return Err(Fail::from("the journal of a test is small"));
    }
    Ok(read_journal(alloc, Some(journal), 512)?)
}

fn read_front(alloc: Global, journal: &[u8], len: usize) -> Result<JournalIndex, Fail> {
    match journal.get(..len) {
        Some(front) => read(alloc, front),
        None => Err(Fail::from("the journal is shorter")),
    }
}

fn segment(offset: u64, count: u32, nonce: u32, first: u32, entries: u32) -> Segment {
    Segment {
        offset,
        count,
        nonce,
        first,
        entries,
    }
}

fn entry(page: u32, offset: u64, sum: u32, class: Class) -> Entry {
    Entry {
        page,
        offset,
        sum,
        class,
    }
}

fn assert_parts(rt: &impl Abort, index: &JournalIndex, segments: &[Segment], entries: &[Entry]) {
    assert_eq!(rt; index.segments() as usize, segments.len());
    for (i, segment) in segments.iter().enumerate() {
        assert_eq!(rt; index.segment(i as u32), *segment);
    }
    assert_eq!(rt; index.entries() as usize, entries.len());
    for (i, entry) in entries.iter().enumerate() {
        assert_eq!(rt; index.entry(i as u32), *entry);
    }
}

#[test]
fn segments_and_records(rt: HostRuntime) -> Result<(), Fail> {
    let alloc = rt.alloc();
    let live = read(alloc, &two_segments(alloc, (1, 0x22), (2, 0))?)?;
    let segments = [segment(0, 1, 0x11, 0, 1), segment(1536, 2, 0x22, 1, 2)];
    assert_eq!(rt; live.state(), JournalState::Live);
    assert_eq!(rt;
        (live.initial_size(), live.sector(), live.good()),
        (2, 512, 2)
    );
    let entries = [
        entry(2, 516, 0x11, Class::Good),
        entry(1, 2052, 0x22, Class::Good),
        entry(2, 2572, 0, Class::Bad),
    ];
    assert_parts(&rt, &live, &segments, &entries);

    let exchanged = read(alloc, &two_segments(alloc, (2, 0), (1, 0x22))?)?;
    assert_eq!(rt;
        (exchanged.state(), exchanged.good()),
        (JournalState::Live, 1)
    );
    let entries = [
        entry(2, 516, 0x11, Class::Good),
        entry(2, 2052, 0, Class::Bad),
        entry(1, 2572, 0x22, Class::After),
    ];
    assert_parts(&rt, &exchanged, &segments, &entries);
    Ok(())
}

#[test]
fn zeroed_journals(rt: HostRuntime) -> Result<(), Fail> {
    let alloc = rt.alloc();
    let mut journal = vec![in alloc; 0u8; 512]?;
    push_record(&mut journal, 2, 0, 0x11)?;
    let first = entry(2, 516, 0x11, Class::Unchecked);
    let one = read(alloc, &journal)?;
    assert_eq!(rt; one.state(), JournalState::Zeroed);
    assert_eq!(rt; (one.initial_size(), one.sector(), one.good()), (0, 512, 0));
    assert_parts(&rt, &one, &[], &[first]);

    push_record(&mut journal, 1, 0, 0x11)?;
    journal.push(0)?;
    let two = read(alloc, &journal)?;
    assert_parts(
        &rt,
        &two,
        &[],
        &[first, entry(1, 1036, 0x11, Class::Unchecked)],
    );
    Ok(())
}

#[test]
fn each_cut(rt: HostRuntime) -> Result<(), Fail> {
    let alloc = rt.alloc();
    let journal = two_segments(alloc, (1, 0x22), (2, 0))?;
    for len in 0..3089 {
        let index = read_front(alloc, &journal, len)?;
        let expected = match len {
            0..=27 => (JournalState::Short, 0, 0, 0),
            28..=1031 => (JournalState::Live, 1, 0, 0),
            1032..=1563 => (JournalState::Live, 1, 1, 1),
            1564..=2567 => (JournalState::Live, 2, 1, 1),
            2568..=3087 => (JournalState::Live, 2, 2, 2),
            _ => (JournalState::Live, 2, 3, 2),
        };
        let found = (
            index.state(),
            index.segments(),
            index.entries(),
            index.good(),
        );
        assert_eq!(rt; found, expected, "of {len} bytes");
    }
    Ok(())
}

#[test]
fn states_of_headers(rt: HostRuntime) -> Result<(), Fail> {
    let alloc = rt.alloc();
    assert!(rt; can_be_page_size(512));
    let absent = read_journal(alloc, None, 512)?;
    assert_eq!(rt;
        (absent.state(), absent.entries()),
        (JournalState::Absent, 0)
    );
    for (sector, page_size, state) in [
        (0, 512, JournalState::Alien),
        (31, 512, JournalState::Alien),
        (33, 512, JournalState::Alien),
        (32, 512, JournalState::Live),
        (512, 512, JournalState::Live),
        (65536, 512, JournalState::Live),
        (131072, 512, JournalState::Alien),
        (512, 1024, JournalState::Alien),
        (512, 0, JournalState::Alien),
    ] {
        let mut journal = Vec::new(alloc);
        push_header(&mut journal, 0, 0, sector, page_size)?;
        let index = read(alloc, &journal)?;
        let live = state == JournalState::Live;
        assert_eq!(rt;
            index.state(),
            state,
            "sector {sector} page size {page_size}"
        );
        assert_eq!(rt; index.sector(), if live { sector } else { 512 });
        assert_eq!(rt; index.segments(), if live { 1 } else { 0 });
    }
    Ok(())
}

#[test]
fn counts_of_records(rt: HostRuntime) -> Result<(), Fail> {
    let alloc = rt.alloc();
    for count in [0, u32::MAX, 3] {
        let mut journal = Vec::new(alloc);
        push_header(&mut journal, count, 5, 512, 512)?;
        journal.resize(512, 0)?;
        push_record(&mut journal, 0, 0, 5)?;
        push_record(&mut journal, 4, 0, 5)?;
        journal.resize(2048, 0)?;
        let index = read(alloc, &journal)?;
        let entries = [
            entry(0, 516, 5, Class::Bad),
            entry(4, 1036, 5, Class::After),
        ];
        assert_parts(&rt, &index, &[segment(0, count, 5, 0, 2)], &entries);
    }
    Ok(())
}

#[test]
fn following_headers(rt: HostRuntime) -> Result<(), Fail> {
    let alloc = rt.alloc();
    let mut journal = Vec::new(alloc);
    push_header(&mut journal, 1, 5, 32, 512)?;
    journal.resize(32, 0)?;
    push_record(&mut journal, 7, 0, 5)?;
    journal.resize(576, 0)?;
    push_header(&mut journal, 3, u32::MAX, 0, 0)?;
    let segments = [segment(0, 1, 5, 0, 1), segment(576, 3, u32::MAX, 1, 0)];
    let first = entry(7, 36, 5, Class::Good);
    assert_parts(
        &rt,
        &read_front(alloc, &journal, 603)?,
        &segments[..1],
        &[first],
    );
    assert_parts(&rt, &read_front(alloc, &journal, 604)?, &segments, &[first]);

    journal.resize(608, 0)?;
    push_record(&mut journal, 8, 255, 509)?;
    push_record(&mut journal, 9, 255, 510)?;
    push_record(&mut journal, 10, 0, u32::MAX)?;
    let segments = [segment(0, 1, 5, 0, 1), segment(576, 3, u32::MAX, 1, 3)];
    let entries = [
        first,
        entry(8, 612, 509, Class::Good),
        entry(9, 1132, 510, Class::Bad),
        entry(10, 1652, u32::MAX, Class::After),
    ];
    assert_parts(&rt, &read(alloc, &journal)?, &segments, &entries);
    Ok(())
}
