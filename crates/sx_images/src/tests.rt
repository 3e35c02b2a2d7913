//! The images and places of a small database, its log and its journal.
use super::*;
use std::alloc::{AllocError, Global};
use std::test::Fail;
use sx_base::{Class, Part, Place};
use sx_bytes::can_be_page_size;
use sx_journal::read_journal;
use sx_wal::read_wal;

/// A log of pages of 512 bytes with one whole frame, of page 7, and some bytes behind it.
fn log(alloc: Global) -> Result<Vec<u8>, AllocError> {
    let mut log = Vec::new(alloc);
    for word in [0x377f_0683u32, 3007000, 512, 0, 1, 2, 0, 0, 7] {
        log.extend_from_slice(&word.to_be_bytes())?;
    }
    log.resize(570, 0)?;
    Ok(log)
}

/// A journal of pages of 512 bytes with two segments: one record of page 3, and none; and some bytes behind it.
fn journal(alloc: Global) -> Result<Vec<u8>, AllocError> {
    let mut journal = Vec::new(alloc);
    for count in [1u32, 0] {
        journal.extend_from_slice(&[0xd9, 0xd5, 0x05, 0xf9, 0x20, 0xa1, 0x63, 0xd7])?;
        for word in [count, 0, 2, 512, 512] {
            journal.extend_from_slice(&word.to_be_bytes())?;
        }
        journal.resize(if count == 1 { 512 } else { 2053 }, 0)?;
        if count == 1 {
            journal.extend_from_slice(&3u32.to_be_bytes())?;
            journal.resize(1536, 0)?;
        }
    }
    Ok(journal)
}

/// The table of a database of 1030 bytes with these companions.
fn table(
    alloc: Global,
    log: Option<&[u8]>,
    journal: Option<&[u8]>,
) -> Result<Option<ImageTable>, AllocError> {
    let lengths = Lengths {
        database: 1030,
        wal: log.map(|bytes| bytes.len() as u64),
        journal: journal.map(|bytes| bytes.len() as u64),
    };
    if !can_be_page_size(512)
        || lengths.of(Part::Wal) > 10_000
        || lengths.of(Part::Journal) > 10_000
    {
        return Ok(None);
    }
    let wal = read_wal(alloc, log, 512)?;
    let rollback = read_journal(alloc, journal, 512)?;
    Ok(Some(images(alloc, 512, lengths, &wal, &rollback)?))
}

fn place(part: Part, offset: u64) -> Place {
    Place { part, offset }
}

#[test]
fn images_and_places_of_three_files(rt: HostRuntime) -> Result<(), Fail> {
    let alloc = rt.alloc();
    let (log, journal) = (log(alloc)?, journal(alloc)?);
    let table = table(alloc, Some(&log), Some(&journal))?.ok_or("the files are small")?;
    assert_eq!(rt; table.count(), 4);
    for (i, part, offset, page, class) in [
        (0, Part::Database, 0, 1, Class::File),
        (1, Part::Database, 512, 2, Class::File),
        (2, Part::Wal, 56, 7, Class::Foreign),
        (3, Part::Journal, 516, 3, Class::Good),
    ] {
        assert!(rt; i < table.count());
        assert_eq!(rt;
            table.image(i),
            Image {
                part,
                offset,
                page,
                class
            }
        );
        assert_eq!(rt; table.find(place(part, offset)), Some(i));
        assert_eq!(rt; table.find(place(part, offset + 1)), None);
    }
    for (part, offset, physical) in [
        (Part::Database, 1023, Some(Physical::Image(1, 511))),
        (Part::Database, 1024, Some(Physical::Loose)),
        (Part::Database, 1030, None),
        (Part::Database, u64::MAX, None),
        (Part::Wal, 31, Some(Physical::WalHeader(31))),
        (Part::Wal, 32, Some(Physical::FrameHead(0, 0))),
        (Part::Wal, 567, Some(Physical::Image(2, 511))),
        (Part::Wal, 569, Some(Physical::Loose)),
        (Part::Journal, 27, Some(Physical::JournalHead(0, 27))),
        (Part::Journal, 28, Some(Physical::Pad)),
        (Part::Journal, 515, Some(Physical::EntryHead(0, 3))),
        (Part::Journal, 1028, Some(Physical::EntrySum(0, 0))),
        (Part::Journal, 1032, Some(Physical::Pad)),
        (Part::Journal, 1536, Some(Physical::JournalHead(1, 0))),
        (Part::Journal, 2047, Some(Physical::Pad)),
        (Part::Journal, 2048, Some(Physical::Loose)),
        (Part::Journal, 2053, None),
    ] {
        assert_eq!(rt;
            table.place_of(place(part, offset)),
            physical,
            "{part:?} {offset}"
        );
    }
    Ok(())
}

#[test]
fn a_database_alone_and_a_zeroed_journal(rt: HostRuntime) -> Result<(), Fail> {
    let alloc = rt.alloc();
    let alone = table(alloc, None, None)?.ok_or("no files are small")?;
    assert_eq!(rt; alone.count(), 2);
    assert_eq!(rt; alone.place_of(place(Part::Wal, 0)), None);
    let zeroed = vec![in alloc; 0u8; 1040]?;
    let table = table(alloc, Some(&zeroed[..31]), Some(&zeroed))?.ok_or("the files are small")?;
    assert_eq!(rt; table.count(), 3);
    for (part, offset, physical) in [
        (Part::Wal, 30, Some(Physical::Loose)),
        (Part::Journal, 0, Some(Physical::Pad)),
        (Part::Journal, 511, Some(Physical::Pad)),
        (Part::Journal, 512, Some(Physical::EntryHead(0, 0))),
        (Part::Journal, 516, Some(Physical::Image(2, 0))),
        (Part::Journal, 1031, Some(Physical::EntrySum(0, 3))),
        (Part::Journal, 1032, Some(Physical::Loose)),
    ] {
        assert_eq!(rt;
            table.place_of(place(part, offset)),
            physical,
            "{part:?} {offset}"
        );
    }
    Ok(())
}
