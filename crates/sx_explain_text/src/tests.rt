//! The text of `explain` over bytes of each kind.
use super::*;
use std::alloc::{AllocError, Global};
use std::test::Fail;
use sx_base::{Label, Moment, Part, Place};
use sx_bytes::can_be_page_size;
use sx_edge::Tray;
use sx_images::{ImageTable, Lengths, images};
use sx_journal::read_journal;
use sx_lines::write_lines;
use sx_wal::read_wal;

/// A log of pages of 512 bytes with one frame, of page 7, which isn't valid.
fn log(alloc: Global) -> Result<Vec<u8>, AllocError> {
    let mut log = Vec::new(alloc);
    for word in [0x377f_0683u32, 3007000, 512, 0, 1, 2, 0, 0, 7] {
        log.extend_from_slice(&word.to_be_bytes())?;
    }
    log.resize(570, 0)?;
    Ok(log)
}

/// A journal of pages of 512 bytes with one record, of page 3.
fn journal(alloc: Global) -> Result<Vec<u8>, AllocError> {
    let mut journal = Vec::new(alloc);
    journal.extend_from_slice(&[0xd9, 0xd5, 0x05, 0xf9, 0x20, 0xa1, 0x63, 0xd7])?;
    for word in [0u32, 0, 2, 512, 512] {
        journal.extend_from_slice(&word.to_be_bytes())?;
    }
    journal.resize(512, 0)?;
    journal.extend_from_slice(&3u32.to_be_bytes())?;
    journal.resize(1032, 0)?;
    Ok(journal)
}

/// The table of a database of 1024 bytes with these companions.
fn table(alloc: Global, log: &[u8], journal: &[u8]) -> Result<ImageTable, Fail> {
    if !can_be_page_size(512) || log.len() > 10_000 || journal.len() > 10_000 {
        return Err(Fail::from("the files are small"));
    }
    let lengths = Lengths {
        database: 1024,
        wal: Some(log.len() as u64),
        journal: Some(journal.len() as u64),
    };
    let wal = read_wal(alloc, Some(log), 512)?;
    let rollback = read_journal(alloc, Some(journal), 512)?;
    Ok(images(alloc, 512, lengths, &wal, &rollback)?)
}

/// Whether the lines over a byte are this text.
fn prints(
    alloc: Global,
    images: &ImageTable,
    place: Place,
    label: Option<Label>,
    text: &str,
) -> Result<bool, Fail> {
    let Some(physical) = images.place_of(place) else {
        return Ok(false);
    };
    let mut lines = ExplainLines::new(images, place, physical, Moment::Commit(2), label);
    let mut out = Tray::new(alloc, 1000, 1000)?;
    let written = write_lines(alloc, &mut lines, &mut out);
    Ok(written.is_ok() && out.taken() == text.as_bytes())
}

#[test]
fn each_kind_of_place_has_its_line(rt: HostRuntime) -> Result<(), Fail> {
    let alloc = rt.alloc();
    let images = table(alloc, &log(alloc)?, &journal(alloc)?)?;
    for (part, offset, label, text) in [
        (
            Part::Database,
            515,
            Some(Label::Cell(4)),
            "database byte 515\npage 2 file byte 3\nat 2 cell 4\n",
        ),
        (Part::Wal, 31, None, "wal byte 31\nwalheader byte 31\n"),
        (
            Part::Wal,
            55,
            None,
            "wal byte 55\nframehead frame 0 byte 23\n",
        ),
        (
            Part::Wal,
            57,
            None,
            "wal byte 57\npage 7 foreign byte 1\nat 2 not in view\n",
        ),
        (Part::Wal, 568, None, "wal byte 568\nloose\n"),
        (
            Part::Journal,
            1,
            None,
            "journal byte 1\njournalhead segment 0 byte 1\n",
        ),
        (Part::Journal, 28, None, "journal byte 28\npad\n"),
        (
            Part::Journal,
            512,
            None,
            "journal byte 512\nrecordhead record 0 byte 0\n",
        ),
        (
            Part::Journal,
            516,
            None,
            "journal byte 516\npage 3 good byte 0\nat 2 not in view\n",
        ),
        (
            Part::Journal,
            1031,
            None,
            "journal byte 1031\nrecordsum record 0 byte 3\n",
        ),
    ] {
        assert!(rt;
            prints(alloc, &images, Place { part, offset }, label, text)?,
            "{text}"
        );
    }
    Ok(())
}
