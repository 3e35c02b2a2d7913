//! Cases gathered in memory. Each is told as a text: its moments with sizes, held pages, marks and heads, and each held
//! page with the place of its view. The expected texts were written by hand.
use super::*;
use std::alloc::Global;
use std::process::Abort;
use std::test::Fail;
use sx_base::{Moment, Pages, Part};
use sx_bytes::Encoding;
use sx_header::read_header;
use sx_wal::sums;

mod journals;
mod large;
mod logs;
mod sweeps;

// What a page of 512 bytes holds: the header of a database of so many pages, or one byte everywhere.
#[derive(Clone, Copy)]
enum Image {
    Head(u8),
    Filled(u8),
}

// Zeros up to a place, and then these bytes.
fn put(bytes: &mut Vec<u8>, at: usize, piece: &[u8]) -> Result<(), Fail> {
    for _ in bytes.len()..at {
        bytes.push(0)?;
    }
    bytes.extend_from_slice(piece)?;
    Ok(())
}

// Such a page.
fn page(alloc: Global, image: Image) -> Result<Vec<u8>, Fail> {
    let mut bytes = Vec::new(alloc);
    match image {
        Image::Head(pages) => {
            put(
                &mut bytes,
                0,
                b"SQLite format 3\0\x02\0\x01\x01\0\x40\x20\x20",
            )?;
            put(&mut bytes, 27, &[2, 0, 0, 0, pages])?;
            put(&mut bytes, 95, &[2])?;
            put(&mut bytes, 512, &[])?;
        }
        Image::Filled(byte) => {
            for _ in 0..512 {
                bytes.push(byte)?;
            }
        }
    }
    Ok(bytes)
}

// A database of these pages.
fn database(alloc: Global, images: &[Image]) -> Result<Vec<u8>, Fail> {
    let mut bytes = Vec::new(alloc);
    for image in images {
        bytes.extend_from_slice(&page(alloc, *image)?)?;
    }
    Ok(bytes)
}

// A log of frames with these pages, commit sizes and images, with the right sums.
fn log(alloc: Global, frames: &[(u32, u32, Image)]) -> Result<Vec<u8>, Fail> {
    let head = [
        55, 127, 6, 131, 0, 45, 226, 24, 0, 0, 2, 0, 0, 0, 0, 0, 0, 0, 0, 1, 0, 0, 0, 2,
    ];
    let mut bytes = Vec::new(alloc);
    bytes.extend_from_slice(&head)?;
    let mut carried = sums(true, (0, 0), &head);
    put_sums(&mut bytes, carried)?;
    for (no, size, image) in frames {
        carried = put_frame(
            alloc,
            &mut bytes,
            carried,
            *no,
            *size,
            &page(alloc, *image)?,
        )?;
    }
    Ok(bytes)
}

// Puts a frame behind those whose sums were carried so far.
fn put_frame(
    alloc: Global,
    bytes: &mut Vec<u8>,
    carried: (u32, u32),
    no: u32,
    size: u32,
    image: &[u8],
) -> Result<(u32, u32), Fail> {
    let mut covered = Vec::new(alloc);
    covered.extend_from_slice(&no.to_be_bytes())?;
    covered.extend_from_slice(&size.to_be_bytes())?;
    bytes.extend_from_slice(&covered)?;
    covered.extend_from_slice(image)?;
    let next = if covered.len() % 8 == 0 {
        sums(true, carried, &covered)
    } else {
        carried
    };
    bytes.extend_from_slice(&[0, 0, 0, 1, 0, 0, 0, 2])?;
    put_sums(bytes, next)?;
    bytes.extend_from_slice(image)?;
    Ok(next)
}

fn put_sums(bytes: &mut Vec<u8>, carried: (u32, u32)) -> Result<(), Fail> {
    bytes.extend_from_slice(&carried.0.to_be_bytes())?;
    bytes.extend_from_slice(&carried.1.to_be_bytes())?;
    Ok(())
}

// The files of a case, gathered.
fn gathered<'a>(
    rt: &impl Abort,
    alloc: Global,
    database: &'a [u8],
    wal: Option<&'a [u8]>,
    journal: Option<&'a [u8]>,
) -> Result<Case<'a>, Fail> {
    let Ok(header) = read_header(database) else {
        panic!(rt; "the header isn't accepted");
    };
    assert!(rt; database.len() < 4_294_967_296);
    assert!(rt; wal.unwrap_or(&[]).len() < 4_294_967_296);
    assert!(rt; journal.unwrap_or(&[]).len() < 4_294_967_296);
    let evidence = Evidence {
        database,
        wal,
        journal,
    };
    Ok(Case::gather(alloc, header, evidence)?)
}

// All that a case tells of its moments.
fn told(rt: &impl Abort, alloc: Global, case: &Case<'_>) -> Result<String, Fail> {
    let mut text = String::new(alloc);
    for i in 0..case.moments() {
        tell_moment(rt, &mut text, case, case.moment(i))?;
    }
    Ok(text)
}

// The line of a moment, and those of its held pages. They are asked by their place and walked over besides.
fn tell_moment(
    rt: &impl Abort,
    text: &mut String,
    case: &Case<'_>,
    moment: Moment,
) -> Result<(), Fail> {
    tell_name(text, moment)?;
    let Some(snapshot) = case.snapshot(moment) else {
        panic!(rt; "a listed moment has no snapshot");
    };
    tell_counts(text, &snapshot)?;
    let mut before = 0;
    for i in 0..snapshot.held() {
        let no = snapshot.held_at(i);
        assert!(rt; snapshot.next_held(before) == Some(no));
        before = no;
        tell_page(rt, text, &snapshot, no)?;
    }
    assert!(rt; snapshot.next_held(before).is_none());
    Ok(())
}

fn tell_name(text: &mut String, moment: Moment) -> Result<(), Fail> {
    match moment {
        Moment::Journal => text.push_str("journal")?,
        Moment::File => text.push_str("0")?,
        Moment::Commit(k) => write!(text, "{k}")?,
    }
    Ok(())
}

fn tell_counts(text: &mut String, snapshot: &Snapshot<'_, '_>) -> Result<(), Fail> {
    let size = snapshot.size();
    let held = snapshot.held();
    let marks = snapshot.uncertain_count();
    writeln!(text, " pages {size} held {held} uncertain {marks}")?;
    if snapshot.head().is_none() {
        text.push_str("no head\n")?;
    }
    Ok(())
}

// The line of a held page: its place and its mark.
fn tell_page(
    rt: &impl Abort,
    text: &mut String,
    snapshot: &Snapshot<'_, '_>,
    no: u32,
) -> Result<(), Fail> {
    let Some(place) = snapshot.source(no) else {
        panic!(rt; "a held page has no place");
    };
    let part = part_name(place.part);
    let offset = place.offset;
    let mark = if snapshot.uncertain(no) {
        " uncertain"
    } else {
        ""
    };
    writeln!(text, "{no} {part} {offset}{mark}")?;
    Ok(())
}

fn part_name(part: Part) -> &'static str {
    match part {
        Part::Database => "database",
        Part::Wal => "wal",
        Part::Journal => "journal",
    }
}

// Checks what is told of a database of these pages and of what lies beside it.
fn check(
    rt: &impl Abort,
    alloc: Global,
    database: &[u8],
    wal: Option<&[u8]>,
    journal: Option<&[u8]>,
    expected: &str,
) -> Result<(), Fail> {
    let case = gathered(rt, alloc, database, wal, journal)?;
    let text = told(rt, alloc, &case)?;
    assert!(rt; text.as_str() == expected, "{text}");
    Ok(())
}
