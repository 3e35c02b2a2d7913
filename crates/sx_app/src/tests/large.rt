//! Logs of a thousand frames.
use super::*;
use std::process::Abort;
use sx_wal::sums;

// A frame: the number of its page, the size in pages where it ends a commit, and the page.
#[derive(Clone, Copy)]
struct Frame<'p> {
    page: u32,
    size: u32,
    image: &'p [u8],
}

// A log of pages of so many bytes, with the salts 1 and 2 and these frames, and big-endian sums.
fn log(
    rt: &impl Abort,
    alloc: Global,
    page_size: u32,
    frames: &[Frame<'_>],
) -> Result<Vec<u8>, Fail> {
    let mut head = [
        55, 127, 6, 131, 0, 45, 226, 24, 0, 0, 0, 0, 0, 0, 0, 0, 0, 0, 0, 1, 0, 0, 0, 2,
    ];
    head[8..12].copy_from_slice(&page_size.to_be_bytes());
    let mut bytes = Vec::new(alloc);
    bytes.extend_from_slice(&head)?;
    let mut carried = sums(true, (0, 0), &head);
    put_sums(&mut bytes, carried)?;
    for frame in frames {
        assert!(rt; frame.image.len() % 8 == 0);
        let mut front = [0; 8];
        front[..4].copy_from_slice(&frame.page.to_be_bytes());
        front[4..].copy_from_slice(&frame.size.to_be_bytes());
        carried = sums(true, sums(true, carried, &front), frame.image);
        bytes.extend_from_slice(&front)?;
        bytes.extend_from_slice(&[0, 0, 0, 1, 0, 0, 0, 2])?;
        put_sums(&mut bytes, carried)?;
        bytes.extend_from_slice(frame.image)?;
    }
    Ok(bytes)
}

fn put_sums(bytes: &mut Vec<u8>, carried: (u32, u32)) -> Result<(), Fail> {
    bytes.extend_from_slice(&carried.0.to_be_bytes())?;
    bytes.extend_from_slice(&carried.1.to_be_bytes())?;
    Ok(())
}

// What `timeline` over a database and its log writes.
fn timeline(rt: &impl Abort, alloc: Global, database: Vec<u8>, wal: Vec<u8>) -> Result<Tray, Fail> {
    let mut files = Vec::new(alloc);
    files.push((String::from_str(alloc, "a.db")?, database))?;
    files.push((String::from_str(alloc, "a.db-wal")?, wal))?;
    assert!(rt; names_differ(&files));
    let mut store = Shelf::new(files, 65_536, Vec::new(alloc));
    let mut out = Tray::new(alloc, 65_536, 65_536)?;
    let words = owned(alloc, &["a.db", "timeline"])?;
    let outcome = examine(alloc, words.as_slice(), &mut store, &mut out);
    assert_eq!(rt; status(&outcome), 0);
    Ok(out)
}

// A database of 6400 pages of 4096 bytes, and a log of 1000 frames of which each fourth is a commit.
#[test]
fn many_commits_have_a_line_each(rt: HostRuntime) -> Result<(), Fail> {
    let alloc = rt.alloc();
    let mut database = plain_database(alloc)?;
    for (at, byte) in [(16, 16), (17, 0), (30, 25), (31, 0)] {
        if let Some(place) = database.get_mut(at) {
            *place = byte;
        }
    }
    put(&mut database, 26_214_400, &[])?;
    let image = [1; 4_096];
    let mut frames = Vec::new(alloc);
    for i in 1..=1_000_u32 {
        let size = if i % 4 == 0 { 6_400 } else { 0 };
        frames.push(Frame {
            page: i,
            size,
            image: &image,
        })?;
    }
    let wal = log(&rt, alloc, 4_096, frames.as_slice())?;
    let out = timeline(&rt, alloc, database, wal)?;
    let front =
        b"database pagesize 4096 usable 4096 pages 6400\nwal good frames 1000 committed 1000 pending 0 foreign 0 broken 0\n";
    assert_eq!(rt;
        out.taken().get(..front.len()).unwrap_or(&[]),
        front.as_slice()
    );
    let back = b"\n250 frame 999 pages 6400 held 6400 uncertain 0\n";
    let rest = out.taken().len().saturating_sub(back.len());
    assert_eq!(rt; out.taken().get(rest..).unwrap_or(&[]), back.as_slice());
    Ok(())
}

// A database of one page, whose log claims 4,294,967,295 pages at each of 1000 commits.
#[test]
fn a_claimed_size_costs_nothing(rt: HostRuntime) -> Result<(), Fail> {
    let alloc = rt.alloc();
    let database = empty_database(alloc)?;
    let image = [1; 512];
    let frame = Frame {
        page: 2,
        size: u32::MAX,
        image: &image,
    };
    let frames = vec![in alloc; frame; 1_000]?;
    let wal = log(&rt, alloc, 512, frames.as_slice())?;
    let out = timeline(&rt, alloc, database, wal)?;
    let back = b"\n1000 frame 999 pages 4294967295 held 2 uncertain 0\n";
    let rest = out.taken().len().saturating_sub(back.len());
    assert_eq!(rt; out.taken().get(rest..).unwrap_or(&[]), back.as_slice());
    Ok(())
}
