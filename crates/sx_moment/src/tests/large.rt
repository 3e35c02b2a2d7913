//! A database of 25 MB with a log of a thousand frames.
use super::*;

const PAGES: usize = 6_400;

const PAGE_SIZE: usize = 4_096;

// A database of so many pages of 4096 bytes, all zero but for its header.
fn large_database(alloc: Global) -> Result<Vec<u8>, Fail> {
    let mut bytes = Vec::with_capacity(alloc, PAGES * PAGE_SIZE)?;
    put(
        &mut bytes,
        0,
        b"SQLite format 3\0\x10\0\x01\x01\0\x40\x20\x20",
    )?;
    put(&mut bytes, 27, &[2, 0, 0, 25, 0])?;
    put(&mut bytes, 95, &[2])?;
    put(&mut bytes, PAGES * PAGE_SIZE, &[])?;
    Ok(bytes)
}

// A log of a thousand frames, each fourth a commit. No frame equals the page of the file.
fn large_log(alloc: Global) -> Result<Vec<u8>, Fail> {
    let head = [
        55, 127, 6, 131, 0, 45, 226, 24, 0, 0, 16, 0, 0, 0, 0, 0, 0, 0, 0, 1, 0, 0, 0, 2,
    ];
    let mut bytes = Vec::new(alloc);
    bytes.extend_from_slice(&head)?;
    let mut carried = sums(true, (0, 0), &head);
    put_sums(&mut bytes, carried)?;
    let image = vec![in alloc; 7u8; PAGE_SIZE]?;
    for i in 0..1_000u32 {
        let size = if i % 4 == 3 { 6_400 } else { 0 };
        carried = put_frame(alloc, &mut bytes, carried, i * 7 % 6_399 + 2, size, &image)?;
    }
    Ok(bytes)
}

// The counts of a moment: its size, its held pages, its uncertain ones.
fn counts_at(case: &Case<'_>, moment: Moment) -> Option<(u32, u32, u32)> {
    let snapshot = case.snapshot(moment)?;
    Some((snapshot.size(), snapshot.held(), snapshot.uncertain_count()))
}

#[test]
fn a_thousand_frames_over_thousands_of_pages(rt: HostRuntime) -> Result<(), Fail> {
    let alloc = rt.alloc();
    let database = large_database(alloc)?;
    let logged = large_log(alloc)?;
    let case = gathered(&rt, alloc, &database, Some(&logged), None)?;
    assert!(rt; case.moments() == 251);
    assert!(rt; case.last() == Moment::Commit(250));
    for i in 0..case.moments() {
        assert!(rt; counts_at(&case, case.moment(i)) == Some((6_400, 6_400, 0)));
    }
    Ok(())
}
