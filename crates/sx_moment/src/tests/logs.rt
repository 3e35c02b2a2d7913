//! Databases with a write-ahead log beside them, or alone.
use super::*;

// Checks what is told of a database of these pages with a log of these frames.
fn check_log(
    rt: &impl Abort,
    alloc: Global,
    images: &[Image],
    frames: &[(u32, u32, Image)],
    expected: &str,
) -> Result<(), Fail> {
    let database = database(alloc, images)?;
    let log = log(alloc, frames)?;
    check(rt, alloc, &database, Some(&log), None, expected)
}

// The same of the plain database, whose two pages are a header and bytes of 7.
fn check_plain(
    rt: &impl Abort,
    alloc: Global,
    frames: &[(u32, u32, Image)],
    expected: &str,
) -> Result<(), Fail> {
    check_log(
        rt,
        alloc,
        &[Image::Head(2), Image::Filled(7)],
        frames,
        expected,
    )
}

#[test]
fn a_view_is_uncertain_until_a_frame_holds_it(rt: HostRuntime) -> Result<(), Fail> {
    check_plain(
        &rt,
        rt.alloc(),
        &[
            (2, 2, Image::Filled(8)),
            (2, 2, Image::Filled(7)),
            (1, 2, Image::Head(2)),
        ],
        "0 pages 2 held 2 uncertain 2\n1 database 0 uncertain\n2 database 512 uncertain\n1 pages 2 held 2 uncertain 1\n1 database 0 uncertain\n2 wal 56\n2 pages 2 held 2 uncertain 1\n1 database 0 uncertain\n2 wal 592\n3 pages 2 held 2 uncertain 0\n1 wal 1128\n2 wal 592\n",
    )
}

#[test]
fn pages_past_the_end_of_the_file(rt: HostRuntime) -> Result<(), Fail> {
    let alloc = rt.alloc();
    check_log(
        &rt,
        alloc,
        &[Image::Head(1)],
        &[
            (9, 0, Image::Filled(1)),
            (5, 3, Image::Filled(2)),
            (3, 9, Image::Filled(3)),
        ],
        "0 pages 1 held 1 uncertain 0\n1 database 0\n1 pages 3 held 1 uncertain 0\n1 database 0\n2 pages 9 held 4 uncertain 0\n1 database 0\n3 wal 1128\n5 wal 592\n9 wal 56\n",
    )?;
    check_plain(
        &rt,
        alloc,
        &[
            (2_097_153, 0, Image::Filled(1)),
            (2_097_154, 0, Image::Filled(1)),
            (2, 4_294_967_295, Image::Filled(7)),
        ],
        "0 pages 2 held 2 uncertain 1\n1 database 0\n2 database 512 uncertain\n1 pages 4294967295 held 3 uncertain 0\n1 database 0\n2 wal 1128\n2097154 wal 592\n",
    )
}

// The encoding of a moment, whether it has a head, and the size and the usable bytes of its layout.
fn head_of(case: &Case<'_>, moment: Moment) -> Option<(Encoding, bool, u32, u32)> {
    let snapshot = case.snapshot(moment)?;
    let layout = snapshot.layout();
    Some((
        snapshot.encoding(),
        snapshot.head().is_some(),
        layout.pages,
        layout.usable,
    ))
}

#[test]
fn heads_give_layouts_and_encodings(rt: HostRuntime) -> Result<(), Fail> {
    let alloc = rt.alloc();
    let mut plain = database(alloc, &[Image::Head(2), Image::Filled(7)])?;
    if let Some(byte) = plain.get_mut(59) {
        *byte = 2;
    }
    let logged = log(alloc, &[(1, 3, Image::Head(2)), (1, 4, Image::Filled(0))])?;
    let case = gathered(&rt, alloc, &plain, Some(&logged), None)?;
    assert!(rt; head_of(&case, Moment::File) == Some((Encoding::Utf16Le, true, 2, 512)));
    assert!(rt; head_of(&case, Moment::Commit(1)) == Some((Encoding::Utf8, true, 3, 512)));
    assert!(rt; head_of(&case, Moment::Commit(2)) == Some((Encoding::Utf16Le, false, 4, 512)));
    assert!(rt; head_of(&case, Moment::Journal).is_none());
    assert!(rt; head_of(&case, Moment::Commit(0)).is_none());
    assert!(rt; head_of(&case, Moment::Commit(3)).is_none());
    assert!(rt; case.last() == Moment::Commit(2));
    Ok(())
}

#[test]
fn a_head_names_pointer_maps_and_a_freelist(rt: HostRuntime) -> Result<(), Fail> {
    let alloc = rt.alloc();
    let mut plain = database(alloc, &[Image::Head(2), Image::Filled(7)])?;
    for at in [35, 55] {
        if let Some(byte) = plain.get_mut(at) {
            *byte = 9;
        }
    }
    let case = gathered(&rt, alloc, &plain, None, None)?;
    let Some(snapshot) = case.snapshot(Moment::File) else {
        panic!(&rt; "the file has no moment");
    };
    let layout = snapshot.layout();
    assert!(rt; layout.pointer_maps);
    assert!(rt; layout.free_head == 9);
    Ok(())
}

// The view of a page, which outlives the snapshot that gave it.
fn kept<'a>(case: &Case<'a>, no: u32) -> Option<&'a [u8]> {
    let snapshot = case.snapshot(case.last())?;
    snapshot.page(no)
}

#[test]
fn a_view_outlives_its_snapshot(rt: HostRuntime) -> Result<(), Fail> {
    let alloc = rt.alloc();
    let plain = database(alloc, &[Image::Head(2), Image::Filled(7)])?;
    let logged = log(alloc, &[(2, 2, Image::Filled(8))])?;
    let case = gathered(&rt, alloc, &plain, Some(&logged), None)?;
    assert!(rt; kept(&case, 1) == plain.get(..512));
    assert!(rt; kept(&case, 2) == logged.get(56..));
    assert!(rt; kept(&case, 3).is_none());
    Ok(())
}

// Checks which pages commit `k` turns.
fn check_turned(
    rt: &impl Abort,
    alloc: Global,
    case: &Case<'_>,
    k: u32,
    pages: &[u32],
) -> Result<(), Fail> {
    assert!(rt; 1 <= k && k <= case.wal().commits());
    assert_eq!(rt; case.turned(alloc, k)?.as_slice(), pages, "commit {k}");
    Ok(())
}

#[test]
fn the_pages_that_a_commit_turns(rt: HostRuntime) -> Result<(), Fail> {
    let alloc = rt.alloc();
    let plain = database(alloc, &[Image::Head(2), Image::Filled(7)])?;
    let frames = [(5, 0), (2, 0), (5, 5), (2, 2), (9, 0)];
    let mut written = Vec::new(alloc);
    for (page, size) in frames {
        written.push((page, size, Image::Filled(8)))?;
    }
    let logged = log(alloc, &written)?;
    let case = gathered(&rt, alloc, &plain, Some(&logged), None)?;
    check_turned(&rt, alloc, &case, 1, &[2, 5])?;
    check_turned(&rt, alloc, &case, 2, &[2])
}
