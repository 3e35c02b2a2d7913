//! Databases with a live rollback journal beside them.
use super::*;

// A live journal of segments with a record each: its page number, its image, and what is added to the right checksum. The
// first header states so many pages.
pub(super) fn journal(
    alloc: Global,
    pages: u32,
    records: &[(u8, Image, u8)],
) -> Result<Vec<u8>, Fail> {
    let mut bytes = Vec::new(alloc);
    for (no, image, off) in records {
        let start = bytes.len().next_multiple_of(512);
        put(
            &mut bytes,
            start,
            &[217, 213, 5, 249, 32, 161, 99, 215, 0, 0, 0, 1, 0, 0, 0, 17],
        )?;
        bytes.extend_from_slice(&pages.to_be_bytes())?;
        bytes.extend_from_slice(&[0, 0, 2, 0, 0, 0, 2, 0])?;
        put(&mut bytes, start + 512, &[0, 0, 0, *no])?;
        let image = page(alloc, *image)?;
        bytes.extend_from_slice(&image)?;
        let sampled = u32::from(*image.get(312).unwrap_or(&0))
            + u32::from(*image.get(112).unwrap_or(&0));
        bytes.extend_from_slice(&(17 + sampled + u32::from(*off)).to_be_bytes())?;
    }
    Ok(bytes)
}

// Checks what is told of the plain database with such a journal: a part of its own, and then the file's.
fn check_journal(
    rt: &impl Abort,
    alloc: Global,
    pages: u32,
    records: &[(u8, Image, u8)],
    expected: &str,
) -> Result<(), Fail> {
    let plain = database(alloc, &[Image::Head(2), Image::Filled(7)])?;
    let journal = journal(alloc, pages, records)?;
    check(rt, alloc, &plain, None, Some(&journal), expected)
}

#[test]
fn the_first_record_of_a_page_counts(rt: HostRuntime) -> Result<(), Fail> {
    check_journal(
        &rt,
        rt.alloc(),
        2,
        &[(2, Image::Filled(5), 0), (2, Image::Filled(6), 0)],
        "journal pages 2 held 2 uncertain 0\n1 database 0\n2 journal 516\n0 pages 2 held 2 uncertain 0\n1 database 0\n2 database 512\n",
    )
}

#[test]
fn initial_sizes_of_all_kinds(rt: HostRuntime) -> Result<(), Fail> {
    let alloc = rt.alloc();
    check_journal(
        &rt,
        alloc,
        0,
        &[(2, Image::Filled(5), 0)],
        "journal pages 0 held 0 uncertain 0\nno head\n0 pages 2 held 2 uncertain 0\n1 database 0\n2 database 512\n",
    )?;
    check_journal(
        &rt,
        alloc,
        u32::MAX,
        &[(2, Image::Filled(5), 0), (9, Image::Filled(6), 0)],
        "journal pages 4294967295 held 3 uncertain 0\n1 database 0\n2 journal 516\n9 journal 2052\n0 pages 2 held 2 uncertain 0\n1 database 0\n2 database 512\n",
    )
}

#[test]
fn a_live_journal_beside_a_log(rt: HostRuntime) -> Result<(), Fail> {
    let alloc = rt.alloc();
    let plain = database(alloc, &[Image::Head(2), Image::Filled(7)])?;
    let logged = log(alloc, &[(1, 0, Image::Head(2)), (2, 2, Image::Filled(7))])?;
    let one = journal(alloc, 2, &[(1, Image::Head(1), 0)])?;
    check(
        &rt,
        alloc,
        &plain,
        Some(&logged),
        Some(&one),
        "journal pages 2 held 2 uncertain 1\n1 journal 516\n2 database 512 uncertain\n0 pages 2 held 2 uncertain 2\n1 database 0 uncertain\n2 database 512 uncertain\n1 pages 2 held 2 uncertain 0\n1 wal 56\n2 wal 592\n",
    )
}
