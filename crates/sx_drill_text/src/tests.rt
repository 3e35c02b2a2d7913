//! The text of `drill`.
use super::*;
use std::test::Fail;
use sx_edge::Tray;
use sx_lines::write_lines;

#[test]
fn a_drill_has_three_lines(rt: HostRuntime) -> Result<(), Fail> {
    let alloc = rt.alloc();
    let counts = DrillCounts {
        database: 12288,
        wal: 12392,
        commits: 3,
        rows: 17,
        candidates: 6,
    };
    let mut lines = DrillLines::new(7, 1, 3, counts);
    let mut tray = Tray::new(alloc, 1000, 1000)?;
    let written = write_lines(alloc, &mut lines, &mut tray);
    assert!(rt; written.is_ok());
    let expected =
        "drill seed 7 leaves 1 commits 3\ndatabase 12288 wal 12392\ncommits 3 rows 17 candidates 6\n";
    assert_eq!(rt; tray.taken(), expected.as_bytes());
    Ok(())
}
