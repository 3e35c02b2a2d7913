//! A sweep over the moments: the pages that changed, each with the place of its view.
use super::journals::journal;
use super::*;

// The line of a moment: its name, its size and held pages, and the pages that changed with the places of their views.
fn tell_changed(text: &mut String, sweep: &Sweep<'_, '_>) -> Result<(), Fail> {
    tell_name(text, sweep.moment())?;
    write!(text, " {} {}", sweep.size(), sweep.held())?;
    for rank in sweep.changed() {
        tell_rank(text, sweep, *rank)?;
    }
    text.push_str("\n")?;
    Ok(())
}

fn tell_rank(text: &mut String, sweep: &Sweep<'_, '_>, rank: u32) -> Result<(), Fail> {
    if rank >= sweep.ranks() {
        return Ok(());
    }
    let number = sweep.number(rank);
    if sweep.rank(number) != Some(rank) {
        text.push_str(" another rank")?;
    }
    match sweep.source(rank) {
        Some(place) => write!(text, " {number} {}", place.offset)?,
        None => write!(text, " {number} none")?,
    }
    if sweep.page(number).is_some() != sweep.snapshot().page(number).is_some() {
        text.push_str(" another view")?;
    }
    Ok(())
}

// Checks what is told of all moments, each settled but the one of a place.
fn check_sweep(
    rt: &impl Abort,
    alloc: Global,
    wal: Option<&[u8]>,
    journal: Option<&[u8]>,
    passed: u32,
    expected: &str,
) -> Result<(), Fail> {
    let database = database(alloc, &[Image::Head(2), Image::Filled(7)])?;
    let case = gathered(rt, alloc, &database, wal, journal)?;
    let mut text = String::new(alloc);
    let mut sweep = case.sweep(alloc)?;
    for i in 0..case.moments() {
        tell_changed(&mut text, &sweep)?;
        if i != passed {
            sweep.settled();
        }
        let _more = sweep.next();
    }
    assert!(rt; text.as_str() == expected, "{text}");
    Ok(())
}

// A page written twice, one past the file, one past the size of its own commit, pages that go with the size and come back;
// and records that the file's moment takes back.
#[test]
fn pages_that_change(rt: HostRuntime) -> Result<(), Fail> {
    let alloc = rt.alloc();
    let log = log(
        alloc,
        &[
            (2, 0, Image::Filled(8)),
            (2, 2, Image::Filled(9)),
            (4, 4, Image::Filled(1)),
            (1, 1, Image::Head(1)),
            (5, 4, Image::Filled(2)),
            (2, 5, Image::Filled(3)),
        ],
    )?;
    let expected =
        "0 2 2 1 0 2 512 4 none 5 none\n1 2 2 2 592\n2 4 3 4 1128\n3 1 1 2 none 4 none 1 1664\n4 4 3 2 592 4 1128\n5 5 4 2 2736 4 1128 5 2200\n";
    check_sweep(&rt, alloc, Some(&log), None, 4, expected)?;
    let records = journal(
        alloc,
        3,
        &[(2, Image::Filled(5), 0), (3, Image::Filled(6), 0)],
    )?;
    let expected = "journal 3 3 1 0 2 516 3 2052\n0 2 2 3 none 2 512\n";
    check_sweep(&rt, alloc, None, Some(&records), 9, expected)
}
