//! Words that were written by hand, inside the grammar and outside it.
use super::*;
use std::alloc::Global;
use std::process::Abort;
use std::test::Fail;
use sx_base::{Moment, Part, Place};

fn owned(alloc: Global, words: &[&str]) -> Result<Vec<String>, Fail> {
    let mut list = Vec::new(alloc);
    for word in words {
        list.push(String::from_str(alloc, word)?)?;
    }
    Ok(list)
}

// Whether the words behind a database and `page` ask for this page at this time.
fn check_page(
    rt: &impl Abort,
    alloc: Global,
    settings: &[&str],
    page: (u32, When),
) -> Result<(), Fail> {
    let mut words = owned(alloc, &["a=b.db", "page"])?;
    for word in settings {
        words.push(String::from_str(alloc, word)?)?;
    }
    let (no, at) = page;
    let db = "a=b.db";
    let question = Question::Page { no, at };
    assert_eq!(rt; read_words(&words), Ok(Request::Evidence { db, question }));
    Ok(())
}

#[test]
fn a_page_is_asked_for_by_its_number_and_a_time(rt: HostRuntime) -> Result<(), Fail> {
    let alloc = rt.alloc();
    check_page(&rt, alloc, &["no=2"], (2, When::Last))?;
    check_page(&rt, alloc, &["no=4294967295"], (4_294_967_295, When::Last))?;
    check_page(&rt, alloc, &["no=10", "at=0"], (10, When::At(Moment::File)))?;
    check_page(
        &rt,
        alloc,
        &["at=1", "no=1"],
        (1, When::At(Moment::Commit(1))),
    )?;
    check_page(
        &rt,
        alloc,
        &["no=1", "at=4294967295"],
        (1, When::At(Moment::Commit(4_294_967_295))),
    )?;
    check_page(
        &rt,
        alloc,
        &["at=journal", "no=3"],
        (3, When::At(Moment::Journal)),
    )?;
    Ok(())
}

#[test]
fn a_table_is_asked_for_by_its_name_and_a_time(rt: HostRuntime) -> Result<(), Fail> {
    let words = owned(rt.alloc(), &["a.db", "show", "at=1", "table=a=b"])?;
    let question = Question::Show {
        table: "a=b",
        at: When::At(Moment::Commit(1)),
    };
    let db = "a.db";
    assert_eq!(rt; read_words(&words), Ok(Request::Evidence { db, question }));
    Ok(())
}

#[test]
fn a_byte_is_asked_for_by_its_file_and_a_time(rt: HostRuntime) -> Result<(), Fail> {
    let alloc = rt.alloc();
    let db = "a.db";
    let words = owned(
        alloc,
        &["a.db", "explain", "byte=18446744073709551615", "part=wal"],
    )?;
    let place = Place {
        part: Part::Wal,
        offset: u64::MAX,
    };
    let at = When::Last;
    let question = Question::Explain { place, at };
    assert_eq!(rt; read_words(&words), Ok(Request::Evidence { db, question }));
    let words = owned(alloc, &["a.db", "map", "at=journal"])?;
    let at = When::At(Moment::Journal);
    let question = Question::Map { at };
    assert_eq!(rt; read_words(&words), Ok(Request::Evidence { db, question }));
    Ok(())
}

#[test]
fn all_moments_are_asked_for_by_carve_alone(rt: HostRuntime) -> Result<(), Fail> {
    let alloc = rt.alloc();
    let db = "a.db";
    let words = owned(alloc, &["a.db", "carve", "at=all"])?;
    let (at, spill) = (Which::All, false);
    let question = Question::Carve { at, spill };
    assert_eq!(rt; read_words(&words), Ok(Request::Evidence { db, question }));
    let words = owned(alloc, &["a.db", "carve", "spill=yes"])?;
    let (at, spill) = (Which::One(When::Last), true);
    let question = Question::Carve { at, spill };
    assert_eq!(rt; read_words(&words), Ok(Request::Evidence { db, question }));
    Ok(())
}

#[test]
fn a_drill_is_asked_for_by_three_numbers(rt: HostRuntime) -> Result<(), Fail> {
    let words = owned(
        rt.alloc(),
        &[
            "drill",
            "commits=0",
            "seed=18446744073709551615",
            "leaves=400",
        ],
    )?;
    let drill = Drill {
        seed: u64::MAX,
        leaves: 400,
        commits: 0,
    };
    assert_eq!(rt; read_words(&words), Ok(Request::Drill(drill)));
    Ok(())
}

#[test]
fn other_words_are_outside_the_grammar(rt: HostRuntime) -> Result<(), Fail> {
    let alloc = rt.alloc();
    for words in [
        [].as_slice(),
        &["a.db"],
        &["a.db", "pages"],
        &["page", "a.db", "no=1"],
        &["", "page", "no=1"],
        &["drill"],
        &["drill", "page", "no=1"],
        &["drill", "timeline"],
        &["drill", "seed=1", "leaves=1"],
        &["drill", "seed=1", "leaves=0", "commits=1"],
        &["drill", "seed=1", "leaves=401", "commits=1"],
        &["drill", "seed=1", "leaves=1", "commits=1001"],
        &[
            "drill",
            "seed=18446744073709551616",
            "leaves=1",
            "commits=1",
        ],
        &["a.db", "report", "at=1"],
        &["a.db", "timeline", "no=1"],
        &["a.db", "timeline", ""],
        &["a.db", "page"],
        &["a.db", "page", "at=1"],
        &["a.db", "page", "no"],
        &["a.db", "page", "no="],
        &["a.db", "page", "=1"],
        &["a.db", "page", "No=1"],
        &["a.db", "page", "no =1"],
        &["a.db", "page", "no=1=1"],
        &["a.db", "page", "no=0"],
        &["a.db", "page", "no=01"],
        &["a.db", "page", "no=+1"],
        &["a.db", "page", "no=-1"],
        &["a.db", "page", "no=1x"],
        &["a.db", "page", "no= 1"],
        &["a.db", "page", "no=4294967296"],
        &["a.db", "page", "no=18446744073709551617"],
        &["a.db", "page", "no=1", "no=1"],
        &["a.db", "page", "no=1", "at=1", "at=1"],
        &["a.db", "page", "no=1", "table=t"],
        &["a.db", "show"],
        &["a.db", "show", "table="],
        &["a.db", "show", "table=t", "no=1"],
        &["a.db", "map", "no=1"],
        &["a.db", "map", "at=1", "at=1"],
        &["a.db", "explain", "part=wal"],
        &["a.db", "explain", "byte=1"],
        &["a.db", "explain", "part=WAL", "byte=1"],
        &["a.db", "explain", "part=wal", "byte=01"],
        &["a.db", "explain", "part=wal", "byte=18446744073709551616"],
        &["a.db", "generations", "at=0"],
        &["a.db", "map", "at=all"],
        &["a.db", "carve", "at=All"],
        &["a.db", "carve", "spill=maybe"],
        &["a.db", "carve", "spill=no", "spill=no"],
        &["a.db", "map", "spill=no"],
        &["a.db", "history", "table=t"],
        &["a.db", "history", "rowid=1"],
        &["a.db", "history", "table=t", "rowid=1", "at=0"],
        &["a.db", "history", "table=t", "rowid=-0"],
        &["a.db", "history", "table=t", "rowid=+1"],
        &["a.db", "history", "table=t", "rowid=9223372036854775808"],
        &["a.db", "history", "table=t", "rowid=-9223372036854775809"],
        &["a.db", "page", "no=1", "at"],
        &["a.db", "page", "no=1", "at="],
        &["a.db", "page", "no=1", "at=01"],
        &["a.db", "page", "no=1", "at=00"],
        &["a.db", "page", "no=1", "at=all"],
        &["a.db", "page", "no=1", "at=Journal"],
        &["a.db", "page", "no=1", "at=4294967296"],
    ] {
        let words = owned(alloc, words)?;
        assert_eq!(rt; read_words(&words), Err(Usage), "{words:?}");
    }
    Ok(())
}
