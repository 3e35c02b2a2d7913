//! A report's text, written by hand, and a digest that others publish.
use super::*;
use std::alloc::Global;
use std::test::Fail;
use sx_base::Moment;

fn file(alloc: Global, bytes: u64) -> Result<FileFacts, Fail> {
    Ok(FileFacts {
        bytes,
        sha256: String::from_str(alloc, "00ff")?,
    })
}

#[test]
fn a_digest_is_that_of_the_standard(rt: HostRuntime) -> Result<(), Fail> {
    let text = digest_text(rt.alloc(), b"abc")?;
    assert_eq!(rt;
        text.as_str(),
        "ba7816bf8f01cfea414140de5dae2223b00361a396177a9cb410ff61f20015ad"
    );
    Ok(())
}

#[test]
fn a_report_is_one_line_in_the_order_of_names(rt: HostRuntime) -> Result<(), Fail> {
    let alloc = rt.alloc();
    let mut moments = Vec::new(alloc);
    for (at, pages) in [(Moment::File, 1), (Moment::Commit(1), 2)] {
        moments.push(MomentFacts {
            at,
            pages,
            held: 3,
            uncertain: 4,
            owned: 5,
            slack: 6,
            fault: 7,
            dead: 8,
        })?;
    }
    let facts = CaseFacts {
        page_size: 512,
        usable: 500,
        database: file(alloc, 1024)?,
        wal: None,
        journal: None,
        moments,
        candidates: 9,
    };
    let text = case_json(alloc, &facts)?;
    let expected =
        "{\"candidates\":9,\"database\":{\"bytes\":1024,\"sha256\":\"00ff\"},\"journal\":null,\"moments\":[{\"at\":\"0\",\"dead\":8,\"fault\":7,\"held\":3,\"owned\":5,\"pages\":1,\"slack\":6,\"uncertain\":4},{\"at\":\"1\",\"dead\":8,\"fault\":7,\"held\":3,\"owned\":5,\"pages\":2,\"slack\":6,\"uncertain\":4}],\"pagesize\":512,\"usable\":500,\"wal\":null}";
    assert_eq!(rt; text.as_slice(), expected.as_bytes());
    Ok(())
}
