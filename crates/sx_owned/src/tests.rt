use super::*;
use std::alloc::{AllocError, Global};
use std::process::Abort;
use std::test::Fail;
use sx_base::Span;

/// A table of two images of 512 bytes, with these spans of the second one owned, in this order; none where one ends outside.
fn with_spans(alloc: Global, spans: &[(u32, u32)]) -> Result<Option<OwnedRuns>, AllocError> {
    let mut owned = OwnedRuns::fresh(alloc, 2, 512)?;
    for (start, len) in spans {
        let size = owned.page_size();
        if owned.images() < 2 || *start > size || *len > size - *start {
            return Ok(None);
        }
        owned.add(
            1,
            Span {
                start: *start,
                len: *len,
            },
        )?;
    }
    Ok(Some(owned))
}

/// The unowned spans of the second image are these, and those of the first its whole page.
fn assert_unowned(rt: &impl Abort, owned: &OwnedRuns, want: &[(u32, u32)]) {
    assert_eq!(rt; owned.images(), 2);
    let mut spans = owned.unowned(1);
    for (start, len) in want {
        let span = Span {
            start: *start,
            len: *len,
        };
        assert_eq!(rt; spans.next(), Some(span));
    }
    assert_eq!(rt; spans.next(), None);
}

#[test]
fn unowned_spans_are_between_the_owned_ones(rt: HostRuntime) -> Result<(), Fail> {
    let table = vec![in rt.alloc();
        (&[][..], &[(0, 512)][..]),
        (&[(0, 512)][..], &[][..]),
        (&[(7, 0)][..], &[(0, 512)][..]),
        // in order: apart, touching, overlapping
        (&[(8, 2), (12, 4), (16, 4), (18, 10)][..], &[(0, 8), (10, 2), (28, 484)][..]),
        // out of order: before all, between two, over three
        (&[(100, 10), (20, 10), (60, 5)][..], &[(0, 20), (30, 30), (65, 35), (110, 402)][..]),
        (&[(10, 2), (20, 2), (30, 2), (50, 2), (12, 20)][..], &[(0, 10), (32, 18), (52, 460)][..]),
        (&[(0, 1), (511, 1)][..], &[(1, 510)][..]),
    ]?;
    for (spans, want) in &table {
        let owned = with_spans(rt.alloc(), spans)?.ok_or("a span lies in its page")?;
        assert_unowned(&rt, &owned, want);
    }
    Ok(())
}

#[test]
fn blocks_begin_where_they_were_named(rt: HostRuntime) -> Result<(), Fail> {
    let mut owned = OwnedRuns::fresh(rt.alloc(), 2, 512)?;
    for at in [100, 8, 104, 9] {
        if owned.images() < 2 || at >= owned.page_size() {
            return Err(Fail::from("the table has two images of 512 bytes"));
        }
        owned.block(1, at)?;
    }
    assert_eq!(rt; owned.images(), 2);
    for at in 0..512 {
        let named = at == 8 || at == 9 || at == 100 || at == 104;
        assert_eq!(rt; owned.is_block(1, at), named, "at {at}");
        assert!(rt; !owned.is_block(0, at));
    }
    Ok(())
}
