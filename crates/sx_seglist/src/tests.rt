use super::*;
use std::process::Abort;
use std::test::Fail;
use sx_base::{Label, Span};

/// The runs of a list are these, each a start, a length and what is claimed.
fn assert_runs(rt: &impl Abort, list: &SegList, want: &[(u32, u32, Claimed)]) {
    let mut runs = list.walk();
    for (start, len, claimed) in want {
        let span = Span {
            start: *start,
            len: *len,
        };
        assert_eq!(rt; runs.next(), Some((span, *claimed)));
    }
    assert_eq!(rt; runs.next(), None);
}

#[test]
fn claims_split_and_join(rt: HostRuntime) -> Result<(), Fail> {
    let mut list = SegList::fresh(rt.alloc(), 10)?;
    list.claim(Span { start: 2, len: 3 }, Label::Gap)?;
    list.claim(Span { start: 4, len: 4 }, Label::Tail)?;
    list.claim(Span { start: 5, len: 0 }, Label::Link)?;
    assert_runs(
        &rt,
        &list,
        &[
            (0, 2, Claimed::None),
            (2, 2, Claimed::One(Label::Gap)),
            (4, 1, Claimed::Many),
            (5, 3, Claimed::One(Label::Tail)),
            (8, 2, Claimed::None),
        ],
    );
    list.claim(Span { start: 8, len: 2 }, Label::Tail)?;
    assert_runs(
        &rt,
        &list,
        &[
            (0, 2, Claimed::None),
            (2, 2, Claimed::One(Label::Gap)),
            (4, 1, Claimed::Many),
            (5, 5, Claimed::One(Label::Tail)),
        ],
    );
    Ok(())
}
