//! Fronts of a list of counts between changes.

use super::*;
use std::test::Fail;

#[test]
fn fronts_between_changes(rt: HostRuntime) -> Result<(), Fail> {
    let none = Tally::zeros(rt.alloc(), 0)?;
    assert_eq!(rt; none.front(0), 0);
    let mut five = Tally::zeros(rt.alloc(), 5)?;
    five.raise(3);
    five.raise(0);
    five.raise(3);
    for (end, sum) in [(0usize, 0), (1, 1), (2, 1), (3, 1), (4, 3), (5, 3)] {
        assert_eq!(rt; five.front(end), sum, "end {end}");
    }
    Ok(())
}
