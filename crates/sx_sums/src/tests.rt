//! Sums while pages come, go and change.
ghost use Rattle.std.specs.Prelude.{◌≡◌};

use super::*;
use std::test::Fail;
use sx_base::{Layout, Part, Place};
use sx_prov::{PageKey, Standing, Totals};

/// A page of 512 bytes that begins at an offset of the database, and whose bytes are in the groups so.
fn labelled(offset: u64, owned: u32, slack: u32, fault: u32) -> Labelled
    ensures totals { result.totals ≡ record { owned = owned; slack = slack; fault = fault } }
{
    Labelled {
        place: Place {
            part: Part::Database,
            offset,
        },
        key: PageKey {
            usable: 512,
            standing: Standing::Node,
        },
        totals: Totals {
            owned,
            slack,
            fault,
        },
    }
}

/// A database with pages of that size.
fn layout(page_size: u32) -> Layout
    ensures size { result.page_size ≡ page_size }
{
    Layout {
        page_size,
        usable: page_size,
        pages: 3,
        pointer_maps: false,
        free_head: 0,
    }
}

#[test]
fn sums_follow_the_pages_that_are_shown(rt: HostRuntime) -> Result<(), Fail> {
    let mut sums = Sums::fresh(rt.alloc(), 2)?;
    assert_eq!(rt; sums.last(1), None);
    sums.show(0, labelled(0, 300, 200, 12));
    sums.show(1, labelled(512, 0, 512, 0));
    assert_eq!(rt; sums.owned(), 300);
    assert_eq!(rt; sums.slack(), 712);
    assert_eq!(rt; sums.fault(), 12);
    sums.show(0, labelled(0, 400, 100, 12));
    sums.hide(1);
    assert_eq!(rt; sums.last(1), Some(labelled(512, 0, 512, 0)));
    let few = moment_totals(&sums, 3, 1, &layout(512));
    assert_eq!(rt;
        few,
        PageTotals {
            owned: 400,
            slack: 100,
            fault: 1036
        }
    );
    // The lock-byte page of pages of 65536 bytes is page 16385.
    let many = moment_totals(&sums, 16_386, 1, &layout(65_536));
    assert_eq!(rt;
        many,
        PageTotals {
            owned: 65_936,
            slack: 100,
            fault: 1_073_741_836
        }
    );
    Ok(())
}
