//! Answers of small lists, and a list of a million numbers that is asked two million times.
ghost use Rattle.std.specs.Prelude.{◌≡◌, ◌<◌};

use super::*;
use std::marker::Brand;
use std::sync::ledger::{Blank, Ledger};
use std::test::Fail;
use sx_base::Steps;

fn newest_of<L: Ledger>(chains: &Chains, page: u32, before: u32, blank: Blank) -> Option<u32>
    requires name { blank.name ≡ L.name }
    requires parts { blank.parts ≡ L.parts }
    requires some_parts { 0 < blank.parts }
{
    let mut steps = Steps::<L>::zero(blank);
    chains.newest(page, before, &mut steps)
}

fn newest(chains: &Chains, page: u32, before: u32) -> Option<u32> {
    newest_of::<Brand>(chains, page, before, Blank::new(1))
}

#[test]
fn newest_below_a_bound(rt: HostRuntime) -> Result<(), Fail> {
    let chains = build(rt.alloc(), &[2, 2, 1, 2])?;
    for (page, before, place) in [
        (2, 4, Some(3)),
        (2, 3, Some(1)),
        (2, 1, Some(0)),
        (2, 0, None),
        (2, 9, Some(3)),
        (1, 2, None),
        (1, 3, Some(2)),
        (5, 4, None),
    ] {
        assert_eq!(rt;
            newest(&chains, page, before),
            place,
            "page {page} before {before}"
        );
    }
    Ok(())
}

#[test]
fn least_and_greatest_numbers(rt: HostRuntime) -> Result<(), Fail> {
    let none = build(rt.alloc(), &[])?;
    let ends = build(rt.alloc(), &[0, u32::MAX, 0])?;
    assert_eq!(rt; newest(&none, 0, 0), None);
    assert_eq!(rt; newest(&none, 0, u32::MAX), None);
    assert_eq!(rt; newest(&ends, 0, u32::MAX), Some(2));
    assert_eq!(rt; newest(&ends, 0, 2), Some(0));
    assert_eq!(rt; newest(&ends, u32::MAX, 2), Some(1));
    assert_eq!(rt; newest(&ends, u32::MAX, 1), None);
    Ok(())
}

#[test]
fn oldest_of_a_number(rt: HostRuntime) -> Result<(), Fail> {
    let chains = build(rt.alloc(), &[2, 2, 1, 2])?;
    assert_eq!(rt; chains.numbers(), [1, 2].as_slice());
    assert_eq!(rt; chains.oldest(2), Some(0));
    assert_eq!(rt; chains.oldest(1), Some(2));
    assert_eq!(rt; chains.oldest(5), None);
    Ok(())
}

#[test]
fn a_million_numbers(rt: HostRuntime) -> Result<(), Fail> {
    let numbers: Vec<u32> = (0..1_000_000u32).collect(rt.alloc())?;
    assert_eq!(rt; numbers.len(), 1_000_000);
    let chains = build(rt.alloc(), &numbers)?;
    for page in 0..2_000_000u32 {
        let place = if page < 1_000_000 { Some(page) } else { None };
        assert_eq!(rt; newest(&chains, page, 1_000_000), place, "page {page}");
    }
    Ok(())
}

#[test]
fn one_number_a_million_times(rt: HostRuntime) -> Result<(), Fail> {
    let chains = build(rt.alloc(), &vec![in rt.alloc(); 7u32; 1_000_000]?)?;
    for (before, place) in [
        (1_000_000, Some(999_999)),
        (500_000, Some(499_999)),
        (1, Some(0)),
        (0, None),
    ] {
        assert_eq!(rt; newest(&chains, 7, before), place, "before {before}");
    }
    assert_eq!(rt; chains.oldest(7), Some(0));
    Ok(())
}
