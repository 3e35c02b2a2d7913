//! Which form is chosen.
ghost use Rattle.std.specs.Prelude.{◌≡◌, take, ◌+◌, ◌-◌, ◌*◌, ◌^◌, ◌<◌, ◌≤◌, length, IfSome};
ghost use Rattle.sx_grammar.specs.Shorts.{Finds};
ghost use Rattle.sx_grammar.specs.Choice.{Rises, tails_from, types_from, lost_from, clipped_in};

use crate::clip::{Setting, goes_on, tail_in};
use crate::front::{Front, front_of, lost_made, types_made};
use crate::reading::Reading;
use crate::shape::ShapeKey;

/// The first tail, of what may stand behind the four bytes.
#[tactic(auto, using(crate::proofs::ChoiceLemmas::tails_end, crate::proofs::ChoiceLemmas::tails_hit, crate::proofs::ChoiceLemmas::tails_next, crate::proofs::EarlyLemmas::tails_stop))]
fn first_tail(setting: Setting, behind: &[u8]) -> Option<Reading<'_>>
    requires { length behind.now ≤ 65536 }
    ensures { Finds (λ reading. reading) result (tails_from (record { offset = setting.offset; block = setting.block; longest = setting.longest }) behind.now 0) }
{
    for e in 0..9 {
        if !goes_on(behind, e) {
            return None;
        }
        if let Some(reading) = tail_in(e, setting, behind) {
            return Some(reading);
        }
    }
    None
}

/// The types of the first shape that fit.
#[tactic(auto, using(crate::proofs::ChoiceLemmas::types_end, crate::proofs::ChoiceLemmas::types_stop, crate::proofs::ChoiceLemmas::types_hit, crate::proofs::ChoiceLemmas::types_next, crate::proofs::ChoiceLemmas::front_next, crate::proofs::ChoiceLemmas::front_begin, crate::proofs::FrontLemmas::front_counted))]
fn first_types<'a>(setting: Setting, behind: &'a [u8], shapes: &[ShapeKey]) -> Option<Reading<'a>>
    requires few { length behind.now ≤ 65536 }
    requires rise { Rises 1 shapes.now }
    ensures { Finds (λ reading. reading) result (types_from (record { offset = setting.offset; block = setting.block; longest = setting.longest }) behind.now shapes.now) }
{
    let mut read = Front {
        sum: 0,
        rest: behind,
    };
    let mut columns = 0;
    let mut left = shapes;
    while let Some((shape, others)) = left.split_first() {
        read = front_of(behind.len(), shape.columns - columns, &read)?;
        columns = shape.columns;
        if let Some(reading) = types_made(columns, setting, behind, &read) {
            return Some(reading);
        }
        left = others;
    }
    None
}

/// The lost types of the first shape that fit.
#[tactic(auto, using(crate::proofs::ChoiceLemmas::lost_end, crate::proofs::ChoiceLemmas::lost_stop, crate::proofs::ChoiceLemmas::lost_hit, crate::proofs::ChoiceLemmas::lost_next, crate::proofs::ChoiceLemmas::front_next, crate::proofs::ChoiceLemmas::rises_less))]
fn first_lost<'a>(
    setting: Setting,
    whole: bool,
    behind: &'a [u8],
    shapes: &[ShapeKey],
) -> Option<Reading<'a>>
    requires few { length behind.now ≤ 65536 }
    requires rise { Rises 1 shapes.now }
    ensures { Finds (λ reading. reading) result (lost_from (record { offset = setting.offset; block = setting.block; longest = setting.longest }) whole behind.now shapes.now) }
{
    let mut read = Front {
        sum: 0,
        rest: behind,
    };
    let mut columns = 0;
    let mut left = shapes;
    while let Some((shape, others)) = left.split_first() {
        read = front_of(behind.len(), shape.columns - 1 - columns, &read)?;
        columns = shape.columns - 1;
        if let Some(reading) = lost_made(
            shape.columns,
            shape.alias,
            setting,
            whole,
            behind,
            &read,
        ) {
            return Some(reading);
        }
        left = others;
    }
    None
}

/// The first clipped form, of what may stand behind the four bytes.
#[tactic(auto, unfolding(crate::specs::Choice::clipped_in))]
pub fn clipped_in<'a>(
    shapes: &[ShapeKey],
    setting: Setting,
    whole: bool,
    behind: &'a [u8],
) -> Option<Reading<'a>>
    requires few { length behind.now ≤ 65536 }
    requires rise { Rises 1 shapes.now }
    ensures { Finds (λ reading. reading) result (clipped_in shapes.now (record { offset = setting.offset; block = setting.block; longest = setting.longest }) whole behind.now) }
{
    if let Some(reading) = first_tail(setting, behind) {
        return Some(reading);
    }
    if let Some(reading) = first_types(setting, behind, shapes) {
        return Some(reading);
    }
    first_lost(setting, whole, behind, shapes)
}
