//! Segments linked by index: found, cut, raised and joined.
ghost use Rattle.std.specs.Prelude.{◌≢◌, ◌+◌, ◌<◌, ◌≤◌, vec_len, vec_capacity};
ghost use Rattle.sx_seglist.specs.Links.{IsList, IsLive, IsStart, IsHolder, IsCut, IsRaised, IsJoined, len_of, start_of, next_of};

use crate::segment::{END, Segment};
use sx_base::Label;

/// The segment that holds a byte, looked for from a segment on, or from the first one where that begins behind the byte.
#[tactic(auto, using(crate::proofs::Steps::live_length, crate::proofs::Steps::next_length))]
pub(crate) fn holder_of(items: &[Segment], from: usize, at: u32) -> usize
    requires list { IsList items.now }
    requires live { IsLive items.now from }
    requires before_end { from ≢ 1 }
    requires within { at < len_of items.now }
    ensures { IsHolder items.now at result }
{
    let mut found = if items[from].start <= at { from } else { 0 };
    loop {
        let next = items[found].next;
        if at < items[next].start {
            return found;
        }
        found = next;
    }
}

/// Cuts a segment in two at one of its bytes, unless it begins or ends there, and answers which segment begins there.
#[tactic(auto, using(crate::proofs::Steps::live_length, crate::proofs::Steps::next_length))]
pub(crate) fn cut(items: &mut Vec<Segment>, whole: usize, at: u32) -> usize
    requires list { IsList items.old.items }
    requires live { IsLive items.old.items whole }
    requires before_end { whole ≢ 1 }
    requires begins { start_of items.old.items whole ≤ at }
    requires ends { at ≤ start_of items.old.items (next_of items.old.items whole) }
    requires room { vec_len items.old < vec_capacity items.old }
    ensures cut { IsCut items.old.items items.new.items at result }
    ensures len { vec_len items.new ≤ vec_len items.old + 1 }
    ensures room { vec_capacity items.old ≤ vec_capacity items.new }
{
    let segment = items[whole];
    if segment.start == at {
        return whole;
    }
    if items[segment.next].start == at {
        return segment.next;
    }
    let behind = items.len();
    let _ = items.push(Segment {
        start: at,
        next: segment.next,
        claimed: segment.claimed,
    });
    items[whole] = Segment {
        next: behind,
        ..segment
    };
    behind
}

/// One claim more holds the bytes of the segments from one up to a byte at which one begins.
#[tactic(auto, using(crate::proofs::Steps::live_length, crate::proofs::Steps::next_length))]
pub(crate) fn raise(items: &mut [Segment], first: usize, end: u32, label: Label)
    requires list { IsList items.old }
    requires live { IsLive items.old first }
    requires some { start_of items.old first ≤ end }
    requires end { IsStart items.old end }
    ensures { IsRaised items.old items.new (start_of items.old first) end label }
{
    let mut index = first;
    while items[index].start < end {
        let segment = items[index];
        items[index] = Segment {
            claimed: segment.claimed.once_more(label),
            ..segment
        };
        index = segment.next;
    }
}

/// Joins neighbours of which the same is claimed, from a segment on up to the one that begins at a byte.
#[tactic(auto, using(crate::proofs::Steps::live_length, crate::proofs::Steps::next_length))]
pub(crate) fn join(items: &mut [Segment], first: usize, end: u32)
    requires list { IsList items.old }
    requires live { IsLive items.old first }
    requires before_end { first ≢ 1 }
    ensures { IsJoined items.old items.new first end }
{
    let mut index = first;
    loop {
        let segment = items[index];
        let next = items[segment.next];
        if segment.next == END || end < next.start {
            return;
        }
        if next.claimed.is(segment.claimed) {
            items[index] = Segment {
                next: next.next,
                ..segment
            };
        } else {
            index = segment.next;
        }
    }
}
