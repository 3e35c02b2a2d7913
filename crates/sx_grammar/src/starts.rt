//! Places at which no candidate can begin.
ghost use Rattle.std.specs.Prelude.{◌≡◌, ℕ, List, None, ◌<◌, ◌≤◌, length, drop, slice_index};
ghost use Rattle.sx_grammar.specs.declared.shape.ShapeKey.{ShapeKey};
ghost use Rattle.sx_grammar.specs.Clips.{Setting};
ghost use Rattle.sx_grammar.specs.Choice.{accepted_at};

use sx_bytes::be64;

/// The next place of a run, from `at` on, at which a candidate can begin: no form begins with four zero bytes.
///
/// The cost is linear in the places that are passed over, eight of them at a time. Takes no memory.
#[inline]
#[tactic(auto, using(crate::proofs::StartLemmas::none_passed))]
pub fn next_start(run: &[u8], at: u32) -> u32
    requires within { at ≤ length run.now }
    requires small { length run.now ≤ 65536 }
    ensures none { (usable : ℕ) (shapes : List ShapeKey) (setting : Setting) (place : ℕ) → 480 ≤ usable → at ≤ place → place < result → accepted_at usable shapes setting (drop place run.now) ≡ None }
    ensures behind { at ≤ result }
    ensures inside { result ≤ length run.now }
{
    if (at as usize) < run.len() && run[at as usize] == 0 {
        past_zeros(run, at)
    } else {
        at
    }
}

/// The same, where a zero stands there.
#[inline(never)]
#[tactic(auto, using(crate::proofs::StartLemmas::none_passed))]
fn past_zeros(run: &[u8], at: u32) -> u32
    requires within { at ≤ length run.now }
    requires small { length run.now ≤ 65536 }
    ensures none { (usable : ℕ) (shapes : List ShapeKey) (setting : Setting) (place : ℕ) → 480 ≤ usable → at ≤ place → place < result → accepted_at usable shapes setting (drop place run.now) ≡ None }
    ensures behind { at ≤ result }
    ensures inside { result ≤ length run.now }
{
    let mut end = past_words(run, at as usize);
    while end < run.len() && run[end] == 0 {
        end += 1;
    }
    if end - at as usize >= 4 {
        end as u32 - 3
    } else {
        at
    }
}

/// The place behind the zeros from one on, as far as eight of them stand together.
fn past_words(run: &[u8], at: usize) -> usize
    requires within { at ≤ length run.now }
    ensures behind { at ≤ result }
    ensures inside { result ≤ length run.now }
    ensures zeros { (k : ℕ) → at ≤ k → k < result → slice_index run.now k ≡ 0 }
{
    let mut end = at;
    while run.len() - end >= 8 && be64(run, end) == 0 {
        end += 8;
    }
    end
}
