//! How much of a payload stands in its cell, and how many overflow pages the rest needs.
ghost use Rattle.std.specs.Prelude.{◌≡◌, ◌≤◌};
ghost use Rattle.sx_cell.specs.Local.{longest_local, least_local, fitted_local, local_below, local_of, need_of};
ghost use Rattle.sx_cell.specs.declared.cell.Kind.TheVariants.{IndexLeaf};

use crate::cell::Kind;

/// The greatest length of a payload in bytes.
pub const LONGEST_PAYLOAD: u64 = 2147483647;

/// The bytes of the number of an overflow page, as it stands behind a local part and at the front of an overflow page.
pub const LINK_LEN: u32 = 4;

/// The usable bytes of a page that a row leaves where it stands in its cell as a whole.
const LEFT_BY_ROWS: u32 = 35;

/// The greatest part of a page for a whole payload of an index, and the least of a longer payload, in 255ths.
const GREATEST_PART: u32 = 64;

const LEAST_PART: u32 = 32;

const PARTS: u32 = 255;

/// The bytes of a page that aren't divided, and those of its part that a cell has besides its payload.
const UNDIVIDED: u32 = 12;

const BESIDES: u32 = 23;

/// How many bytes of a payload stand in its cell, on pages with so many usable bytes, from 480 to 65536 ("Cell Payload
/// Overflow Pages"). 0 for interior cells of a table, which have no payload.
#[tactic(auto, unfolding(crate::specs::Local::local_of))]
pub fn local_len(kind: Kind, payload: u64, usable: u32) -> u32
    requires least { 480 ≤ usable }
    requires greatest { usable ≤ 65536 }
    ensures value { result ≡ local_of kind payload usable }
    ensures part { result ≤ payload }
    ensures within { result ≤ usable }
{
    match kind {
        Kind::TableLeaf => local_below(usable - LEFT_BY_ROWS, payload, usable),
        Kind::TableInner => 0,
        Kind::IndexLeaf | Kind::IndexInner => {
            local_below(longest_of_index(usable), payload, usable)
        }
    }
}

/// How many bytes of a payload stand in its cell, where at most `longest` may.
#[tactic(auto, unfolding(crate::specs::Local::local_below))]
fn local_below(longest: u32, payload: u64, usable: u32) -> u32
    requires least { 480 ≤ usable }
    requires greatest { usable ≤ 65536 }
    requires some { least_local usable ≤ longest }
    requires most { longest ≤ usable }
    ensures value { result ≡ local_below longest payload usable }
    ensures part { result ≤ payload }
    ensures within { result ≤ usable }
{
    if payload <= u64::from(longest) {
        return payload as u32;
    }
    let fitted = fitted_local(payload, usable);
    if fitted <= longest {
        fitted
    } else {
        least_local(usable)
    }
}

/// The least local length of a spilled payload that fills its last overflow page.
#[tactic(auto, unfolding(crate::specs::Local::fitted_local))]
fn fitted_local(payload: u64, usable: u32) -> u32
    requires least { 480 ≤ usable }
    requires greatest { usable ≤ 65536 }
    ensures { result ≡ fitted_local payload usable }
{
    let least = least_local(usable);
    least + (payload.saturating_sub(u64::from(least)) % u64::from(usable - LINK_LEN)) as u32
}

/// The longest payload of an index that stands in its cell as a whole.
fn longest_of_index(usable: u32) -> u32
    requires least { 480 ≤ usable }
    requires greatest { usable ≤ 65536 }
    ensures { result ≡ longest_local IndexLeaf usable }
{
    (usable - UNDIVIDED) * GREATEST_PART / PARTS - BESIDES
}

/// The least local length of a spilled payload.
fn least_local(usable: u32) -> u32
    requires least { 480 ≤ usable }
    requires greatest { usable ≤ 65536 }
    ensures { result ≡ least_local usable }
{
    (usable - UNDIVIDED) * LEAST_PART / PARTS - BESIDES
}

/// How many overflow pages hold so many bytes of payload, on pages with so many usable bytes, 480 or more ("Cell Payload
/// Overflow Pages").
#[tactic(auto, using(crate::proofs::NeedLemmas::few_pages))]
pub fn need_of(usable: u32, left: u64) -> u64
    requires { 480 ≤ usable }
    ensures value { result ≡ need_of usable left }
    ensures few { result ≤ left }
{
    left.div_ceil(u64::from(usable - LINK_LEN))
}
