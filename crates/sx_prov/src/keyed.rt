//! The labels that a key gives for the bytes of a page.
ghost use Rattle.std.specs.Prelude.{◌≡◌, nat_lt, if◌then◌else◌, ℕ, ◌+◌, ◌-◌, ◌*◌, ◌/◌, ◌<◌, ◌≤◌, ◌++◌, [], ◌∷◌, length, replicate, map, min, slice_index_or, All, IsPermutation, IsTrue, IfOk, OnOk};
ghost use Rattle.sx_node.specs.Nodes.{node_of, content_start};
ghost use Rattle.sx_node.specs.Claims.{LiesWithin, claims_of};
ghost use Rattle.sx_free.specs.Trunks.{trunk_of};
ghost use Rattle.sx_seglist.specs.Claims.{AreCounted, claimed_by};
ghost use Rattle.sx_seglist.specs.Runs.{state_at};
ghost use Rattle.sx_prov.specs.Labels.{if_node, node_label, trunk_label, map_label, body_label};
ghost use Rattle.sx_prov.specs.Keys.{standing_label, key_label, keyed_labels};
ghost use Rattle.sx_prov.specs.Filling.{up_to, state_label, Fills};

use crate::key::{PageKey, Standing};
use crate::map::PageMap;
use std::alloc::{AllocError, Global};
use sx_base::{Label, Span};
use sx_free::read_trunk;
use sx_node::{Node, NodeFault, read_node};
use sx_seglist::{Claimed, SegList};

/// The map of a page with these bytes and this key.
///
/// The key's usable bytes are from 480 to the length of the view, which is at most 65536. On a b-tree page the cost is
/// that of sorting the claims by their start; the claims' lengths don't matter, since each adds two runs at most. The
/// memory is in proportion to the claims while the map is made, and then to its runs. It answers `AllocError` where memory
/// runs out.
#[tactic(auto, unfolding(crate::specs::Keys::keyed_labels, crate::specs::Keys::key_label))]
pub fn keyed_map(alloc: Global, view: &[u8], key: PageKey) -> Result<PageMap, AllocError>
    requires least { 480 ≤ key.usable }
    requires within { key.usable ≤ length view.now }
    requires small { length view.now ≤ 65536 }
    ensures exact { IfOk result (λ map. map ≡ keyed_labels key view.now) }
    ensures len { IfOk result (λ map. length map ≡ length view.now) }
{
    let mut map = PageMap::new(alloc);
    put_standing(alloc, &mut map, view, key)?;
    map.put(view.len() as u32, Label::Reserved)?;
    Ok(map)
}

/// Gives the usable bytes of a page their labels.
#[tactic(auto, unfolding(crate::specs::Keys::standing_label))]
fn put_standing(
    alloc: Global,
    map: &mut PageMap,
    view: &[u8],
    key: PageKey,
) -> Result<(), AllocError>
    requires none { map.old ≡ [] }
    requires least { 480 ≤ key.usable }
    requires within { key.usable ≤ length view.now }
    requires small { length view.now ≤ 65536 }
    ensures { OnOk result (map.new ≡ up_to (standing_label key.standing view.now key.usable) key.usable) }
{
    let usable = key.usable;
    match key.standing {
        Standing::Unreached => put_all(map, usable, Label::Unreached),
        Standing::DoubleClaim => put_all(map, usable, Label::DoubleClaim),
        Standing::Map => put_two(
            map,
            5 * (usable / 5),
            usable,
            Label::Entries,
            Label::MapRest,
        ),
        Standing::Trunk => put_trunk(map, view, usable),
        Standing::FreeLeaf => put_all(map, usable, Label::FreeLeaf),
        Standing::Behind => put_all(map, usable, Label::Behind),
        Standing::LongChain => put_all(map, usable, Label::LongChain),
        Standing::Body(count) => put_body(map, count, usable),
        Standing::FirstNode => put_node(alloc, map, view, 1, usable),
        Standing::Node => put_node(alloc, map, view, 2, usable),
    }
}

/// Gives one label to the usable bytes.
fn put_all(map: &mut PageMap, usable: u32, label: Label) -> Result<(), AllocError>
    requires none { map.old ≡ [] }
    requires small { usable ≤ 65536 }
    ensures { OnOk result (map.new ≡ up_to (λ at. label) usable) }
{
    map.put(usable, label)?;
    Ok(())
}

/// Gives one label to the usable bytes below an offset, and another to the others.
fn put_two(
    map: &mut PageMap,
    middle: u32,
    usable: u32,
    front: Label,
    back: Label,
) -> Result<(), AllocError>
    requires none { map.old ≡ [] }
    requires middle { middle ≤ usable }
    requires small { usable ≤ 65536 }
    ensures { OnOk result (map.new ≡ up_to (λ at. if nat_lt at middle then front else back) usable) }
{
    map.put(middle, front)?;
    map.put(usable, back)?;
    Ok(())
}

/// The labels of a freelist trunk page ("The Freelist").
fn put_trunk(map: &mut PageMap, view: &[u8], usable: u32) -> Result<(), AllocError>
    requires none { map.old ≡ [] }
    requires least { 480 ≤ usable }
    requires within { usable ≤ length view.now }
    requires small { length view.now ≤ 65536 }
    ensures { OnOk result (map.new ≡ up_to (trunk_label (trunk_of view.now usable)) usable) }
{
    match read_trunk(view, usable) {
        Ok(trunk) => {
            let head = 8 + 4 * trunk.leaves();
            put_two(map, head, usable, Label::TrunkHead, Label::TrunkRest)
        }
        Err(_) => put_all(map, usable, Label::BadTrunk),
    }
}

/// The labels of an overflow page that holds so many bytes of a payload ("Cell Payload Overflow Pages").
fn put_body(map: &mut PageMap, count: u32, usable: u32) -> Result<(), AllocError>
    requires none { map.old ≡ [] }
    requires least { 480 ≤ usable }
    requires small { usable ≤ 65536 }
    ensures { OnOk result (map.new ≡ up_to (body_label count) usable) }
{
    map.put(4, Label::Link)?;
    map.put(4 + count.min(usable - 4), Label::Body)?;
    map.put(usable, Label::Tail)?;
    Ok(())
}

/// The labels of a b-tree page of that number ("B-tree Pages").
fn put_node(
    alloc: Global,
    map: &mut PageMap,
    view: &[u8],
    no: u32,
    usable: u32,
) -> Result<(), AllocError>
    requires none { map.old ≡ [] }
    requires least { 480 ≤ usable }
    requires within { usable ≤ length view.now }
    requires small { length view.now ≤ 65536 }
    ensures { OnOk result (map.new ≡ up_to (if_node (node_of view.now no usable)) usable) }
{
    match read_node(view, no, usable) {
        Ok(node) => put_claims(alloc, map, &node, usable),
        Err(NodeFault::BadFlag) => put_all(map, usable, Label::BadNode),
        Err(NodeFault::BadArray) => put_all(map, usable, Label::BadArray),
    }
}

/// The labels that the claims of a b-tree page give.
fn put_claims(
    alloc: Global,
    map: &mut PageMap,
    node: &Node<'_>,
    usable: u32,
) -> Result<(), AllocError>
    requires none { map.old ≡ [] }
    requires usable { node.now.usable ≡ usable }
    requires least { 480 ≤ usable }
    requires small { usable ≤ 65536 }
    ensures { OnOk result (map.new ≡ up_to (node_label node.now) usable) }
{
    let claims = sorted_claims(alloc, node)?;
    let mut apart = PageMap::new(alloc);
    if put_apart(&mut apart, &claims, node.content(), usable)? {
        *map = apart;
        return Ok(());
    }
    let states = count_claims(alloc, &claims, usable)?;
    put_states(map, &states, node.content())?;
    Ok(())
}

/// Gives the bytes their labels where each claim begins behind the end of the one before: whether that is so. Else the map is of
/// no use.
fn put_apart(
    map: &mut PageMap,
    claims: &[(Span, Label)],
    content: u32,
    usable: u32,
) -> Result<bool, AllocError>
    requires none { map.old ≡ [] }
    requires small { usable ≤ 65536 }
    requires within { All (LiesWithin usable) claims.now }
    ensures { IfOk result (λ apart. IsTrue apart → map.new ≡ up_to (λ at. state_label content (claimed_by claims.now at) at) usable) }
{
    let mut end = 0;
    for (span, label) in claims {
        if span.start < end {
            return Ok(false);
        }
        put_unclaimed(map, span.start, content)?;
        end = span.start + span.len;
        put_one(map, end, *label)?;
    }
    put_unclaimed(map, usable, content)?;
    Ok(true)
}

/// The claims of a b-tree page by rising start. The sort takes no memory.
fn sorted_claims(alloc: Global, node: &Node<'_>) -> Result<Vec<(Span, Label)>, AllocError>
    ensures sorted { IfOk result (λ claims. IsPermutation (claims_of node.now) claims.items) }
    ensures within { All (LiesWithin node.now.usable) (claims_of node.now) }
{
    let mut claims: Vec<(Span, Label)> = node.claims().collect(alloc)?;
    claims.sort_unstable_by_key(|claim| claim.0.start);
    Ok(claims)
}

/// Counts claims in so many bytes.
fn count_claims(alloc: Global, claims: &[(Span, Label)], len: u32) -> Result<SegList, AllocError>
    requires some { 1 ≤ len }
    requires small { len ≤ 65536 }
    requires within { All (LiesWithin len) claims.now }
    ensures len { IfOk result (λ states. length states ≡ len) }
    ensures counted { IfOk result (AreCounted claims.now) }
{
    let mut states = SegList::fresh(alloc, len)?;
    for (span, label) in claims {
        states.claim(*span, *label)?;
    }
    Ok(states)
}

/// The labels of the bytes by what is claimed of them.
fn put_states(map: &mut PageMap, states: &SegList, content: u32) -> Result<(), AllocError>
    requires none { map.old ≡ [] }
    requires small { length states.now ≤ 65536 }
    ensures { OnOk result (map.new ≡ up_to (λ at. state_label content (state_at states.now at) at) (length states.now)) }
{
    let mut runs = states.walk();
    while let Some((span, claimed)) = runs.next() {
        put_claimed(map, span.start + span.len, claimed, content)?;
    }
    Ok(())
}

/// Gives the bytes up to an end the label of what is claimed of them.
fn put_claimed(
    map: &mut PageMap,
    end: u32,
    claimed: Claimed,
    content: u32,
) -> Result<(), AllocError>
    requires behind { length map.old ≤ end }
    requires small { end ≤ 65536 }
    ensures { OnOk result (Fills (state_label content claimed) (length map.old) end map.old map.new) }
{
    match claimed {
        Claimed::None => put_unclaimed(map, end, content),
        Claimed::One(label) => put_one(map, end, label),
        Claimed::Many => put_one(map, end, Label::Overlap),
    }
}

/// Gives the bytes up to an end one label.
fn put_one(map: &mut PageMap, end: u32, label: Label) -> Result<(), AllocError>
    requires behind { length map.old ≤ end }
    requires small { end ≤ 65536 }
    ensures { OnOk result (Fills (λ at. label) (length map.old) end map.old map.new) }
{
    map.put(end, label)?;
    Ok(())
}

/// Gives the bytes up to an end, which nothing claims, their label by where the content area begins.
fn put_unclaimed(map: &mut PageMap, end: u32, content: u32) -> Result<(), AllocError>
    requires behind { length map.old ≤ end }
    requires small { end ≤ 65536 }
    ensures { OnOk result (Fills (state_label content Claimed.None) (length map.old) end map.old map.new) }
{
    map.put(end.min(content), Label::Gap)?;
    map.put(end, Label::Fragment)?;
    Ok(())
}
