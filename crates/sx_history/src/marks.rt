//! The pages that a walk over a tree may go to, marked by rank.
ghost use Rattle.std.specs.Prelude.{◌≡◌, ◌<◌, ◌≤◌, [], false, true, length, map, replicate, slice_index, option_copied, All, IsTrue, IfOk, OnOk};
ghost use Rattle.std.specs.List.{All as AllOf};
ghost use Rattle.std.specs.List.Sorted.{IsStrictlyIncreasing};
ghost use Rattle.sx_history.specs.Closed.{AllNamed, IsLinked, IsNamed};
ghost use Rattle.sx_history.specs.Marks.{AreKept, AreLinkedBut, AreMarked, AreNamedBut, AreWhole, Grows, IsNoted, is_marked, view_at};

use crate::setting::Setting;
use std::alloc::{AllocError, Global};
use sx_bytes::be32;
use sx_node::{NodeTarget, Targets, read_node};

/// Whether the marks of the moment before serve on at one with so many usable bytes.
pub(crate) fn marks_fit(stands: bool, before: u32, usable: u32) -> bool
    ensures { IsTrue result → (stands ≡ true) × (before ≡ usable) }
{
    stands && before == usable
}

/// Marks on, once some pages changed; all over, where the marks don't serve on.
pub(crate) fn mark_again(
    alloc: Global,
    numbers: &[u32],
    views: &[Option<&[u8]>],
    fits: bool,
    setting: &Setting,
    changed: &[u32],
    nodes: &mut Vec<bool>,
    chains: &mut Vec<bool>,
) -> Result<(), AllocError>
    requires rising { IsStrictlyIncreasing numbers.now }
    requires views { length views.now ≡ length numbers.now }
    requires nodes { length nodes.old.items ≡ length numbers.now }
    requires chains { length chains.old.items ≡ length numbers.now }
    requires ranks { All (λ rank. rank < length numbers.now) changed.now }
    requires least { 480 ≤ setting.now.usable }
    requires whole { AreWhole setting.now.usable (map option_copied views.now) }
    requires named { fits ≡ true → AreNamedBut numbers.now (map option_copied views.now) setting.now.usable nodes.old.items chains.old.items changed.now }
    requires linked { fits ≡ true → AreLinkedBut numbers.now (map option_copied views.now) chains.old.items changed.now }
    ensures nodes { length nodes.new.items ≡ length numbers.now }
    ensures chains { length chains.new.items ≡ length numbers.now }
    ensures marked { OnOk result (AreMarked numbers.now (map option_copied views.now) setting.now.usable setting.now.root nodes.new.items chains.new.items) }
{
    if !fits {
        clear(nodes);
        clear(chains);
    }
    mark_on(
        alloc,
        numbers,
        views,
        setting.usable,
        setting.root,
        changed,
        nodes,
        chains,
    )
}

/// Takes all marks away.
fn clear(marks: &mut Vec<bool>)
    ensures { marks.new.items ≡ replicate (length marks.old.items) false }
{
    marks.fill(false);
}

/// Marks on, once the pages of some ranks changed: the root, and with each marked page what it leads to now.
///
/// Each page that is marked or changed is read once. It answers `AllocError` where memory runs out; then some marks are
/// missing.
pub(crate) fn mark_on(
    alloc: Global,
    numbers: &[u32],
    views: &[Option<&[u8]>],
    usable: u32,
    root: u32,
    changed: &[u32],
    nodes: &mut Vec<bool>,
    chains: &mut Vec<bool>,
) -> Result<(), AllocError>
    requires rising { IsStrictlyIncreasing numbers.now }
    requires views { length views.now ≡ length numbers.now }
    requires nodes { length nodes.old.items ≡ length numbers.now }
    requires chains { length chains.old.items ≡ length numbers.now }
    requires ranks { All (λ rank. rank < length numbers.now) changed.now }
    requires least { 480 ≤ usable }
    requires whole { AreWhole usable (map option_copied views.now) }
    requires named { AreNamedBut numbers.now (map option_copied views.now) usable nodes.old.items chains.old.items changed.now }
    requires linked { AreLinkedBut numbers.now (map option_copied views.now) chains.old.items changed.now }
    ensures nodes { length nodes.new.items ≡ length numbers.now }
    ensures chains { length chains.new.items ≡ length numbers.now }
    ensures marked { OnOk result (AreMarked numbers.now (map option_copied views.now) usable root nodes.new.items chains.new.items) }
{
    let mut work = ranks_of(alloc, changed)?;
    let mut later = ranks_of(alloc, changed)?;
    note(numbers, nodes, &mut work, root)?;
    note_nodes(numbers, views, usable, nodes, chains, &mut work, &mut later)?;
    note_chains(numbers, views, usable, chains, &mut later)
}

/// The same ranks.
fn ranks_of(alloc: Global, changed: &[u32]) -> Result<Vec<usize>, AllocError>
    ensures { IfOk result (λ ranks. ranks.items ≡ changed.now) }
{
    let mut ranks = Vec::with_capacity(alloc, changed.len())?;
    for rank in changed {
        ranks.push(*rank as usize)?;
    }
    Ok(ranks)
}

/// Marks what the b-tree pages of the listed ranks name, as far as they are marked, and what those name, until none is left.
/// The ranks that are marked as overflow pages are listed for later.
fn note_nodes(
    numbers: &[u32],
    views: &[Option<&[u8]>],
    usable: u32,
    nodes: &mut Vec<bool>,
    chains: &mut Vec<bool>,
    work: &mut Vec<usize>,
    later: &mut Vec<usize>,
) -> Result<(), AllocError>
    requires rising { IsStrictlyIncreasing numbers.now }
    requires views { length views.now ≡ length numbers.now }
    requires nodes { length nodes.old.items ≡ length numbers.now }
    requires chains { length chains.old.items ≡ length numbers.now }
    requires ranks { All (λ rank. rank < length numbers.now) work.old.items }
    requires later { All (λ rank. rank < length numbers.now) later.old.items }
    requires least { 480 ≤ usable }
    requires whole { AreWhole usable (map option_copied views.now) }
    requires named { AreNamedBut numbers.now (map option_copied views.now) usable nodes.old.items chains.old.items work.old.items }
    ensures nodes { length nodes.new.items ≡ length numbers.now }
    ensures chains { length chains.new.items ≡ length numbers.now }
    ensures later { All (λ rank. rank < length numbers.now) later.new.items }
    ensures named { OnOk result (AreNamedBut numbers.now (map option_copied views.now) usable nodes.new.items chains.new.items []) }
    ensures kept { OnOk result (AreKept nodes.old.items nodes.new.items) }
    ensures chained { OnOk result (Grows chains.old.items chains.new.items later.old.items later.new.items) }
{
    while let Some(rank) = work.pop() {
        note_names(numbers, views, usable, rank, nodes, chains, work, later)?;
    }
    Ok(())
}

/// Marks what the b-tree page of a rank names, if that is marked.
fn note_names(
    numbers: &[u32],
    views: &[Option<&[u8]>],
    usable: u32,
    rank: usize,
    nodes: &mut Vec<bool>,
    chains: &mut Vec<bool>,
    work: &mut Vec<usize>,
    later: &mut Vec<usize>,
) -> Result<(), AllocError>
    requires rising { IsStrictlyIncreasing numbers.now }
    requires views { length views.now ≡ length numbers.now }
    requires nodes { length nodes.old.items ≡ length numbers.now }
    requires chains { length chains.old.items ≡ length numbers.now }
    requires rank { rank < length numbers.now }
    requires ranks { All (λ rank. rank < length numbers.now) work.old.items }
    requires later { All (λ rank. rank < length numbers.now) later.old.items }
    requires least { 480 ≤ usable }
    requires whole { AreWhole usable (map option_copied views.now) }
    ensures nodes { length nodes.new.items ≡ length numbers.now }
    ensures chains { length chains.new.items ≡ length numbers.now }
    ensures ranks { All (λ rank. rank < length numbers.now) work.new.items }
    ensures later { All (λ rank. rank < length numbers.now) later.new.items }
    ensures grown { OnOk result (Grows nodes.old.items nodes.new.items work.old.items work.new.items) }
    ensures chained { OnOk result (Grows chains.old.items chains.new.items later.old.items later.new.items) }
    ensures named { OnOk result (is_marked nodes.old.items rank ≡ true → AllNamed (IsNoted numbers.now nodes.new.items) (IsNoted numbers.now chains.new.items) usable (slice_index numbers.now rank) (view_at (map option_copied views.now) rank)) }
{
    if !nodes[rank] {
        return Ok(());
    }
    let Some(page) = views[rank] else {
        return Ok(());
    };
    match read_node(page, numbers[rank], usable) {
        Ok(node) => note_targets(numbers, node.targets(), nodes, chains, work, later),
        Err(_) => Ok(()),
    }
}

/// Marks the pages that are named: each as what it is named as.
fn note_targets(
    numbers: &[u32],
    mut targets: Targets<'_>,
    nodes: &mut Vec<bool>,
    chains: &mut Vec<bool>,
    work: &mut Vec<usize>,
    later: &mut Vec<usize>,
) -> Result<(), AllocError>
    requires rising { IsStrictlyIncreasing numbers.now }
    requires nodes { length nodes.old.items ≡ length numbers.now }
    requires chains { length chains.old.items ≡ length numbers.now }
    requires ranks { All (λ rank. rank < length numbers.now) work.old.items }
    requires later { All (λ rank. rank < length numbers.now) later.old.items }
    ensures nodes { length nodes.new.items ≡ length numbers.now }
    ensures chains { length chains.new.items ≡ length numbers.now }
    ensures ranks { All (λ rank. rank < length numbers.now) work.new.items }
    ensures later { All (λ rank. rank < length numbers.now) later.new.items }
    ensures grown { OnOk result (Grows nodes.old.items nodes.new.items work.old.items work.new.items) }
    ensures chained { OnOk result (Grows chains.old.items chains.new.items later.old.items later.new.items) }
    ensures named { OnOk result (AllOf (IsNamed (IsNoted numbers.now nodes.new.items) (IsNoted numbers.now chains.new.items)) targets.entry) }
{
    while let Some(target) = targets.next() {
        match target {
            NodeTarget::Child { page, .. } => note(numbers, nodes, work, page)?,
            NodeTarget::Overflow { page, .. } => note(numbers, chains, later, page)?,
            NodeTarget::Right(page) => note(numbers, nodes, work, page)?,
        }
    }
    Ok(())
}

/// Marks what the overflow pages of the listed ranks link to, as far as they are marked, and what those link to, until none is
/// left.
fn note_chains(
    numbers: &[u32],
    views: &[Option<&[u8]>],
    usable: u32,
    chains: &mut Vec<bool>,
    work: &mut Vec<usize>,
) -> Result<(), AllocError>
    requires rising { IsStrictlyIncreasing numbers.now }
    requires views { length views.now ≡ length numbers.now }
    requires chains { length chains.old.items ≡ length numbers.now }
    requires ranks { All (λ rank. rank < length numbers.now) work.old.items }
    requires least { 480 ≤ usable }
    requires whole { AreWhole usable (map option_copied views.now) }
    requires linked { AreLinkedBut numbers.now (map option_copied views.now) chains.old.items work.old.items }
    ensures chains { length chains.new.items ≡ length numbers.now }
    ensures linked { OnOk result (AreLinkedBut numbers.now (map option_copied views.now) chains.new.items []) }
    ensures kept { OnOk result (AreKept chains.old.items chains.new.items) }
{
    while let Some(rank) = work.pop() {
        note_link(numbers, views, usable, rank, chains, work)?;
    }
    Ok(())
}

/// Marks what the overflow page of a rank links to, if that is marked.
fn note_link(
    numbers: &[u32],
    views: &[Option<&[u8]>],
    usable: u32,
    rank: usize,
    chains: &mut Vec<bool>,
    work: &mut Vec<usize>,
) -> Result<(), AllocError>
    requires rising { IsStrictlyIncreasing numbers.now }
    requires views { length views.now ≡ length numbers.now }
    requires chains { length chains.old.items ≡ length numbers.now }
    requires rank { rank < length numbers.now }
    requires ranks { All (λ rank. rank < length numbers.now) work.old.items }
    requires least { 480 ≤ usable }
    requires whole { AreWhole usable (map option_copied views.now) }
    ensures chains { length chains.new.items ≡ length numbers.now }
    ensures ranks { All (λ rank. rank < length numbers.now) work.new.items }
    ensures grown { OnOk result (Grows chains.old.items chains.new.items work.old.items work.new.items) }
    ensures linked { OnOk result (is_marked chains.old.items rank ≡ true → IsLinked (IsNoted numbers.now chains.new.items) (view_at (map option_copied views.now) rank)) }
{
    if !chains[rank] {
        return Ok(());
    }
    match views[rank] {
        Some(page) => note(numbers, chains, work, be32(page, 0)),
        None => Ok(()),
    }
}

/// Marks page `no`, where it has a rank, and lists the rank if it wasn't marked before. The cost is that of a binary search.
fn note(
    numbers: &[u32],
    marks: &mut Vec<bool>,
    work: &mut Vec<usize>,
    no: u32,
) -> Result<(), AllocError>
    requires rising { IsStrictlyIncreasing numbers.now }
    requires marks { length marks.old.items ≡ length numbers.now }
    requires ranks { All (λ rank. rank < length numbers.now) work.old.items }
    ensures marks { length marks.new.items ≡ length numbers.now }
    ensures ranks { All (λ rank. rank < length numbers.now) work.new.items }
    ensures grown { OnOk result (Grows marks.old.items marks.new.items work.old.items work.new.items) }
    ensures noted { OnOk result (IsNoted numbers.now marks.new.items no) }
{
    let Ok(rank) = numbers.binary_search(&no) else {
        return Ok(());
    };
    if marks[rank] {
        return Ok(());
    }
    work.push(rank)?;
    marks[rank] = true;
    Ok(())
}
