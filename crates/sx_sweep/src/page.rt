//! What one page owns of the image that is its view.
ghost use Rattle.std.specs.Prelude.{◌≡◌, ◌+◌, ◌<◌, ◌≤◌, length, OnOk};
ghost use Rattle.sx_node.specs.Freeblocks.{freeblocks_of};
ghost use Rattle.sx_node.specs.Nodes.{node_of};
ghost use Rattle.sx_owned.specs.Owned.{images_of};
ghost use Rattle.sx_sweep.specs.Growth.{nowhere, Grows};
ghost use Rattle.sx_sweep.specs.Owning.{block_begins, blocks_begin};
ghost use Rattle.sx_sweep.specs.Told.{owning_in, run_owns, named_begins, only_in};

use std::alloc::AllocError;
use sx_base::{Label, Role, Span};
use sx_node::{Node, read_node};
use sx_owned::OwnedRuns;
use sx_prov::PageMap;

/// Adds the bytes of an image that a map says the database uses.
pub fn add_map(map: &PageMap, image: u32, owned: &mut OwnedRuns) -> Result<(), AllocError>
    requires image { image < images_of owned.old }
    requires size { length map.now ≡ owned.old.page_size }
    ensures { OnOk result (Grows owned.old owned.new (only_in image (owning_in map.now)) nowhere) }
{
    let mut runs = map.runs();
    while let Some((span, label)) = runs.next() {
        add_run(image, span, label, owned)?;
    }
    Ok(())
}

/// Adds a run of bytes of an image, where its label is one of what the database uses.
#[tactic(auto, using(crate::proofs::GrowthLemmas::run_grows, crate::proofs::GrowthLemmas::no_run_grows))]
fn add_run(image: u32, span: Span, label: Label, owned: &mut OwnedRuns) -> Result<(), AllocError>
    requires image { image < images_of owned.old }
    requires within { span.start + span.len ≤ owned.old.page_size }
    ensures { OnOk result (Grows owned.old owned.new (only_in image (run_owns (span, label))) nowhere) }
{
    if label.owning() {
        owned.add(image, span)?;
    }
    Ok(())
}

/// Names the freeblocks of an image that is the view of a page with one reference of this role, or of none.
pub fn add_blocks(
    role: Option<Role>,
    view: &[u8],
    no: u32,
    usable: u32,
    image: u32,
    owned: &mut OwnedRuns,
) -> Result<(), AllocError>
    requires image { image < images_of owned.old }
    requires size { length view.now ≡ owned.old.page_size }
    requires least { 480 ≤ usable }
    requires within { usable ≤ length view.now }
    requires small { length view.now ≤ 65536 }
    ensures { OnOk result (Grows owned.old owned.new nowhere (only_in image (named_begins role view.now no usable))) }
{
    match role {
        Some(Role::Node) => add_node(view, no, usable, image, owned),
        _ => Ok(()),
    }
}

/// Names the freeblocks of an image that is read as a b-tree page.
pub fn add_node(
    view: &[u8],
    no: u32,
    usable: u32,
    image: u32,
    owned: &mut OwnedRuns,
) -> Result<(), AllocError>
    requires image { image < images_of owned.old }
    requires size { length view.now ≡ owned.old.page_size }
    requires least { 480 ≤ usable }
    requires within { usable ≤ length view.now }
    requires small { length view.now ≤ 65536 }
    ensures { OnOk result (Grows owned.old owned.new nowhere (only_in image (block_begins (node_of view.now no usable)))) }
{
    match read_node(view, no, usable) {
        Ok(node) => add_chain(&node, image, owned),
        Err(_) => Ok(()),
    }
}

/// Names the freeblocks of a b-tree page.
fn add_chain(node: &Node<'_>, image: u32, owned: &mut OwnedRuns) -> Result<(), AllocError>
    requires image { image < images_of owned.old }
    requires size { node.now.usable ≤ owned.old.page_size }
    ensures { OnOk result (Grows owned.old owned.new nowhere (only_in image (blocks_begin (freeblocks_of node.now)))) }
{
    let mut blocks = node.freeblocks();
    while let Some(block) = blocks.next() {
        owned.block(image, block.start)?;
    }
    Ok(())
}
