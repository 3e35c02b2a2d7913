//! What a page in a role names.
ghost use Rattle.std.specs.Prelude.{◌≡◌, ◌≤◌, ◌<◌, length, IfOk};
ghost use Rattle.sx_base.specs.declared.role.Role.TheVariants.{Node as NodeRole, Overflow, Trunk as TrunkRole, FreeLeaf, PointerMap};
ghost use Rattle.sx_closure.specs.declared.pair.Source.TheVariants.{Page as PageSource};
ghost use Rattle.sx_node.specs.Nodes.{node_of};
ghost use Rattle.sx_free.specs.Trunks.{leaf_count, trunk_of};
ghost use Rattle.sx_refs.specs.Targets.{linked, from_node, node_targets, leaves_targets, trunk_targets, if_node, if_trunk, may_name, targets_of};

use std::alloc::AllocError;
use sx_base::Role;
use sx_bytes::be32;
use sx_closure::{Pair, Receiver, Source, Target};
use sx_free::{Trunk, read_trunk};
use sx_node::{Node, NodeTarget, read_node};

/// Gives what a pair names, of a page with these bytes, each target with its source.
///
/// A b-tree page names for each cell that can be read its child and its first overflow page, and then its right-most
/// child. An overflow page names the next, a freelist trunk page the next and its leaves. Pages of other roles and faulty
/// pages name nothing.
#[tactic(auto, unfolding(crate::specs::Targets::targets_of))]
pub fn give_targets<R: Receiver>(
    bytes: &[u8],
    pair: Pair,
    usable: u32,
    receiver: &mut R,
) -> Result<(), AllocError>
    requires least { 480 ≤ usable }
    requires within { usable ≤ length bytes.now }
    requires small { length bytes.now ≤ 65536 }
    ensures { IfOk result (λ _. receiver.new ≡ R.after receiver.old (targets_of bytes.now pair usable)) }
{
    match pair.role {
        Role::Node => give_node(bytes, pair.page, usable, receiver),
        Role::Overflow => give_linked(
            be32(bytes, 0),
            Role::Overflow,
            Source::Page(pair.page),
            receiver,
        ),
        Role::Trunk => give_trunk(bytes, pair.page, usable, receiver),
        Role::FreeLeaf | Role::PointerMap => Ok(()),
    }
}

/// Whether a page in that role may name others.
pub(crate) fn may_name(role: Role) -> bool
    ensures { result ≡ may_name role }
{
    match role {
        Role::Node | Role::Overflow | Role::Trunk => true,
        Role::FreeLeaf | Role::PointerMap => false,
    }
}

/// Gives what a b-tree page names.
fn give_node<R: Receiver>(
    bytes: &[u8],
    page: u32,
    usable: u32,
    receiver: &mut R,
) -> Result<(), AllocError>
    requires least { 480 ≤ usable }
    requires within { usable ≤ length bytes.now }
    requires small { length bytes.now ≤ 65536 }
    ensures { IfOk result (λ _. receiver.new ≡ R.after receiver.old (if_node page (node_of bytes.now page usable))) }
{
    match read_node(bytes, page, usable) {
        Ok(node) => give_names(&node, page, receiver),
        Err(_) => Ok(()),
    }
}

/// Gives what a b-tree page names, in the order in which it names it.
fn give_names<R: Receiver>(node: &Node<'_>, page: u32, receiver: &mut R) -> Result<(), AllocError>
    ensures { IfOk result (λ _. receiver.new ≡ R.after receiver.old (node_targets page node.now)) }
{
    for name in node.targets() {
        receiver.take(from_node(page, name))?;
    }
    Ok(())
}

/// What a b-tree page of that number names, with its source.
fn from_node(page: u32, name: NodeTarget) -> Target
    ensures { result ≡ from_node page name }
{
    match name {
        NodeTarget::Child { cell, page: child } => {
            Target::new(child, Role::Node, Source::Cell { page, cell }, 0)
        }
        NodeTarget::Overflow {
            cell,
            page: first,
            rest,
        } => Target::new(first, Role::Overflow, Source::Cell { page, cell }, rest),
        NodeTarget::Right(child) => Target::new(child, Role::Node, Source::Page(page), 0),
    }
}

/// Gives what a freelist trunk page names.
fn give_trunk<R: Receiver>(
    bytes: &[u8],
    page: u32,
    usable: u32,
    receiver: &mut R,
) -> Result<(), AllocError>
    requires least { 480 ≤ usable }
    requires within { usable ≤ length bytes.now }
    requires small { length bytes.now ≤ 65536 }
    ensures { IfOk result (λ _. receiver.new ≡ R.after receiver.old (if_trunk page (trunk_of bytes.now usable))) }
{
    match read_trunk(bytes, usable) {
        Ok(trunk) => give_whole_trunk(&trunk, page, receiver),
        Err(_) => Ok(()),
    }
}

/// Gives the next freelist trunk page and the leaves.
#[tactic(auto, unfolding(crate::specs::Targets::trunk_targets))]
fn give_whole_trunk<R: Receiver>(
    trunk: &Trunk<'_>,
    page: u32,
    receiver: &mut R,
) -> Result<(), AllocError>
    ensures { IfOk result (λ _. receiver.new ≡ R.after receiver.old (trunk_targets page trunk.now)) }
{
    give_linked(trunk.next(), Role::Trunk, Source::Page(page), receiver)?;
    give_leaves(trunk, page, receiver)
}

/// Gives the leaves of a freelist trunk page.
#[tactic(auto, using(crate::proofs::Naming::leaves_none, crate::proofs::Naming::leaves_more))]
fn give_leaves<R: Receiver>(
    trunk: &Trunk<'_>,
    page: u32,
    receiver: &mut R,
) -> Result<(), AllocError>
    ensures { IfOk result (λ _. receiver.new ≡ R.after receiver.old (leaves_targets page trunk.now (leaf_count trunk.now))) }
{
    for index in 0..trunk.leaves() {
        let leaf = trunk.leaf(index);
        receiver.take(Target::new(leaf, Role::FreeLeaf, Source::Page(page), 0))?;
    }
    Ok(())
}

/// Gives the page that a link names, where 0 stands for none.
#[tactic(auto, unfolding(crate::specs::Targets::linked))]
pub(crate) fn give_linked<R: Receiver>(
    page: u32,
    role: Role,
    source: Source,
    receiver: &mut R,
) -> Result<(), AllocError>
    ensures { IfOk result (λ _. receiver.new ≡ R.after receiver.old (linked page role source)) }
{
    if page == 0 {
        return Ok(());
    }
    receiver.take(Target::new(page, role, source, 0))
}
