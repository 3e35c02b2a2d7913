//! What of a moment decides the labels of a page.
ghost use Rattle.std.specs.Prelude.{◌≡◌, ℕ, ◌-◌, ◌<◌, ◌≤◌, ◌==◌, if◌then◌else◌, Option};
ghost use Rattle.sx_closure.specs.Tallying.{count_at, one_at, left_at};
ghost use Rattle.sx_prov.specs.Keys.{key_of, overflow_standing, role_standing, standing_by, IsKeyOf};

use sx_base::{Layout, Pages, Role};
use sx_refs::RefTable;

/// How a page stands at a moment: what refers to it, and as what.
#[derive(Clone, Copy, Debug, PartialEq, Eq)]
pub enum Standing {
    /// Nothing refers to it.
    Unreached,
    /// Two or more references lead to it.
    DoubleClaim,
    /// A pointer-map page ("Pointer Map or Ptrmap Pages").
    Map,
    /// A freelist trunk page ("The Freelist").
    Trunk,
    /// A freelist leaf page.
    FreeLeaf,
    /// An overflow page behind no cell ("Cell Payload Overflow Pages").
    Behind,
    /// An overflow page behind the last that its cell needs.
    LongChain,
    /// An overflow page that holds so many bytes of a payload.
    Body(u32),
    /// A b-tree page that is page 1, which begins with the database header ("B-tree Pages").
    FirstNode,
    /// Any other b-tree page.
    Node,
}

/// What decides the labels of a page's bytes, besides these bytes: two pages with equal bytes and equal keys have equal
/// labels, whatever their numbers and moments.
#[derive(Clone, Copy, Debug, PartialEq, Eq)]
pub struct PageKey {
    /// How many bytes of the page are in use, from its start.
    pub usable: u32,
    /// How the page stands.
    pub standing: Standing,
}

/// The key of page `no` of a moment: each label of a page that has a view and isn't the lock-byte page is the one that the
/// key gives for its bytes.
///
/// `refs` is what [`sx_refs::references`] gives for these pages, this layout and the schema's roots. The layout's usable
/// bytes are 4 or more. The cost is that of four look-ups in the table. Takes no memory.
#[tactic(auto, unfolding(crate::specs::Keys::key_of))]
pub fn page_key<'a, P: Pages<'a>>(pages: &P, refs: &RefTable, layout: &Layout, no: u32) -> PageKey
    requires { 4 ≤ layout.now.usable }
    ensures usable { result.usable ≡ layout.now.usable }
    ensures exact { result ≡ key_of refs.now layout.now.usable no }
    ensures labels { IsKeyOf (P.pages pages.now) (P.view pages.now) layout.now refs.now no result }
{
    let _ = pages;
    PageKey {
        usable: layout.usable,
        standing: standing_of(refs, no, layout.usable),
    }
}

/// How a page stands.
fn standing_of(refs: &RefTable, no: u32, usable: u32) -> Standing
    requires { 4 ≤ usable }
    ensures { result ≡ standing_by usable no (count_at refs.now no) (left_at refs.now no) (one_at refs.now no) }
{
    match refs.role_of(no) {
        Some(role) => role_standing(role, no, usable, refs.left(no)),
        None => unclear_standing(refs.count(no)),
    }
}

/// How a page stands that hasn't one reference, but so many.
fn unclear_standing(count: u64) -> Standing
    ensures { result ≡ (if count == 0 then Standing.Unreached else Standing.DoubleClaim) }
{
    if count == 0 {
        Standing::Unreached
    } else {
        Standing::DoubleClaim
    }
}

/// How a page stands whose one reference is of that role.
fn role_standing(role: Role, no: u32, usable: u32, left: Option<u32>) -> Standing
    requires { 4 ≤ usable }
    ensures { result ≡ role_standing usable no left role }
{
    match role {
        Role::Node if no == 1 => Standing::FirstNode,
        Role::Node => Standing::Node,
        Role::Overflow => overflow_standing(usable, left),
        Role::Trunk => Standing::Trunk,
        Role::FreeLeaf => Standing::FreeLeaf,
        Role::PointerMap => Standing::Map,
    }
}

/// How an overflow page stands at which so many bytes of a payload are still to come.
fn overflow_standing(usable: u32, left: Option<u32>) -> Standing
    requires { 4 ≤ usable }
    ensures { result ≡ overflow_standing usable left }
{
    match left {
        None => Standing::Behind,
        Some(0) => Standing::LongChain,
        Some(left) => Standing::Body(left.min(usable - 4)),
    }
}
