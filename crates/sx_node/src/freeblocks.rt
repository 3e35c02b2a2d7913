//! The freeblocks of a b-tree page.
ghost use Rattle.std.specs.Prelude.{◌≡◌, ℕ, ◌+◌, ◌<◌, ◌≤◌, List, length, IfSome};
ghost use Rattle.sx_base.specs.declared.evidence.Span.{Span};
ghost use Rattle.sx_node.specs.Freeblocks.{counts, after, IsWalk, blocks_from};

use std::marker::Model;
use sx_base::Span;
use sx_bytes::be16;

/// The freeblocks of a page in the order of their chain: the spans that are to come.
///
/// The chain is followed as far as it makes sense: a block counts where its first 4 bytes end within the usable ones,
/// its size is at least 4 and it ends within them too, and the chain goes on where a block names an offset behind its
/// end. So it ends on any bytes. Each step reads 4 bytes, and takes no memory.
#[derive(Drop)]
pub struct Freeblocks<'a> {
    page: &'a [u8],
    usable: u32,
    next: u32,
}

impl<'a> Model for Freeblocks<'a> {
    ghost use Rattle.std.specs.Prelude.{◌≤◌, List, length};
    ghost use Rattle.sx_base.specs.declared.evidence.Span.{Span};
    ghost use Rattle.sx_node.specs.Freeblocks.{blocks_from};

    ghost Value = { List Span };

    ghost view = { λ it. blocks_from it.page.now it.usable it.next };

    ghost invariant = { λ it. (it.usable ≤ length it.page.now) × (it.usable ≤ 65536) };
}

impl<'a> Freeblocks<'a> {
    /// The blocks of the chain from an offset on, within so many usable bytes.
    pub(crate) fn start(page: &'a [u8], usable: u32, first: u32) -> Self
        requires within { usable ≤ length page.now }
        requires small { usable ≤ 65536 }
        ensures { result ≡ blocks_from page.now usable first }
    {
        Freeblocks {
            page,
            usable,
            next: first,
        }
    }
}

impl<'a> Iterator for Freeblocks<'a> {
    ghost use Rattle.std.specs.Iterator.{YieldsFirst, item_count};

    type Item = Span;

    ghost next_gives = { YieldsFirst (λ it. it) };

    ghost remaining = { item_count (λ it. it) };

    #[tactic(auto, using(crate::proofs::Walks::no_block, crate::proofs::Walks::one_block))]
    fn next(&mut self) -> Option<Span> {
        let start = self.next;
        let len = block_at(self.page, self.usable, start)?;
        self.next = after_block(self.page, start, start + len);
        Some(Span { start, len })
    }
}

/// The size of the block at `at`, if one counts there.
#[tactic(auto, unfolding(crate::specs::Freeblocks::counts))]
fn block_at(page: &[u8], usable: u32, at: u32) -> Option<u32>
    requires within { usable ≤ length page.now }
    requires small { usable ≤ 65536 }
    ensures value { result ≡ counts page.now usable at }
    ensures fits { IfSome result (λ size. at + size ≤ usable) }
    ensures some { IfSome result (λ size. 4 ≤ size) }
{
    if at == 0 || at > usable || usable - at < 4 {
        return None;
    }
    let size = u32::from(be16(page, at as usize + 2));
    if size < 4 || at + size > usable {
        return None;
    }
    Some(size)
}

/// The offset after the block at `at` that ends at `end`, or 0 where the chain ends.
#[tactic(auto, unfolding(crate::specs::Freeblocks::after))]
fn after_block(page: &[u8], at: u32, end: u32) -> u32
    requires { at + 2 ≤ length page.now }
    ensures { result ≡ after page.now at end }
{
    let next = u32::from(be16(page, at as usize));
    if next < end { 0 } else { next }
}

/// The freeblocks from an offset on are the one list that the rules of the chain determine. This is a law of the
/// definitions; the function has no code.
#[tactic(auto, using(crate::proofs::Walks::are_blocks, crate::proofs::Walks::one_walk))]
pub fn freeblocks_by_rules()
    ensures are { (page : List ℕ) (usable at : ℕ) → IsWalk page usable at (blocks_from page usable at) }
    ensures only { (page : List ℕ) (usable at : ℕ) (blocks : List Span) → IsWalk page usable at blocks → blocks ≡ blocks_from page usable at }
{}
