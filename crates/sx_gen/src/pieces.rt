//! The pieces that pages and frames are made of. Each call puts its bytes behind those of `out`.
ghost use Rattle.std.specs.Prelude.{◌≡◌, ◌+◌, ◌*◌, ◌≤◌, ◌<◌, ◌^◌, ◌++◌, OnOk, replicate};
ghost use Rattle.std.specs.Int.{w16, to_be_bytes};
ghost use Rattle.sx_gen.specs.Pages.{words_bytes, page_head, pointers};

use std::alloc::AllocError;

/// The size of a page in bytes.
pub const PAGE_SIZE: usize = 4096;

/// Puts words, the high byte of each first.
pub fn put_words(out: &mut Vec<u8>, words: &[u32]) -> Result<(), AllocError>
    ensures { OnOk result (out.new.items ≡ out.old.items ++ words_bytes words.now) }
{
    for word in words {
        out.extend_from_slice(&word.to_be_bytes())?;
    }
    Ok(())
}

/// Puts so many zeros.
pub fn put_zeros(out: &mut Vec<u8>, count: usize) -> Result<(), AllocError>
    requires { count ≤ 4096 }
    ensures { OnOk result (out.new.items ≡ out.old.items ++ replicate count 0) }
{
    out.resize(out.len() + count, 0)
}

/// Puts the first 8 bytes of a b-tree page without freeblocks: its kind, the count of its cells, and where the first of
/// them begins, in bytes from the page's start.
pub fn put_page_head(
    out: &mut Vec<u8>,
    kind: u8,
    count: u16,
    content: u16,
) -> Result<(), AllocError>
    ensures { OnOk result (out.new.items ≡ out.old.items ++ page_head kind count content) }
{
    out.extend_from_slice(&[kind, 0, 0])?;
    out.extend_from_slice(&count.to_be_bytes())?;
    out.extend_from_slice(&content.to_be_bytes())?;
    out.extend_from_slice(&[0])
}

/// Puts the pointers to so many cells of `size` bytes, from the page's end on.
#[tactic(auto, unfolding(crate::specs::Pages::pointers))]
pub fn put_pointers(out: &mut Vec<u8>, size: usize, count: usize) -> Result<(), AllocError>
    requires { size * count ≤ 4096 }
    ensures { OnOk result (out.new.items ≡ out.old.items ++ pointers size count) }
{
    let mut start = PAGE_SIZE;
    for _i in 0..count {
        start -= size;
        out.extend_from_slice(&(start as u16).to_be_bytes())?;
    }
    Ok(())
}
