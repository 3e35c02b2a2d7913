//! A drill's write-ahead log.
ghost use Rattle.std.specs.Prelude.{◌≡◌, ◌+◌, ◌*◌, ◌%◌, ◌≤◌, ◌<◌, ◌^◌, ◌++◌, ◌∷◌, [], true, length, slice_index, EachIndex, IfOk, OnOk};
ghost use Rattle.sx_wal.specs.Checksum.{sums_of};
ghost use Rattle.sx_gen.specs.Pages.{words_bytes};
ghost use Rattle.sx_gen.specs.Log.{rows_left, log_start, commit_page, frame_start, frame_rest, sums_through, commit_frame, log_bytes};

use crate::pages::{ROWS_OF_LEAF, put_leaf_page};
use crate::pieces::{PAGE_SIZE, put_words};
use std::alloc::{AllocError, Global};
use sx_wal::sums;

/// The first salt of each drill's log. The second is the lower half of the seed.
const FIRST_SALT: u32 = 0x01020304;

/// The log of commits that take these leaves, over so many leaves whose rows have these letters.
///
/// It takes time in proportion to its bytes, and to the square of the commits, of which there are at most 1000.
#[tactic(auto, unfolding(crate::specs::Log::log_bytes))]
pub fn make_log(
    alloc: Global,
    seed: u64,
    letters: &[u8],
    leaves: u32,
    taken: &[u32],
) -> Result<Vec<u8>, AllocError>
    requires few { leaves ≤ 400 }
    requires letters { length letters.now ≡ 240 * leaves }
    requires there { EachIndex taken.now (λ k. slice_index taken.now k < leaves) }
    ensures value { IfOk result (λ log. log.items ≡ log_bytes seed letters.now leaves taken.now) }
    ensures len { IfOk result (λ log. length log.items ≡ 32 + 4120 * length taken.now) }
{
    let mut log = make_log_start(alloc, seed)?;
    let mut through = sums(true, (0, 0), &log);
    put_words(&mut log, &[through.0, through.1])?;
    for k in 0..taken.len() {
        let page = make_page(alloc, letters, leaves, taken, k)?;
        let start = make_frame_start(alloc, leaves, taken[k])?;
        through = sums(true, sums(true, through, &start), &page);
        put_frame(&mut log, &start, seed, through, &page)?;
    }
    Ok(log)
}

/// The first 24 bytes of the log's header.
#[tactic(auto, unfolding(crate::specs::Log::log_start))]
fn make_log_start(alloc: Global, seed: u64) -> Result<Vec<u8>, AllocError>
    ensures value { IfOk result (λ start. start.items ≡ log_start seed) }
    ensures len { IfOk result (λ start. length start.items ≡ 24) }
{
    let mut start = Vec::new(alloc);
    put_words(
        &mut start,
        &[0x377f0683, 3007000, 4096, 0, FIRST_SALT, second_salt(seed)],
    )?;
    Ok(start)
}

/// The second salt: the lower half of the seed.
fn second_salt(seed: u64) -> u32
    ensures { result ≡ seed % 2 ^ 32 }
{
    (seed % (1 << 32)) as u32
}

/// The page of commit `k`: the leaf that it takes, with the rows that are left then.
#[tactic(auto, unfolding(crate::specs::Log::commit_page))]
fn make_page(
    alloc: Global,
    letters: &[u8],
    leaves: u32,
    taken: &[u32],
    k: usize,
) -> Result<Vec<u8>, AllocError>
    requires few { leaves ≤ 400 }
    requires letters { length letters.now ≡ 240 * leaves }
    requires commit { k < length taken.now }
    requires there { slice_index taken.now k < leaves }
    ensures value { IfOk result (λ page. page.items ≡ commit_page letters.now taken.now k) }
    ensures len { IfOk result (λ page. length page.items ≡ 4096) }
{
    let leaf = taken[k];
    let count = rows_left(&taken[..k + 1], leaf);
    let mut page = Vec::with_capacity(alloc, PAGE_SIZE)?;
    put_leaf_page(&mut page, letters, leaf as usize, count)?;
    Ok(page)
}

/// How many rows a leaf has left once these leaves were taken: one less for each time, and always one.
#[tactic(auto, unfolding(crate::specs::Log::rows_left))]
fn rows_left(taken: &[u32], leaf: u32) -> usize
    ensures value { result ≡ rows_left taken.now leaf }
    ensures few { result ≤ 20 }
{
    let times = taken.iter().filter(|other| leaf == **other).count();
    ROWS_OF_LEAF.saturating_sub(times).max(1)
}

/// The first 8 bytes of the frame of a commit that takes this leaf: its page number, and the size of the database.
fn make_frame_start(alloc: Global, leaves: u32, leaf: u32) -> Result<Vec<u8>, AllocError>
    requires few { leaves ≤ 400 }
    requires there { leaf < leaves }
    ensures value { IfOk result (λ start. start.items ≡ words_bytes ((3 + leaf) ∷ (2 + leaves) ∷ [])) }
    ensures len { IfOk result (λ start. length start.items ≡ 8) }
{
    let mut start = Vec::new(alloc);
    put_words(&mut start, &[3 + leaf, 2 + leaves])?;
    Ok(start)
}

/// Puts a frame: its first 8 bytes, the salts, the sums through it, and its page.
fn put_frame(
    log: &mut Vec<u8>,
    start: &[u8],
    seed: u64,
    through: (u32, u32),
    page: &[u8],
) -> Result<(), AllocError>
    ensures { OnOk result (log.new.items ≡ log.old.items ++ (start.now ++ (frame_rest seed through ++ page.now))) }
{
    log.extend_from_slice(start)?;
    put_words(log, &[FIRST_SALT, second_salt(seed), through.0, through.1])?;
    log.extend_from_slice(page)?;
    Ok(())
}
