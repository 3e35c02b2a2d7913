//! The nonces that the records of a journal give.
ghost use Rattle.std.specs.Prelude.{◌≡◌, ◌+◌, ◌-◌, ◌*◌, ◌^◌, ◌<◌, ◌≤◌, All, length, map, slice_index, IfOk};
ghost use Rattle.sx_bytes.specs.PageSize.{IsPageSize};
ghost use Rattle.sx_journal.specs.Entries.{sampled};
ghost use Rattle.sx_generations.specs.Confirmed.{nonce_from, nonce_of};

use crate::neighbours::Neighbours;
use std::alloc::{AllocError, Global};
use sx_journal::JournalIndex;

/// Nonces, one for each record.
#[derive(Clone, Copy)]
pub struct Nonces<'a> {
    pub items: &'a [u32],
    pub ghost few: { length items.now < 2 ^ 32 },
}

impl<'a> Neighbours for Nonces<'a> {
    ghost use Rattle.std.specs.Prelude.{length};
    ghost use Rattle.sx_generations.specs.Confirmed.{confirms};

    ghost places = { λ nonces. length nonces.items.now };

    ghost joined = { λ nonces. confirms nonces.items.now };

    fn count(&self) -> u32 {
        self.items.len() as u32
    }

    fn joins(&self, i: u32) -> bool {
        self.items[i as usize] == self.items[i as usize + 1]
    }
}

/// The nonce that each record gives, in order. Of each page only the bytes that the checksum samples are read, once.
pub fn nonces_of(
    alloc: Global,
    bytes: &[u8],
    page_size: u32,
    journal: &JournalIndex,
) -> Result<Vec<u32>, AllocError>
    requires size { page_size ≤ 65536 }
    requires within { All (λ entry. entry.offset + page_size ≤ length bytes.now) journal.now.entries }
    ensures few { IfOk result (λ nonces. length nonces.items < 2 ^ 32) }
    ensures nonces { IfOk result (λ nonces. nonces.items ≡ map (nonce_of page_size bytes.now) journal.now.entries) }
{
    let count = journal.entries();
    let mut nonces = Vec::with_capacity(alloc, count as usize)?;
    for i in 0..count {
        let entry = journal.entry(i);
        let (_, from_page) = bytes.split_at(entry.offset as usize);
        let (page, _) = from_page.split_at(page_size as usize);
        nonces.push(nonce_from(entry.sum, page))?;
    }
    Ok(nonces)
}

/// A stored checksum less the bytes of its page that the checksum samples.
#[tactic(auto, unfolding(crate::specs::Confirmed::nonce_from))]
fn nonce_from(sum: u32, page: &[u8]) -> u32
    requires { length page.now ≤ 65536 }
    ensures { result ≡ nonce_from sum page.now }
{
    sum.wrapping_sub(sampled(page))
}

/// The sum of the bytes of a page that its checksum samples: those 200, 400 and so on before its end.
#[tactic(auto, using(sx_journal::proofs::Samples::sample_more), unfolding(sx_journal::specs::Entries::sampled))]
fn sampled(page: &[u8]) -> u32
    requires { length page.now ≤ 65536 }
    ensures { result ≡ sampled page.now }
{
    let mut sum = 0;
    for k in 0..page.len() / 200 {
        sum += u32::from(page[page.len() - 200 * (k + 1)]);
    }
    sum
}
