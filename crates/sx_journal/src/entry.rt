//! The records of a journal.
ghost use Rattle.std.specs.Prelude.{◌≡◌, ◌+◌, ◌-◌, ◌*◌, ◌^◌, ◌<◌, ◌≤◌, length};
ghost use Rattle.sx_journal.specs.Segments.{record_len};
ghost use Rattle.sx_journal.specs.Entries.{sampled, checksum, record_fits, record_from};

use sx_base::Class;
use sx_bytes::be32;

/// A record of a journal: a page as it was before the transaction.
#[derive(Clone, Copy, Debug, PartialEq, Eq)]
pub struct Entry {
    /// The number of the page, as stored.
    pub page: u32,
    /// Where the page begins, in bytes from the start of the file.
    pub offset: u64,
    /// The checksum, as stored.
    pub sum: u32,
    /// What the record is: Good, Bad or After in a live journal, Unchecked in a zeroed one.
    pub class: Class,
}

/// The sum of the bytes of a page that its checksum samples: those 200, 400 and so on before its end.
#[tactic(auto, using(crate::proofs::Samples::sample_more), unfolding(crate::specs::Entries::sampled))]
fn sampled(page: &[u8]) -> u32
    requires { length page.now ≤ 65536 }
    ensures value { result ≡ sampled page.now }
{
    let mut sum = 0;
    for k in 0..page.len() / 200 {
        sum += u32::from(page[page.len() - 200 * (k + 1)]);
    }
    sum
}

/// The checksum of a page: the nonce of its segment and the sampled bytes, in 32 bits.
#[tactic(auto, unfolding(crate::specs::Entries::checksum))]
fn checksum(nonce: u32, page: &[u8]) -> u32
    requires { length page.now ≤ 65536 }
    ensures { result ≡ checksum nonce page.now }
{
    nonce.wrapping_add(sampled(page))
}

/// Whether the record at `place` fits: its page number isn't 0 and its checksum is right.
#[tactic(auto, unfolding(crate::specs::Entries::record_fits))]
pub fn record_fits(bytes: &[u8], page_size: u32, place: usize, nonce: u32) -> bool
    requires page_size { page_size ≤ 65536 }
    requires held { place + record_len page_size ≤ length bytes.now }
    ensures { result ≡ record_fits bytes.now page_size (record { place = place; nonce = nonce }) }
{
    let (_, from_page) = bytes.split_at(place + 4);
    let (page, _) = from_page.split_at(page_size as usize);
    be32(bytes, place) != 0 && be32(bytes, place + 4 + page_size as usize) == checksum(nonce, page)
}

impl Entry {
    /// Reads the record at `place`.
    #[tactic(auto, unfolding(crate::specs::Entries::record_from))]
    pub fn read(bytes: &[u8], page_size: u32, place: usize, class: Class) -> Self
        requires page_size { page_size ≤ 65536 }
        requires held { place + record_len page_size ≤ length bytes.now }
        ensures { result ≡ record_from bytes.now page_size class place }
    {
        Entry {
            page: be32(bytes, place),
            offset: place as u64 + 4,
            sum: be32(bytes, place + 4 + page_size as usize),
            class,
        }
    }
}
