//! The header that each segment of a journal begins with.
ghost use Rattle.std.specs.Prelude.{◌≡◌, ◌+◌, ◌^◌, ◌<◌, ◌≤◌, length};
ghost use Rattle.sx_journal.specs.Header.{has_header, is_live, is_zeroed, is_sector_size};

use sx_bytes::be32;

/// The length of a header in bytes. The rest of its sector is padding.
pub const HEADER_LEN: usize = 28;

/// The sector size where no header says it, in bytes.
pub const DEFAULT_SECTOR: u32 = 512;

/// The bytes that a header begins with.
const MAGIC: &[u8; 8] = &[0xd9, 0xd5, 0x05, 0xf9, 0x20, 0xa1, 0x63, 0xd7];

/// Whether a header stands at `place`. Its sector size and page size aren't read.
#[tactic(auto, unfolding(crate::specs::Header::has_header))]
pub fn has_header(bytes: &[u8], place: usize) -> bool
    requires { place < 2 ^ 63 }
    ensures { result ≡ has_header bytes.now place }
{
    place + HEADER_LEN <= bytes.len() && bytes[place..].starts_with(MAGIC)
}

/// Whether `size` can be a sector size: a power of two from 32 to 65536.
#[tactic(auto, unfolding(crate::specs::Header::is_sector_size))]
fn can_be_sector_size(size: u32) -> bool
    ensures { result ≡ is_sector_size size }
{
    size.is_power_of_two() && size >= 32 && size <= 65536
}

/// Whether the journal begins with a header for a database of this page size.
#[tactic(auto, unfolding(crate::specs::Header::is_live))]
pub fn is_live(bytes: &[u8], page_size: u32) -> bool
    requires { 28 ≤ length bytes.now }
    ensures { result ≡ is_live bytes.now page_size }
{
    has_header(bytes, 0) && be32(bytes, 24) == page_size && can_be_sector_size(be32(bytes, 20))
}

/// Whether the first header is overwritten with zeros.
#[tactic(auto, unfolding(crate::specs::Header::is_zeroed))]
pub fn is_zeroed(bytes: &[u8]) -> bool
    requires { 28 ≤ length bytes.now }
    ensures { result ≡ is_zeroed bytes.now }
{
    bytes[..HEADER_LEN].iter().all(|byte| *byte == 0)
}
