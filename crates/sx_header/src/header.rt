//! The header of a database file, its first 100 bytes.
ghost use Rattle.std.specs.Prelude.{◌≡◌, ◌≤◌, length, IfOk, OnOk};
ghost use Rattle.sx_header.specs.Header.{header_of, has_magic, page_size_in, usable_in, fields_in, encoding_of, HasRanges};

use sx_bytes::{Encoding, be16, be32, can_be_page_size};

/// The length of the header in bytes.
const HEADER_LEN: usize = 100;

/// The first bytes of every database file.
const MAGIC: &[u8; 16] = b"SQLite format 3\0";

/// The fewest bytes of a page that may be in use.
const LEAST_USABLE: u32 = 480;

/// The greatest number of a text encoding.
const MOST_ENCODING: u32 = 3;

/// The fields of an accepted header that an examination reads ("The Database Header").
///
/// But for the first two they are words as stored, also where the file contradicts them.
#[derive(Clone, Copy, Debug, PartialEq, Eq)]
pub struct Header {
    /// The size of a page in bytes: a power of two from 512 to 65536.
    pub page_size: u32,
    /// The bytes of a page that are in use, from 480 to the page size: the rest at its end is reserved.
    pub usable: u32,
    /// The file change counter.
    pub change: u32,
    /// The size of the database in pages, as the header says it ("In-header Database Size").
    pub pages: u32,
    /// The number of the first freelist trunk page, or 0 where the freelist is empty.
    pub free_head: u32,
    /// How many pages the freelist has.
    pub free_pages: u32,
    /// The schema cookie.
    pub cookie: u32,
    /// The schema format number.
    pub format: u32,
    /// The number of the largest root page, or 0 where there are no pointer-map pages.
    pub largest_root: u32,
    /// The number of the text encoding, from 0 to 3; [`Header::text`] says what it stands for.
    pub encoding: u32,
    /// The change counter at which the size and the version were written ("Write library version number and
    /// version-valid-for number").
    pub valid_for: u32,
    /// The version number of the library that wrote last.
    pub version: u32,
}

/// Why bytes have no accepted header: the first of five tests that fails, in the order of the variants.
#[derive(Clone, Copy, Debug, PartialEq, Eq)]
pub enum HeaderFault {
    /// There are fewer than 100 bytes.
    Short,
    /// The first 16 bytes aren't those of every database file ("Magic Header String").
    Magic,
    /// The number at 16 is neither a power of two from 512 to 32768 nor the 1 that stands for 65536 ("Page Size").
    PageSize,
    /// The page size less the byte at 20 is below 480 ("Reserved bytes per page").
    Usable,
    /// The word at 56 is above 3 ("Text encoding").
    Encoding,
}

impl Header {
    /// The encoding of the database's texts: 2 and 3 stand for the two of UTF-16, every other number for UTF-8.
    pub fn text(&self) -> Encoding
        ensures { result ≡ encoding_of self.now.encoding }
    {
        match self.encoding {
            2 => Encoding::Utf16Le,
            3 => Encoding::Utf16Be,
            _ => Encoding::Utf8,
        }
    }
}

/// Reads the header at the front of `bytes`, a database file or an image of page 1 ("The Database Header").
///
/// Five tests decide, and nothing else is tested. Takes no memory, and no more than the first 100 bytes are read.
#[tactic(auto, unfolding(crate::specs::Header::header_of))]
pub fn read_header(bytes: &[u8]) -> Result<Header, HeaderFault>
    ensures exact { result ≡ header_of bytes.now }
    ensures ranges { IfOk result HasRanges }
    ensures held { OnOk result (100 ≤ length bytes.now) }
{
    if bytes.len() < HEADER_LEN {
        return Err(HeaderFault::Short);
    }
    if !begins_with_magic(bytes) {
        return Err(HeaderFault::Magic);
    }
    let page_size = stored_page_size(bytes);
    if !can_be_page_size(page_size) {
        return Err(HeaderFault::PageSize);
    }
    let usable = page_size - u32::from(bytes[20]);
    if usable < LEAST_USABLE {
        return Err(HeaderFault::Usable);
    }
    if be32(bytes, 56) > MOST_ENCODING {
        return Err(HeaderFault::Encoding);
    }
    Ok(fields(bytes, page_size, usable))
}

/// Whether the bytes begin like those of a database file.
#[tactic(auto, unfolding(crate::specs::Header::has_magic))]
fn begins_with_magic(bytes: &[u8]) -> bool
    ensures { result ≡ has_magic bytes.now }
{
    bytes.starts_with(MAGIC)
}

/// The page size in bytes that the header says, where the number 1 stands for 65536.
fn stored_page_size(bytes: &[u8]) -> u32
    requires { 100 ≤ length bytes.now }
    ensures { result ≡ page_size_in bytes.now }
{
    match be16(bytes, 16) {
        1 => 65536,
        size => u32::from(size),
    }
}

/// The fields of a header with this page size and these bytes in use.
fn fields(bytes: &[u8], page_size: u32, usable: u32) -> Header
    requires held { 100 ≤ length bytes.now }
    requires whole { page_size ≡ page_size_in bytes.now }
    requires used { usable ≡ usable_in bytes.now }
    ensures { result ≡ fields_in bytes.now }
{
    Header {
        page_size,
        usable,
        change: be32(bytes, 24),
        pages: be32(bytes, 28),
        free_head: be32(bytes, 32),
        free_pages: be32(bytes, 36),
        cookie: be32(bytes, 40),
        format: be32(bytes, 44),
        largest_root: be32(bytes, 52),
        encoding: be32(bytes, 56),
        valid_for: be32(bytes, 92),
        version: be32(bytes, 96),
    }
}

#[cfg(test)]
mod tests {
    use super::*;
    use sx_bytes::Encoding;

    /// The header of a plain database: two pages of 512 bytes, UTF-8.
    fn plain_header() -> [u8; 100] {
        let mut bytes = [0; 100];
        bytes[..16].copy_from_slice(MAGIC);
        bytes[16..24].copy_from_slice(&[0x02, 0x00, 0x01, 0x01, 0x00, 0x40, 0x20, 0x20]);
        bytes[27] = 2;
        bytes[31] = 2;
        bytes[43] = 1;
        bytes[47] = 4;
        bytes[59] = 1;
        bytes[95] = 2;
        bytes
    }

    #[test]
    fn each_fault_is_answered_at_its_bound(rt: HostRuntime) {
        let table = [
            (0, 0x52, Err(HeaderFault::Magic)),
            (15, 0x20, Err(HeaderFault::Magic)),
            (16, 0x01, Err(HeaderFault::PageSize)),
            (16, 0x03, Err(HeaderFault::PageSize)),
            (17, 0x01, Err(HeaderFault::PageSize)),
            (20, 33, Err(HeaderFault::Usable)),
            (20, 32, Ok((512, 480))),
            (56, 1, Err(HeaderFault::Encoding)),
            (59, 0, Ok((512, 512))),
            (59, 2, Ok((512, 512))),
            (59, 3, Ok((512, 512))),
            (59, 4, Err(HeaderFault::Encoding)),
            (31, 0, Ok((512, 512))),
        ];
        for (place, byte, want) in table {
            let mut bytes = plain_header();
            assert!(rt; place < bytes.len());
            bytes[place] = byte;
            let sizes = read_header(&bytes).map(|header| (header.page_size, header.usable));
            assert_eq!(rt; sizes, want, "byte {byte} at {place}");
        }
    }

    #[test]
    fn the_first_fault_is_answered(rt: HostRuntime) {
        let mut bytes = [0xff; 100];
        assert_eq!(rt; read_header(&bytes[..99]), Err(HeaderFault::Short));
        assert_eq!(rt; read_header(&bytes), Err(HeaderFault::Magic));
        bytes[..16].copy_from_slice(MAGIC);
        assert_eq!(rt; read_header(&bytes), Err(HeaderFault::PageSize));
        bytes[16..18].copy_from_slice(&[0x02, 0x00]);
        assert_eq!(rt; read_header(&bytes), Err(HeaderFault::Usable));
        bytes[16..18].copy_from_slice(&[0x00, 0x01]);
        assert_eq!(rt; read_header(&bytes), Err(HeaderFault::Encoding));
    }

    #[test]
    fn every_field_is_its_word(rt: HostRuntime) {
        let bytes = b"SQLite format 3\0\
            \x00\x01\x01\x01\xff\x40\x20\x20\x18\x19\x1a\x1b\x1c\x1d\x1e\x1f\x20\x21\x22\x23\x24\
            \x25\x26\x27\x28\x29\x2a\x2b\x2c\x2d\x2e\x2f\x30\x31\x32\x33\x34\x35\x36\x37\x00\x00\
            \x00\x03\x3c\x3d\x3e\x3f\x40\x41\x42\x43\x44\x45\x46\x47\x48\x49\x4a\x4b\x4c\x4d\x4e\
            \x4f\x50\x51\x52\x53\x54\x55\x56\x57\x58\x59\x5a\x5b\x5c\x5d\x5e\x5f\x60\x61\x62\x63";
        let want = Header {
            page_size: 65536,
            usable: 65281,
            change: 0x1819_1a1b,
            pages: 0x1c1d_1e1f,
            free_head: 0x2021_2223,
            free_pages: 0x2425_2627,
            cookie: 0x2829_2a2b,
            format: 0x2c2d_2e2f,
            largest_root: 0x3435_3637,
            encoding: 3,
            valid_for: 0x5c5d_5e5f,
            version: 0x6061_6263,
        };
        assert_eq!(rt; read_header(bytes), Ok(want));
        let table = [
            (0, Encoding::Utf8),
            (1, Encoding::Utf8),
            (2, Encoding::Utf16Le),
            (3, Encoding::Utf16Be),
        ];
        for (encoding, text) in table {
            assert_eq!(rt; Header { encoding, ..want }.text(), text, "at {encoding}");
        }
    }
}
