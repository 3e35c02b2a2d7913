//! Numbers of a fixed width, the high byte first, as every field of the file formats has them.
ghost use Rattle.std.specs.Prelude.{◌≡◌, ◌+◌, ◌^◌, ◌<◌, ◌≤◌, length};
ghost use Rattle.sx_base.specs.Bytes.{two_bytes_at, three_bytes_at, word_at, six_bytes_at, eight_bytes_at};

use byteorder::{BigEndian, ByteOrder};

/// The number in the 2 bytes from place `at` of `b`, the high byte first.
pub fn be16(b: &[u8], at: usize) -> u16
    requires { at + 2 ≤ length b.now }
    ensures { result ≡ two_bytes_at b.now at }
{
    BigEndian::read_u16(&b[at..])
}

/// The number in the 3 bytes from place `at` of `b`, the high byte first, so it is below 2^24.
pub fn be24(b: &[u8], at: usize) -> u32
    requires { at + 3 ≤ length b.now }
    ensures value { result ≡ three_bytes_at b.now at }
    ensures below { result < 2 ^ 24 }
{
    BigEndian::read_u24(&b[at..])
}

/// The word in the 4 bytes from place `at` of `b`, the high byte first.
pub fn be32(b: &[u8], at: usize) -> u32
    requires { at + 4 ≤ length b.now }
    ensures { result ≡ word_at b.now at }
{
    BigEndian::read_u32(&b[at..])
}

/// The number in the 6 bytes from place `at` of `b`, the high byte first, so it is below 2^48.
pub fn be48(b: &[u8], at: usize) -> u64
    requires { at + 6 ≤ length b.now }
    ensures value { result ≡ six_bytes_at b.now at }
    ensures below { result < 2 ^ 48 }
{
    BigEndian::read_u48(&b[at..])
}

/// The number in the 8 bytes from place `at` of `b`, the high byte first.
pub fn be64(b: &[u8], at: usize) -> u64
    requires { at + 8 ≤ length b.now }
    ensures { result ≡ eight_bytes_at b.now at }
{
    BigEndian::read_u64(&b[at..])
}

#[cfg(test)]
mod tests {
    use super::*;

    #[test]
    fn numbers_begin_at_their_place(rt: HostRuntime) {
        let bytes = [0x00, 0x81, 0x02, 0x03, 0x04, 0x05, 0x06, 0x07, 0x08];
        assert_eq!(rt; be16(&bytes, 1), 0x8102);
        assert_eq!(rt; be24(&bytes, 1), 0x81_0203);
        assert_eq!(rt; be32(&bytes, 1), 0x8102_0304);
        assert_eq!(rt; be48(&bytes, 1), 0x8102_0304_0506);
        assert_eq!(rt; be64(&bytes, 1), 0x8102_0304_0506_0708);
    }
}
