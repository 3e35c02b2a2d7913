//! The states of a write-ahead log, as its header says.
ghost use Rattle.std.specs.Prelude.{◌≡◌, ◌+◌, ◌≤◌, true, length};
ghost use Rattle.sx_wal.specs.State.{is_big, two_words_at, header_sums, state_of, has_slots};

use crate::checksum::sums;
use sx_bytes::{be32, can_be_page_size};

/// The length of the log's header in bytes.
pub const HEADER_LEN: usize = 32;

/// The magic of a log whose checksum reads words with the low byte first.
const LITTLE_MAGIC: u32 = 0x377f_0682;

/// The magic of a log whose checksum reads words with the high byte first.
const BIG_MAGIC: u32 = 0x377f_0683;

/// The only version of the format.
const VERSION: u32 = 3_007_000;

/// What a write-ahead log is: the first of these that applies, in the order of the variants ("WAL File Format").
///
/// Frames are looked for in the last two states alone.
#[derive(Clone, Copy, Debug, PartialEq, Eq)]
pub enum WalState {
    /// There is no log.
    Absent,
    /// It has fewer than the 32 bytes of a header.
    Short,
    /// Its first word is neither of the two magics.
    BadMagic,
    /// Its version isn't 3007000.
    BadVersion,
    /// Its page size is no power of two from 512 to 65536.
    BadPageSize,
    /// Its page size isn't the database's.
    OtherPageSize,
    /// The checksum in its header isn't that of the header's first 24 bytes.
    BadHeaderSum,
    /// Its header is right.
    Good,
}

impl WalState {
    /// Whether frames are looked for in a log of this state.
    pub(crate) fn has_slots(self) -> bool
        ensures { result ≡ has_slots self }
    {
        matches!(self, WalState::Good | WalState::BadHeaderSum)
    }
}

/// The state of a log that is there, for a database of this page size.
#[tactic(auto, unfolding(crate::specs::State::state_of))]
pub fn read_state(bytes: &[u8], page_size: u32) -> WalState
    ensures state { result ≡ state_of bytes.now page_size }
    ensures header { has_slots result ≡ true → 32 ≤ length bytes.now }
{
    if bytes.len() < HEADER_LEN {
        return WalState::Short;
    }
    let magic = be32(bytes, 0);
    if magic != LITTLE_MAGIC && magic != BIG_MAGIC {
        return WalState::BadMagic;
    }
    if be32(bytes, 4) != VERSION {
        return WalState::BadVersion;
    }
    let stored = be32(bytes, 8);
    if !can_be_page_size(stored) {
        return WalState::BadPageSize;
    }
    if stored != page_size {
        return WalState::OtherPageSize;
    }
    let right = sums_of_header(bytes);
    if be32(bytes, 24) != right.0 || be32(bytes, 28) != right.1 {
        return WalState::BadHeaderSum;
    }
    WalState::Good
}

/// Whether the checksum of the log reads words with the high byte first.
pub fn reads_big(bytes: &[u8]) -> bool
    requires { 32 ≤ length bytes.now }
    ensures { result ≡ is_big bytes.now }
{
    be32(bytes, 0) == BIG_MAGIC
}

/// The checksum of the header's first 24 bytes, with which that of the frames begins.
#[tactic(auto, unfolding(crate::specs::State::header_sums))]
pub fn sums_of_header(bytes: &[u8]) -> (u32, u32)
    requires { 32 ≤ length bytes.now }
    ensures { result ≡ header_sums bytes.now }
{
    sums(reads_big(bytes), (0, 0), &bytes[..24])
}
