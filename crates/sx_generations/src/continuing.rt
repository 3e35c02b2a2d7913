//! The frames of a log, and which of them continue the one before.
ghost use Rattle.std.specs.Prelude.{◌≡◌, ◌+◌, ◌^◌, ◌<◌, ◌≤◌, ◌++◌, length, take, drop, slice_get, Some};
ghost use Rattle.sx_bytes.specs.PageSize.{IsPageSize};
ghost use Rattle.sx_wal.specs.Checksum.{sums_of};
ghost use Rattle.sx_wal.specs.State.{is_big, two_words_at};
ghost use Rattle.sx_wal.specs.Frames.{frame_at, frame_len, covered};
ghost use Rattle.sx_generations.specs.Older.{AreTestedFrames, IsTestedFrame, salts_at, stored_sums, is_valid_class, may_be_older, keeps_salts, continues_sums, continues, has_size};

use crate::neighbours::Neighbours;
use sx_base::Class;
use sx_bytes::be32;
use sx_wal::{Slot, WalIndex, sums};

/// The length of a frame's header in bytes.
const FRAME_HEADER_LEN: usize = 24;

/// The magic of a log whose checksum reads words with the high byte first.
const BIG_MAGIC: u32 = 0x377f_0683;

/// The bytes of a log, and its slots.
#[derive(Clone, Copy)]
pub struct Frames<'a> {
    pub bytes: &'a [u8],
    pub page_size: usize,
    pub slots: &'a WalIndex,
    pub ghost size: { IsPageSize page_size },
    pub ghost few: { length slots.now.slots < 2 ^ 32 },
    pub ghost tested: { AreTestedFrames page_size bytes.now slots.now.slots },
}

impl<'a> Frames<'a> {
    /// Slot `i`.
    fn slot(&self, i: u32) -> Slot
        requires { i < length self.now.slots.now.slots }
        ensures { IsTestedFrame self.now.page_size self.now.bytes.now i result }
    {
        self.slots.slot(i)
    }

    /// Where frame `i` begins, in bytes from the start of the log.
    pub fn frame_at(&self, i: u32) -> usize
        requires { i < length self.now.slots.now.slots }
        ensures value { result ≡ frame_at self.now.page_size i }
        ensures within { result + frame_len self.now.page_size ≤ length self.now.bytes.now }
    {
        self.slot(i).offset as usize - FRAME_HEADER_LEN
    }

    /// Whether slot `i` isn't valid, and has a page number.
    #[tactic(auto, unfolding(crate::specs::Older::may_be_older))]
    fn may_be_older(&self, i: u32) -> bool
        requires { i < length self.now.slots.now.slots }
        ensures { result ≡ may_be_older self.now.page_size self.now.bytes.now i }
    {
        let slot = self.slot(i);
        !is_valid_class(slot.class) && slot.page != 0
    }

    /// The salts of frame `i`.
    pub fn salts_at(&self, i: u32) -> (u32, u32)
        requires { i < length self.now.slots.now.slots }
        ensures { result ≡ salts_at self.now.page_size self.now.bytes.now i }
    {
        two_words(self.bytes, self.frame_at(i) + 8)
    }

    /// The sums that frame `i` stores.
    fn stored_sums(&self, i: u32) -> (u32, u32)
        requires { i < length self.now.slots.now.slots }
        ensures { result ≡ stored_sums self.now.page_size self.now.bytes.now i }
    {
        two_words(self.bytes, self.frame_at(i) + 16)
    }

    /// The checksum continued over frame `i`: its first 8 bytes and its page.
    #[tactic(auto, using(sx_wal::proofs::FrameLemmas::whole_pairs))]
    fn sums_over(&self, before: (u32, u32), i: u32) -> (u32, u32)
        requires { i < length self.now.slots.now.slots }
        ensures { result ≡ sums_of (is_big self.now.bytes.now) before (covered self.now.page_size self.now.bytes.now i) }
    {
        let at = self.frame_at(i);
        let big = be32(self.bytes, 0) == BIG_MAGIC;
        let head = sums(big, before, &self.bytes[at..at + 8]);
        let page = at + FRAME_HEADER_LEN;
        sums(big, head, &self.bytes[page..page + self.page_size])
    }

    /// Whether slot `i + 1` has the salts of slot `i`.
    #[tactic(auto, unfolding(crate::specs::Older::keeps_salts))]
    fn keeps_salts(&self, i: u32) -> bool
        requires { i + 1 < length self.now.slots.now.slots }
        ensures { result ≡ keeps_salts self.now.page_size self.now.bytes.now i }
    {
        let before = self.salts_at(i);
        let after = self.salts_at(i + 1);
        before.0 == after.0 && before.1 == after.1
    }

    /// Whether slot `i + 1` stores the sums of slot `i`, continued over itself.
    #[tactic(auto, unfolding(crate::specs::Older::continues_sums))]
    fn continues_sums(&self, i: u32) -> bool
        requires { i + 1 < length self.now.slots.now.slots }
        ensures { result ≡ continues_sums self.now.page_size self.now.bytes.now i }
    {
        let through = self.sums_over(self.stored_sums(i), i + 1);
        let stored = self.stored_sums(i + 1);
        stored.0 == through.0 && stored.1 == through.1
    }

    /// Whether slot `i` has a size word.
    pub fn has_size(&self, i: u32) -> bool
        requires { i < length self.now.slots.now.slots }
        ensures { result ≡ has_size self.now.page_size self.now.bytes.now i }
    {
        self.slot(i).commit_size != 0
    }
}

impl<'a> Neighbours for Frames<'a> {
    ghost use Rattle.std.specs.Prelude.{length};
    ghost use Rattle.sx_generations.specs.Older.{continues};

    ghost places = { λ frames. length frames.slots.now.slots };

    ghost joined = { λ frames. continues frames.page_size frames.bytes.now };

    fn count(&self) -> u32 {
        self.slots.slots()
    }

    /// Whether slot `i + 1` continues slot `i`. The sums come last, so that only where all else fits they are taken.
    #[tactic(auto, unfolding(crate::specs::Older::continues))]
    fn joins(&self, i: u32) -> bool {
        let older = self.may_be_older(i) && self.may_be_older(i + 1);
        older && self.keeps_salts(i) && self.continues_sums(i)
    }
}

/// Two words, one after the other.
fn two_words(bytes: &[u8], at: usize) -> (u32, u32)
    requires { at + 8 ≤ length bytes.now }
    ensures { result ≡ two_words_at bytes.now at }
{
    (be32(bytes, at), be32(bytes, at + 4))
}

/// Whether a slot of this class is valid.
fn is_valid_class(class: Class) -> bool
    ensures { result ≡ is_valid_class class }
{
    matches!(class, Class::Committed | Class::Pending)
}
