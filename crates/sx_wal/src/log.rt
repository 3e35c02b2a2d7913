//! A write-ahead log whose header was read, and its frames one by one.
ghost use Rattle.std.specs.Prelude.{◌≡◌, ◌+◌, ◌≤◌, ◌<◌, ◌^◌, length};
ghost use Rattle.sx_bytes.specs.PageSize.{IsPageSize};
ghost use Rattle.sx_wal.specs.Checksum.{sums_of};
ghost use Rattle.sx_wal.specs.State.{is_big, two_words_at, are_same};
ghost use Rattle.sx_wal.specs.Frames.{frame_len, frame_at, whole_frames, covered, has_salts, agrees, is_valid};
ghost use Rattle.sx_wal.specs.Wal.{is_commit, class_past};
ghost use Rattle.sx_wal.specs.Walk.{run_of, slot_past};

use crate::checksum::sums;
use crate::slot::Slot;
use crate::state::{HEADER_LEN, reads_big};
use sx_base::Class;
use sx_bytes::be32;

/// The length of a frame's header in bytes.
const FRAME_HEADER_LEN: usize = 24;

/// The bytes of a log that has a header, and the size of its pages.
#[derive(Clone, Copy)]
pub struct Log<'a> {
    pub bytes: &'a [u8],
    pub page_size: usize,
    /// Whether the checksum reads words with the high byte first.
    pub big: bool,
    pub ghost size: { IsPageSize page_size },
    pub ghost header: { 32 ≤ length bytes.now },
    pub ghost bounded: { length bytes.now < 2 ^ 32 },
    pub ghost order: { big ≡ is_big bytes.now },
}

impl<'a> Log<'a> {
    /// The log in `bytes`, which have a header.
    pub fn new(bytes: &'a [u8], page_size: u32) -> Log<'a>
        requires size { IsPageSize page_size }
        requires header { 32 ≤ length bytes.now }
        requires bounded { length bytes.now < 2 ^ 32 }
        ensures bytes { result.bytes.now ≡ bytes.entry.now }
        ensures size { result.page_size ≡ page_size }
    {
        Log {
            bytes,
            page_size: page_size as usize,
            big: reads_big(bytes),
        }
    }

    /// How many whole frames stand behind the header.
    pub fn frames(&self) -> usize
        ensures count { result ≡ whole_frames self.now.page_size self.now.bytes.now }
        ensures few { result < 2 ^ 32 }
    {
        (self.bytes.len() - HEADER_LEN) / (FRAME_HEADER_LEN + self.page_size)
    }

    /// Where frame `i` begins, in bytes from the start of the log.
    #[tactic(auto, using(crate::proofs::FrameLemmas::frame_within))]
    pub fn frame_at(&self, i: usize) -> usize
        requires { i < whole_frames self.now.page_size self.now.bytes.now }
        ensures value { result ≡ frame_at self.now.page_size i }
        ensures within { result + frame_len self.now.page_size ≤ length self.now.bytes.now }
    {
        HEADER_LEN + i * (FRAME_HEADER_LEN + self.page_size)
    }

    /// The checksum continued over frame `i`: its first 8 bytes and its page.
    #[tactic(auto, using(crate::proofs::FrameLemmas::whole_pairs))]
    fn sums_over_frame(&self, before: (u32, u32), i: usize) -> (u32, u32)
        requires { i < whole_frames self.now.page_size self.now.bytes.now }
        ensures { result ≡ sums_of (is_big self.now.bytes.now) before
            (covered self.now.page_size self.now.bytes.now i) }
    {
        let at = self.frame_at(i);
        let head = sums(self.big, before, &self.bytes[at..at + 8]);
        let page = at + FRAME_HEADER_LEN;
        sums(self.big, head, &self.bytes[page..page + self.page_size])
    }

    /// Whether frame `i` has the salts of the log's header.
    #[tactic(auto, unfolding(crate::specs::Frames::has_salts))]
    pub fn has_salts(&self, i: usize) -> bool
        requires { i < whole_frames self.now.page_size self.now.bytes.now }
        ensures { result ≡ has_salts self.now.page_size self.now.bytes.now i }
    {
        let at = self.frame_at(i);
        be32(self.bytes, at + 8) == be32(self.bytes, 16)
            && be32(self.bytes, at + 12) == be32(self.bytes, 20)
    }

    /// Whether frame `i` has a page number, the salts of the log's header, and stores `through`.
    #[tactic(auto, unfolding(crate::specs::Frames::agrees))]
    fn agrees(&self, i: usize, through: (u32, u32)) -> bool
        requires { i < whole_frames self.now.page_size self.now.bytes.now }
        ensures { result ≡ agrees self.now.page_size self.now.bytes.now i through }
    {
        be32(self.bytes, self.frame_at(i)) != 0 && self.has_salts(i) && self.stores(i, through)
    }

    /// Whether frame `i` stores these sums.
    fn stores(&self, i: usize, through: (u32, u32)) -> bool
        requires { i < whole_frames self.now.page_size self.now.bytes.now }
        ensures { result ≡ are_same
            (two_words_at self.now.bytes.now (frame_at self.now.page_size i + 16)) through }
    {
        let at = self.frame_at(i);
        be32(self.bytes, at + 16) == through.0 && be32(self.bytes, at + 20) == through.1
    }

    #[tactic(auto, using(crate::proofs::RunLemmas::run_none))]
    /// The sums after frame `i`, from those after the frame before it; none from the first frame on that doesn't fit.
    pub fn continued(&self, run: Option<(u32, u32)>, i: usize) -> Option<(u32, u32)>
        requires within { i < whole_frames self.now.page_size self.now.bytes.now }
        requires so_far { run ≡ run_of self.now.page_size self.now.bytes.now i }
        ensures { result ≡ run_of self.now.page_size self.now.bytes.now (i + 1) }
    {
        let through = self.sums_over_frame(run?, i);
        if self.agrees(i, through) {
            Some(through)
        } else {
            None
        }
    }

    /// Slot `i`, valid or not, while no commit at it or past it is known.
    #[tactic(auto, unfolding(crate::specs::Walk::slot_past, crate::specs::Wal::class_past))]
    pub fn slot(&self, i: usize, valid: bool) -> Slot
        requires within { i < whole_frames self.now.page_size self.now.bytes.now }
        requires tested { valid ≡ is_valid self.now.page_size self.now.bytes.now i }
        ensures { result ≡ slot_past self.now.page_size self.now.bytes.now i }
    {
        let at = self.frame_at(i);
        Slot {
            page: be32(self.bytes, at),
            commit_size: be32(self.bytes, at + 4),
            offset: (at + FRAME_HEADER_LEN) as u64,
            class: self.class_past(i, valid),
        }
    }

    /// Whether slot `i`, valid or not, is a commit.
    pub fn is_commit(&self, i: usize, valid: bool) -> bool
        requires within { i < whole_frames self.now.page_size self.now.bytes.now }
        requires tested { valid ≡ is_valid self.now.page_size self.now.bytes.now i }
        ensures { result ≡ is_commit self.now.page_size self.now.bytes.now i }
    {
        valid && be32(self.bytes, self.frame_at(i) + 4) != 0
    }

    /// The class of slot `i`, valid or not, where it is past the last commit.
    #[tactic(auto, unfolding(crate::specs::Wal::class_past))]
    fn class_past(&self, i: usize, valid: bool) -> Class
        requires within { i < whole_frames self.now.page_size self.now.bytes.now }
        requires tested { valid ≡ is_valid self.now.page_size self.now.bytes.now i }
        ensures { result ≡ class_past self.now.page_size self.now.bytes.now i }
    {
        if valid {
            Class::Pending
        } else if self.has_salts(i) {
            Class::Broken
        } else {
            Class::Foreign
        }
    }
}
