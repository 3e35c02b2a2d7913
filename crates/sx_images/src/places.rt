//! The physical place of a byte of one of the files.
ghost use Rattle.std.specs.Prelude.{◌≡◌, ◌↔◌, ℕ, ◌+◌, ◌<◌, ◌≤◌, ◌++◌, ◌^◌, length, slice_get, Option, Some, None};
ghost use Rattle.std.specs.Option.{ForSome};
ghost use Rattle.sx_wal.specs.Frames.{frame_at, frame_len};
ghost use Rattle.sx_journal.specs.Segments.{record_len};
ghost use Rattle.sx_images.specs.Images.{Holds, pages_of, length_of};
ghost use Rattle.sx_images.specs.Places.{things_of, database_things, log_things, frame_things, record_things, run_things, gap_things, runs_things, place_among, holders, physical_of};
ghost use Rattle.sx_images.specs.Search.{Heads, IsReached};

use crate::physical::Physical;
use crate::stretch::Stretch;
use crate::table::ImageTable;
use sx_base::{Part, Place};

/// The length of the log's header in bytes.
const LOG_HEADER: u32 = 32;

/// The length of a frame's header in bytes.
const FRAME_HEADER: u32 = 24;

/// The length of the page number of a record of the journal, and that of its checksum, in bytes.
const RECORD_WORD: u32 = 4;

impl ImageTable {
    /// The physical place of a byte, and `None` exactly where the file is absent or has no byte at that offset.
    ///
    /// Exactly one thing of the file holds the byte, or none does, and then it is Loose. The cost is logarithmic in the
    /// segments of the journal, and constant in the other files. Takes no memory.
    #[tactic(auto, unfolding(crate::specs::Places::physical_of))]
    pub fn place_of(&self, place: Place) -> Option<Physical>
        ensures place { result ≡ physical_of self.now place }
        ensures once { holders (things_of self.now place.part) place.offset ≤ 1 }
        ensures image { (i b : ℕ) → (result ≡ Some (Physical.Image i b)) ↔ Holds self.now i b place }
    {
        if place.offset >= self.lengths.of(place.part) {
            return None;
        }
        Some(self.place_in(place.part, place.offset as u32))
    }

    /// The physical place of a byte that its file has.
    fn place_in(&self, part: Part, offset: u32) -> Physical
        requires { offset < length_of self.now.lengths part }
        ensures { result ≡ place_among (things_of self.now part) offset }
    {
        match part {
            Part::Database => in_database(self.page_size, self.pages(), offset),
            Part::Wal => {
                let len = self.lengths.of(Part::Wal);
                in_log(self.page_size, len, self.pages(), self.frames, offset)
            }
            Part::Journal => self.in_journal(offset),
        }
    }

    /// The place of a byte of the journal.
    fn in_journal(&self, offset: u32) -> Physical
        ensures { result ≡ place_among (runs_things self.now 0 self.now.stretches) offset }
    {
        let runs = self.stretches.as_slice();
        let reached = runs_reached(runs, offset);
        if reached == 0 {
            return Physical::Loose;
        }
        let run = runs[reached - 1];
        let next = run_at(runs, reached);
        self.in_run((reached - 1) as u32, run, next, offset - run.head as u32)
    }

    /// The place of a byte of a run of the journal's records or behind it, by its offset in the run; `next` is the run
    /// behind it.
    fn in_run(&self, number: u32, run: Stretch, next: Option<Stretch>, at: u32) -> Physical
        requires there { slice_get self.now.stretches number ≡ Some run }
        requires small { run.head + at < 2 ^ 32 }
        requires nearer { ForSome next (λ other. run.head + at < other.head) }
        ensures { result ≡ place_among (run_things self.now number run ++ gap_things self.now run next) (run.head + at) }
    {
        if at < self.head_len {
            return Physical::JournalHead(number, at);
        }
        if at < self.sector {
            return Physical::Pad;
        }
        let size = self.page_size + 2 * RECORD_WORD;
        let nth = (at - self.sector) / size;
        if nth < run.entries {
            let images = self.pages() + self.frames;
            return in_record(
                self.page_size,
                images,
                run.first + nth,
                (at - self.sector) % size,
            );
        }
        match next {
            Some(_) => Physical::Pad,
            None => Physical::Loose,
        }
    }
}

/// The place of a byte of a database file of so many whole pages.
fn in_database(page_size: u32, pages: u32, offset: u32) -> Physical
    requires { 0 < page_size }
    ensures { result ≡ place_among (database_things page_size pages) offset }
{
    let page = offset / page_size;
    if page < pages {
        Physical::Image(page, offset % page_size)
    } else {
        Physical::Loose
    }
}

/// The place of a byte of a log of `len` bytes with so many frames, behind the images of so many pages.
fn in_log(page_size: u32, len: u64, pages: u32, frames: u32, offset: u32) -> Physical
    requires few { pages + frames < 2 ^ 32 }
    requires size { page_size ≤ 65536 }
    requires within { offset < len }
    ensures { result ≡ place_among (log_things page_size len pages frames) offset }
{
    if len < u64::from(LOG_HEADER) {
        return Physical::Loose;
    }
    if offset < LOG_HEADER {
        return Physical::WalHeader(offset);
    }
    let size = FRAME_HEADER + page_size;
    let frame = (offset - LOG_HEADER) / size;
    if frame >= frames {
        return Physical::Loose;
    }
    in_frame(page_size, pages, frame, (offset - LOG_HEADER) % size)
}

/// The place of a byte of a frame, by its offset in the frame.
fn in_frame(page_size: u32, pages: u32, frame: u32, at: u32) -> Physical
    requires few { pages + frame < 2 ^ 32 }
    requires within { at < frame_len page_size }
    ensures { (place : ℕ) → place ≡ frame_at page_size frame + at → result ≡ place_among (frame_things page_size pages frame) place }
{
    if at < FRAME_HEADER {
        Physical::FrameHead(frame, at)
    } else {
        Physical::Image(pages + frame, at - FRAME_HEADER)
    }
}

/// The place of a byte of a record of the journal, behind so many images, by its offset in the record.
fn in_record(page_size: u32, images: u32, number: u32, at: u32) -> Physical
    requires few { images + number < 2 ^ 32 }
    requires size { page_size ≤ 65536 }
    requires within { at < record_len page_size }
    ensures { (start place : ℕ) → place ≡ start + at → result ≡ place_among (record_things page_size images start number) place }
{
    if at < RECORD_WORD {
        return Physical::EntryHead(number, at);
    }
    if at < RECORD_WORD + page_size {
        return Physical::Image(images + number, at - RECORD_WORD);
    }
    Physical::EntrySum(number, at - RECORD_WORD - page_size)
}

/// How many of the runs, which follow one another, begin at an offset or before it.
fn runs_reached(runs: &[Stretch], offset: u32) -> usize
    requires { Heads 0 runs.now }
    ensures bound { result ≤ length runs.now }
    ensures searched { IsReached offset runs.now result }
{
    runs.partition_point(|run| run.head <= u64::from(offset))
}

/// The run of this number, if there is one.
fn run_at(runs: &[Stretch], number: usize) -> Option<Stretch>
    ensures { result ≡ slice_get runs.now number }
{
    runs.get(number).copied()
}
