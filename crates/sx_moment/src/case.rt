//! A case: the evidence with its moments.
ghost use Rattle.std.specs.Prelude.{◌≡◌, ◌↔◌, Contains, ℕ, ◌+◌, ◌^◌, ◌<◌, ◌≤◌, ◌++◌, if◌then◌else◌, IsTrue, None, Some, length, map, slice_get, option_copied, IfOk};
ghost use Rattle.std.specs.List.{last_or};
ghost use Rattle.std.specs.Option.{option_map};
ghost use Rattle.sx_base.specs.Held.{held_pages};
ghost use Rattle.sx_base.specs.declared.moment.Moment.{Moment};
ghost use Rattle.sx_header.specs.Header.{HasRanges};
ghost use Rattle.sx_wal.specs.Wal.{wal_of};
ghost use Rattle.sx_journal.specs.Journal.{journal_of};
ghost use Rattle.sx_moment.specs.Gathered.{gathered, size_at, is_live_state, is_moment, moments_of};
ghost use Rattle.sx_moment.specs.Views.{slot_pages, image_at, view_of};
ghost use Rattle.sx_moment.specs.Firsts.{Rises, first_in};
ghost use Rattle.sx_moment.specs.Limits.{IsSmall};
ghost use Rattle.sx_moment.specs.Reading.{IsGathered};
ghost use Rattle.sx_moment.specs.Images.{past_only, marked_only, first_at, file_pages_at};
ghost use Rattle.sx_moment.specs.Counts.{AreCounts};

use crate::counts::counts_at_commits;
use crate::evidence::Evidence;
use crate::first_images::FirstImages;
use crate::gathering::{first_records, marked_images, past_of_records, past_of_slots, same_pages};
use crate::marks::Marks;
use crate::newest_slot::newest;
use crate::origin::Origin;
use crate::sources::Sources;
use std::alloc::{AllocError, Global};
use std::collections::BTreeMap;
use std::marker::Model;
use sx_base::Moment;
use sx_chain::{Chains, build};
use sx_header::Header;
use sx_journal::JournalIndex;
use sx_wal::WalIndex;

/// The evidence of a database, gathered once, so that each question about a moment takes no search of it.
#[derive(Drop)]
pub struct Case<'a> {
    pub(crate) sources: Sources<'a>,
    frames: Chains,
    past: FirstImages,
    marks: FirstImages,
    past_records: FirstImages,
    records: BTreeMap<u32, u32>,
    past_counts: Vec<u32>,
    mark_counts: Vec<u32>,
}

impl<'a> Model for Case<'a> {
    ghost use Rattle.std.specs.Ordering.{nat_cmp};
    ghost use Rattle.std.specs.BTreeMap.{get};
    ghost use Rattle.sx_moment.specs.Gathered.{Gathered};
    ghost use Rattle.sx_moment.specs.Kept.{IsCase};

    ghost Value = { Gathered };

    ghost view = { λ case. case.sources };

    ghost invariant = { λ case. IsCase case.sources case.frames case.past case.marks case.past_records (get nat_cmp case.records) case.past_counts.items case.mark_counts.items };
}

impl<'a> Case<'a> {
    /// Gathers the evidence of a database with this header.
    ///
    /// The log and the journal are read once. Each Committed slot is compared at most once with the page of the file.
    /// The cost is in proportion to the bytes of the log and the journal, with some look-ups for each slot and record;
    /// two counts are kept for each commit. It answers `AllocError` where memory runs out, and nothing else. Each file has
    /// fewer than 4,294,967,296 bytes, and `header` is what `read_header` gives for the database.
    pub fn gather(alloc: Global, header: Header, evidence: Evidence<'a>) -> Result<Self, AllocError>
        requires header { HasRanges header }
        requires small { IsSmall evidence.database.now (option_copied evidence.wal) (option_copied evidence.journal) }
        ensures { IfOk result (λ case. case
            ≡ gathered header evidence.entry.database.now (option_copied evidence.entry.wal) (option_copied evidence.entry.journal)) }
    {
        let sources = Sources::read(alloc, header, evidence)?;
        let same = same_pages(alloc, &sources)?;
        let frames = chain_slots(alloc, &sources)?;
        let marks = marked_images(alloc, &same, &frames)?;
        drop(same);
        let past = past_of_slots(alloc, &frames, &sources)?;
        let records = first_records(alloc, &sources)?;
        let past_records = past_of_records(alloc, &records, &sources)?;
        let past_counts = counts_at_commits(alloc, &sources, &past)?;
        let mark_counts = counts_at_commits(alloc, &sources, &marks)?;
        Ok(Case {
            sources,
            frames,
            past,
            marks,
            past_records,
            records,
            past_counts,
            mark_counts,
        })
    }

    /// The evidence with what its files were read as.
    pub(crate) fn sources(&self) -> &Sources<'a>
        ensures same { result.now ≡ self.now }
        ensures gathered { IsGathered self.now }
    {
        &self.sources
    }

    /// The header of the database file.
    pub fn header(&self) -> &Header
        ensures header { result.now ≡ self.now.header }
        ensures ranges { HasRanges self.now.header }
    {
        self.sources.header()
    }

    /// The evidence that was gathered.
    pub fn evidence(&self) -> Evidence<'a>
        ensures database { result.database.now ≡ self.now.database }
        ensures wal { option_copied result.wal ≡ self.now.wal_bytes }
        ensures journal { option_copied result.journal ≡ self.now.journal_bytes }
    {
        self.sources.evidence()
    }

    /// The write-ahead log: its state, slots and commits.
    pub fn wal(&self) -> &WalIndex
        ensures wal { result.now ≡ self.now.wal }
        ensures read { self.now.wal ≡ wal_of self.now.wal_bytes self.now.header.page_size }
    {
        self.sources.wal()
    }

    /// The rollback journal: its state, segments and records.
    pub fn journal(&self) -> &JournalIndex
        ensures journal { result.now ≡ self.now.journal }
        ensures read { self.now.journal ≡ journal_of self.now.journal_bytes self.now.header.page_size }
    {
        self.sources.journal()
    }

    /// The moments of the list are those that [`Case::snapshot`] accepts, and no others. This is a law of the definitions;
    /// the function has no code.
    pub fn moments_listed(&self)
        ensures { (moment : Moment) → IsTrue (is_moment self.now moment) ↔ Contains (moments_of self.now) moment }
    {
        let _sources = &self.sources;
    }

    /// How many moments the evidence holds.
    pub fn moments(&self) -> u32
        ensures { result ≡ length (moments_of self.now) }
    {
        self.before_file() + 1 + self.sources.commits()
    }

    /// Moment `i`, from 0: the journal's where that is live, then the file's, then those of the commits.
    pub fn moment(&self, i: u32) -> Moment
        requires { i < length (moments_of self.now) }
        ensures { slice_get (moments_of self.now) i ≡ Some result }
    {
        let before = self.before_file();
        if i < before {
            Moment::Journal
        } else if i == before {
            Moment::File
        } else {
            Moment::Commit(i - before)
        }
    }

    /// The last moment: that of the last commit, or the file's.
    pub fn last(&self) -> Moment
        ensures { last_or None (moments_of self.now) ≡ Some result }
    {
        match self.sources.commits() {
            0 => Moment::File,
            commits => Moment::Commit(commits),
        }
    }

    // How many moments stand before the file's.
    fn before_file(&self) -> u32
        ensures { result ≡ (if is_live_state self.now.journal.state then 1 else 0) }
    {
        if self.sources.has_journal() { 1 } else { 0 }
    }

    /// The image of a page that a moment has outside the file.
    pub(crate) fn image(&self, moment: Moment, no: u32) -> Option<Origin>
        requires { IsTrue (is_moment self.now moment) }
        ensures { result ≡ image_at self.now moment no }
    {
        match moment {
            Moment::Journal => self.records.get(&no).copied().map(Origin::Record),
            Moment::File => None,
            Moment::Commit(_) => {
                newest(&self.frames, no, self.sources.limit(moment)).map(Origin::Slot)
            }
        }
    }

    /// The pages past the end of the file that the images of a moment hold.
    pub(crate) fn past(&self, moment: Moment) -> &FirstImages
        ensures rise { Rises 1 result.now }
        ensures are { (number : ℕ) → first_in result.now number ≡ past_only self.now (first_at self.now moment) number }
    {
        match moment {
            Moment::Journal => &self.past_records,
            _ => &self.past,
        }
    }

    /// How many pages past the end of the file have a view at a moment, of this size.
    pub(crate) fn past_held(&self, moment: Moment, size: u32) -> u32
        requires listed { IsTrue (is_moment self.now moment) }
        requires size { size ≡ size_at self.now moment }
        ensures { length (file_pages_at self.now moment) + result ≡ length (held_pages (size_at self.now moment) (view_of self.now moment)) }
    {
        match moment {
            Moment::Journal => self.past_records.count_taken(self.sources.records(), size),
            Moment::File => 0,
            Moment::Commit(k) => self.past_counts[k as usize - 1],
        }
    }

    /// The pages that a Committed slot equals, and how many of them each commit sees.
    pub(crate) fn marks(&self) -> Marks<'_>
        ensures rise { Rises 1 result.images.now }
        ensures are { (number : ℕ) → first_in result.images.now number ≡ marked_only self.now number }
        ensures counted { AreCounts self.now result.images.now result.counts.now }
    {
        Marks {
            images: &self.marks,
            counts: &self.mark_counts,
        }
    }
}

// The slots, linked by their pages.
fn chain_slots(alloc: Global, sources: &Sources<'_>) -> Result<Chains, AllocError>
    ensures { IfOk result (λ chains. chains ≡ slot_pages sources.now) }
{
    let mut pages = Vec::with_capacity(alloc, sources.slots() as usize)?;
    for i in 0..sources.slots() {
        pages.push(sources.slot(i).page)?;
    }
    let chains = build(alloc, &pages)?;
    Ok(chains)
}
