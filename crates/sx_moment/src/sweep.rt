//! The moments of a case, one after the other, at the price of what changes.
ghost use Rattle.std.specs.Prelude.{◌≡◌, ◌↔◌, ◌+◌, ◌<◌, IsTrue, IfOk, IfSome, IfNone, Some, false, true, length, slice_get, slice_index};
ghost use Rattle.sx_moment.specs.Gathered.{moments_of};
ghost use Rattle.sx_moment.specs.Images.{Stands};
ghost use Rattle.sx_moment.specs.Views.{origin_of, source_of};
ghost use Rattle.sx_moment.specs.Ranks.{AreRanked};
ghost use Rattle.sx_moment.specs.Sweep.{AreChanged, GoesOn, HoldViewed};
ghost use Rattle.sx_moment.specs.Turning.{AreOrigins, base_of};
ghost use Rattle.sx_moment.specs.Turns.{is_among};

use crate::case::Case;
use crate::changes::Changes;
use crate::origin::Origin;
use crate::ranked::ranked;
use crate::ranks::Ranks;
use crate::snapshot::Snapshot;
use crate::turning::turn;
use std::alloc::{AllocError, Global};
use std::marker::Model;
use sx_base::{Moment, PageViews, Pages, Place};

/// The pages of a case at its moments, from the first on. As [`Pages`] it is the snapshot of the moment in hand.
///
/// The rank of a page is its place in the rising list of all pages that some moment may hold. For each rank it keeps where the
/// image of the page stands, so that a page is one look at an array; and it names the ranks whose images changed since they
/// were last settled.
#[derive(Drop)]
pub struct Sweep<'c, 'a> {
    snapshot: Snapshot<'c, 'a>,
    place: u32,
    ranks: Ranks,
    origins: Vec<Option<Origin>>,
    changes: Changes,
}

impl<'c, 'a> Model for Sweep<'c, 'a> {
    ghost use Rattle.sx_moment.specs.Sweep.{Swept};
    ghost use Rattle.sx_moment.specs.Upkeep.{IsSwept};

    ghost Value = { Swept };

    ghost view = { λ sweep. record {
      case = sweep.snapshot.case.now;
      place = sweep.place;
      moment = sweep.snapshot.moment;
      numbers = sweep.ranks;
      settled = sweep.changes.settled;
      changed = sweep.changes.listed;
    } };

    ghost invariant = { λ sweep. IsSwept sweep.snapshot.case.now sweep.place sweep.snapshot.moment sweep.ranks sweep.origins.items sweep.changes.settled sweep.changes.turns };
}

impl<'a> Case<'a> {
    /// A walk over the moments in the order of [`Case::moment`], which stands at the first of them, with no moment settled.
    ///
    /// It takes all memory of the walk, 24 bytes for each page of the file and for each page past its end that a slot or a
    /// Good record holds, and the time of sorting these pages. It answers `AllocError` where memory runs out, and nothing
    /// else.
    pub fn sweep(&self, alloc: Global) -> Result<Sweep<'_, 'a>, AllocError>
        ensures { IfOk result (λ sweep. (sweep.case ≡ self.now) × (sweep.place ≡ 0) × (sweep.settled ≡ 0)) }
    {
        let ranks = ranked(alloc, self)?;
        let snapshot = self.snapshot_at(0);
        let origins = origins_at(alloc, &snapshot, &ranks)?;
        let changes = Changes::fresh(alloc, ranks.len())?;
        Ok(Sweep {
            snapshot,
            place: 0,
            ranks,
            origins,
            changes,
        })
    }

    // The pages at the moment of a place in the list.
    fn snapshot_at(&self, i: u32) -> Snapshot<'_, 'a>
        requires { i < length (moments_of self.now) }
        ensures case { result.case.now ≡ self.now }
        ensures moment { slice_get (moments_of self.now) i ≡ Some result.moment }
    {
        self.moments_listed();
        match self.snapshot(self.moment(i)) {
            Some(snapshot) => snapshot,
            None => unreachable!(),
        }
    }
}

impl<'c, 'a> Sweep<'c, 'a> {
    /// The moment in hand.
    pub fn moment(&self) -> Moment
        ensures value { result ≡ self.now.moment }
        ensures there { slice_get (moments_of self.now.case) self.now.place ≡ Some self.now.moment }
    {
        self.snapshot.moment
    }

    /// The snapshot of the moment in hand.
    pub fn snapshot(&self) -> Snapshot<'c, 'a>
        ensures case { result.case.now ≡ self.now.case }
        ensures moment { result.moment ≡ self.now.moment }
    {
        self.snapshot
    }

    /// Goes to the next moment, and says whether there is one: at the last it changes nothing.
    ///
    /// The cost is the slots from the moment's commit back to the one before, and the ranks between the sizes of the two moments;
    /// from the journal's moment to the file's, which comes once, it is all ranks. It takes no memory.
    pub fn next(&mut self) -> bool
        ensures more { IsTrue result ↔ (self.old.place + 1 < length (moments_of self.old.case)) }
        ensures next { result ≡ true → GoesOn self.old self.new }
        ensures last { result ≡ false → self.new ≡ self.old }
    {
        let case = self.snapshot.case;
        let moments = case.moments();
        if self.place + 1 >= moments {
            return false;
        }
        let place = self.place + 1;
        let next = case.snapshot_at(place);
        turn(
            &self.snapshot,
            &next,
            &self.ranks,
            &mut self.origins,
            &mut self.changes,
            place + 1,
        );
        self.snapshot = next;
        self.place = place;
        true
    }

    /// How many ranks there are.
    pub fn ranks(&self) -> u32
        ensures { result ≡ length self.now.numbers }
    {
        self.ranks.len()
    }

    /// The numbers of the pages by rank. They rise, and each page that has a view at some moment is among them.
    pub fn numbers(&self) -> &[u32]
        ensures value { result.now ≡ self.now.numbers }
        ensures ranked { AreRanked self.now.case self.now.numbers }
        ensures all { HoldViewed self.now.case self.now.numbers }
    {
        let _sources = self.snapshot.case.sources();
        self.ranks.numbers()
    }

    /// The number of the page of a rank.
    pub fn number(&self, rank: u32) -> u32
        requires { rank < length self.now.numbers }
        ensures { result ≡ slice_index self.now.numbers rank }
    {
        self.ranks.number(rank)
    }

    /// The rank of a page, where it has one. A page of the file is found in two looks, any other by a binary search.
    pub fn rank(&self, no: u32) -> Option<u32>
        ensures some { IfSome result (λ rank. (rank < length self.now.numbers) × (slice_index self.now.numbers rank ≡ no)) }
        ensures none { IfNone result (is_among self.now.numbers no ≡ false) }
    {
        self.ranks.rank(no)
    }

    /// The place in the evidence where the view of the page of a rank begins, and `None` exactly where it has no view. It
    /// is one look at an array.
    pub fn source(&self, rank: u32) -> Option<Place>
        requires { rank < length self.now.numbers }
        ensures { result ≡ source_of self.now.case self.now.moment (slice_index self.now.numbers rank) }
    {
        match self.shown(rank) {
            Some(origin) => Some(
                self.snapshot
                    .case
                    .sources()
                    .place(origin, self.ranks.number(rank)),
            ),
            None => None,
        }
    }

    /// The ranks whose pages changed since [`Sweep::settled`] was called last, each once; before its first call they are all
    /// ranks.
    ///
    /// Each rank among them has a page that came from elsewhere at some moment since than at the one before; the page of every
    /// other rank comes from where it came when that call was made, and so has the same view and the same source.
    pub fn changed(&self) -> &[u32]
        ensures value { result.now ≡ self.now.changed }
        ensures changed { AreChanged self.now }
    {
        self.changes.listed()
    }

    /// No rank is changed from here on, until another moment changes it. It takes no time in proportion to the ranks.
    pub fn settled(&mut self)
        ensures case { self.new.case ≡ self.old.case }
        ensures place { self.new.place ≡ self.old.place }
        ensures moment { self.new.moment ≡ self.old.moment }
        ensures numbers { self.new.numbers ≡ self.old.numbers }
        ensures settled { self.new.settled ≡ self.old.place + 1 }
    {
        let _moments = self.snapshot.case.moments();
        self.changes.settle(self.place + 1);
    }

    // Where the view of the page of a rank comes from, if it has one.
    fn shown(&self, rank: u32) -> Option<Origin>
        requires { rank < length self.now.numbers }
        ensures origin { result ≡ origin_of self.now.case self.now.moment (slice_index self.now.numbers rank) }
        ensures stands { IfSome result (Stands self.now.case (slice_index self.now.numbers rank)) }
    {
        let size = self.snapshot.case.sources().size(self.snapshot.moment);
        if self.ranks.number(rank) <= size {
            self.origins[rank as usize]
        } else {
            None
        }
    }
}

impl<'c, 'a> PageViews for Sweep<'c, 'a> {
    ghost use Rattle.sx_moment.specs.Gathered.{size_at};
    ghost use Rattle.sx_moment.specs.Views.{view_of};

    ghost pages = { λ sweep. size_at sweep.case sweep.moment };

    ghost page_size = { λ sweep. sweep.case.header.page_size };

    ghost view = { λ sweep. view_of sweep.case sweep.moment };
}

impl<'c, 'a> Pages<'a> for Sweep<'c, 'a> {
    fn size(&self) -> u32 {
        self.snapshot.size()
    }

    fn page(&self, no: u32) -> Option<&'a [u8]> {
        let sources = self.snapshot.case.sources();
        let Some(rank) = self.ranks.rank(no) else {
            return None;
        };
        match self.shown(rank) {
            Some(origin) => Some(sources.bytes(origin, no)),
            None => None,
        }
    }

    fn held(&self) -> u32 {
        self.snapshot.held()
    }

    fn held_at(&self, i: u32) -> u32 {
        self.snapshot.held_at(i)
    }

    fn next_held(&self, after: u32) -> Option<u32> {
        self.snapshot.next_held(after)
    }
}

// Where the image of each page stands at a moment, by rank.
fn origins_at(
    alloc: Global,
    snapshot: &Snapshot<'_, '_>,
    ranks: &Ranks,
) -> Result<Vec<Option<Origin>>, AllocError>
    ensures { IfOk result (λ origins. AreOrigins (base_of snapshot.now.case.now snapshot.now.moment) ranks.now origins.items) }
{
    let mut origins = Vec::with_capacity(alloc, ranks.len() as usize)?;
    for rank in 0..ranks.len() {
        origins.push(image_of(snapshot, ranks.number(rank)))?;
    }
    Ok(origins)
}

// Where the image of a page stands at a moment, whatever its size.
fn image_of(snapshot: &Snapshot<'_, '_>, no: u32) -> Option<Origin>
    ensures { result ≡ base_of snapshot.now.case.now snapshot.now.moment no }
{
    match snapshot.case.image(snapshot.moment, no) {
        Some(origin) => Some(origin),
        None if no <= snapshot.case.sources().page_count() => Some(Origin::Database),
        None => None,
    }
}
