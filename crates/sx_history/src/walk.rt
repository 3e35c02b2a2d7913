//! What a tree holds under a rowid, at one moment after the other.
ghost use Rattle.std.specs.Prelude.{◌≡◌, ℕ, ◌<◌, ◌≤◌, IsTrue, false, true, map, length, replicate, option_copied, All, IfOk, OnOk};
ghost use Rattle.std.specs.List.Sorted.{IsStrictlyIncreasing};
ghost use Rattle.sx_history.specs.Given.{faults_by, items_by};
ghost use Rattle.sx_history.specs.History.{faults_of, found_of};
ghost use Rattle.sx_history.specs.Marks.{AreLinkedBut, AreMarked, AreNamedBut, AreWhole};
ghost use Rattle.sx_history.specs.Standing.{Covers, IfStanding, IsStanding, StandBut, StandsAt};

use crate::gathering::history;
use crate::listing::History;
use crate::marks::{mark_again, mark_on, marks_fit};
use crate::setting::{Setting, same_setting};
use crate::steady::all_steady;
use crate::views::{look_again, views_of};
use std::alloc::{AllocError, Global};
use std::marker::Model;
use sx_base::Pages;

/// What a tree holds under a rowid, for a walk over moments that hold pages of one list of numbers.
///
/// The rank of a page is its place in that list, from 0. Kept by rank are the view of each page, and two marks: a walk over the
/// tree may go into it as a b-tree page, and over it as an overflow page.
#[derive(Drop)]
pub struct HistoryWalk<'a> {
    alloc: Global,
    numbers: Vec<u32>,
    views: Vec<Option<&'a [u8]>>,
    rowid: i64,
    setting: Setting,
    history: History,
    nodes: Vec<bool>,
    chains: Vec<bool>,
    // Whether all this is that of the moment: not so where memory ran out on the way to it.
    stands: bool,
}

impl<'a> Model for HistoryWalk<'a> {
    ghost use Rattle.std.specs.Prelude.{◌≡◌, length, map, option_copied};
    ghost use Rattle.std.specs.List.Sorted.{IsStrictlyIncreasing};
    ghost use Rattle.sx_history.specs.Given.{faults_by, items_by};
    ghost use Rattle.sx_history.specs.Standing.{IfStanding, Walk};

    ghost Value = { Walk };

    ghost view = { λ walk. record { numbers = walk.numbers.items; views = map option_copied walk.views.items; rowid = walk.rowid; found = items_by walk.history; faults = faults_by walk.history } };

    ghost invariant = { λ walk. IsStrictlyIncreasing walk.numbers.items × (length walk.views.items ≡ length walk.numbers.items) × (length walk.nodes.items ≡ length walk.numbers.items) × (length walk.chains.items ≡ length walk.numbers.items) × IfStanding walk.stands walk.numbers.items (map option_copied walk.views.items) walk.setting.size walk.setting.usable walk.setting.root walk.rowid walk.history walk.nodes.items walk.chains.items };
}

impl<'a> HistoryWalk<'a> {
    /// What the tree of the first moment holds under a rowid, as [`history`](crate::history) finds it.
    ///
    /// The numbers rise, and each page with a view is among them. The cost is that of [`history`](crate::history), of reading each
    /// page of the tree once more, and a look at each number; 22 bytes a number are taken. It answers `AllocError` where
    /// memory runs out.
    pub fn start<P: Pages<'a>>(
        alloc: Global,
        pages: &P,
        numbers: &[u32],
        usable: u32,
        root: u32,
        rowid: i64,
    ) -> Result<Self, AllocError>
        requires rising { IsStrictlyIncreasing numbers.now }
        requires covered { Covers numbers.now (P.view pages.now) }
        requires least { 480 ≤ usable }
        requires within { usable ≤ P.page_size pages.now }
        requires small { P.page_size pages.now ≤ 65536 }
        ensures numbers { IfOk result (λ walk. walk.numbers ≡ numbers.now) }
        ensures rowid { IfOk result (λ walk. walk.rowid ≡ rowid) }
        ensures stands { IfOk result (StandsAt (P.pages pages.now) (P.view pages.now) usable root) }
    {
        let size = pages.size();
        let views = views_of(alloc, pages, numbers)?;
        let mut nodes = vec![in alloc; false; numbers.len()]?;
        let mut chains = vec![in alloc; false; numbers.len()]?;
        mark_on(
            alloc,
            numbers,
            &views,
            usable,
            root,
            &[],
            &mut nodes,
            &mut chains,
        )?;
        let history = history(alloc, pages, usable, root, rowid)?;
        let numbers = numbers.to_vec(alloc)?;
        let setting = Setting { size, usable, root };
        Ok(HistoryWalk {
            alloc,
            numbers,
            views,
            rowid,
            setting,
            history,
            nodes,
            chains,
            stands: true,
        })
    }

    /// Goes to the next moment.
    ///
    /// Each page with a view is among the numbers; `changed` has ranks, and a page whose rank isn't there has the view that it had
    /// at the moment before.
    ///
    /// What the tree said at the moment before is kept, at the cost of reading both views of the changed pages of the tree, where
    /// the size, the usable bytes and the root are the same, each page is held as before, and of those that changed none was an
    /// overflow page of the tree, and each of its b-tree pages is a leaf by both views whose cells hold their payloads, and says
    /// the same of the rowid. Else the tree is walked as by [`history`](crate::history), and each changed page of it is read
    /// once more; all pages of it are, where the usable bytes are others. Where it answers `AllocError`, for want of memory,
    /// nothing more is said of the walk but that it goes on.
    pub fn advance<P: Pages<'a>>(
        &mut self,
        pages: &P,
        changed: &[u32],
        usable: u32,
        root: u32,
    ) -> Result<(), AllocError>
        requires covered { Covers self.old.numbers (P.view pages.now) }
        requires ranks { All (λ rank. rank < length self.old.numbers) changed.now }
        requires stand { StandBut changed.now self.old.numbers self.old.views (P.view pages.now) }
        requires least { 480 ≤ usable }
        requires within { usable ≤ P.page_size pages.now }
        requires small { P.page_size pages.now ≤ 65536 }
        ensures numbers { OnOk result (self.new.numbers ≡ self.old.numbers) }
        ensures rowid { OnOk result (self.new.rowid ≡ self.old.rowid) }
        ensures stands { OnOk result (StandsAt (P.pages pages.now) (P.view pages.now) usable root self.new) }
    {
        let size = pages.size();
        let setting = Setting { size, usable, root };
        if stands_still(
            self.alloc,
            pages,
            &self.numbers,
            changed,
            &self.views,
            self.stands,
            &self.setting,
            &setting,
            self.rowid,
            &self.history,
            &self.nodes,
            &self.chains,
        )? {
            look_again(pages, &self.numbers, changed, &mut self.views);
            return Ok(());
        }
        let fits = marks_fit(self.stands, self.setting.usable, usable);
        self.stands = false;
        look_again(pages, &self.numbers, changed, &mut self.views);
        mark_again(
            self.alloc,
            &self.numbers,
            &self.views,
            fits,
            &setting,
            changed,
            &mut self.nodes,
            &mut self.chains,
        )?;
        self.history = history(self.alloc, pages, usable, root, self.rowid)?;
        self.setting = setting;
        self.stands = true;
        Ok(())
    }

    /// What the tree holds under the rowid at the moment.
    pub fn history(&self) -> &History
        ensures found { items_by result.now ≡ self.now.found }
        ensures faults { faults_by result.now ≡ self.now.faults }
    {
        &self.history
    }
}

/// Whether what is kept of the moment before stands for the next.
fn stands_still<'a, P: Pages<'a>>(
    alloc: Global,
    pages: &P,
    numbers: &[u32],
    changed: &[u32],
    views: &[Option<&'a [u8]>],
    stands: bool,
    before: &Setting,
    setting: &Setting,
    rowid: i64,
    history: &History,
    nodes: &[bool],
    chains: &[bool],
) -> Result<bool, AllocError>
    requires views { length views.now ≡ length numbers.now }
    requires nodes { length nodes.now ≡ length numbers.now }
    requires chains { length chains.now ≡ length numbers.now }
    requires ranks { All (λ rank. rank < length numbers.now) changed.now }
    requires covered { Covers numbers.now (P.view pages.now) }
    requires stand { StandBut changed.now numbers.now (map option_copied views.now) (P.view pages.now) }
    requires size { setting.now.size ≡ P.pages pages.now }
    requires least { 480 ≤ setting.now.usable }
    requires within { setting.now.usable ≤ P.page_size pages.now }
    requires small { P.page_size pages.now ≤ 65536 }
    requires standing { IfStanding stands numbers.now (map option_copied views.now) before.now.size before.now.usable before.now.root rowid history.now nodes.now chains.now }
    ensures setting { IfOk result (λ still. IsTrue still → before.now ≡ setting.now) }
    ensures found { IfOk result (λ still. IsTrue still → items_by history.now ≡ found_of (P.pages pages.now) (P.view pages.now) setting.now.usable setting.now.root rowid) }
    ensures faults { IfOk result (λ still. IsTrue still → faults_by history.now ≡ faults_of (P.pages pages.now) (P.view pages.now) setting.now.usable setting.now.root) }
    ensures standing { IfOk result (λ still. IsTrue still → (stands ≡ true) × IsStanding numbers.now (map (P.view pages.now) numbers.now) before.now.size before.now.usable before.now.root rowid history.now nodes.now chains.now) }
{
    let _size = pages.size();
    if !stands || !same_setting(before, setting) {
        return Ok(false);
    }
    if !all_steady(
        alloc,
        pages,
        setting.usable,
        rowid,
        numbers,
        views,
        nodes,
        chains,
        changed,
    )? {
        return Ok(false);
    }
    Ok(true)
}
