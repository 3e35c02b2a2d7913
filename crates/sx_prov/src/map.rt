//! The labels of the bytes of a page.
ghost use Rattle.std.specs.Prelude.{◌≡◌, ◌-◌, ◌+◌, ◌<◌, ◌≤◌, ◌++◌, [], ◌∷◌, length, replicate, count_by, slice_get, slice_index_or, if◌then◌else◌, Some, IsTrue, ℕ, OnOk, OnErr};
ghost use Rattle.std.specs.Vec.Iter.{into_iter_items};
ghost use Rattle.sx_base.specs.declared.evidence.Span.{Span};
ghost use Rattle.sx_base.specs.declared.label.Label.{Label};
ghost use Rattle.sx_base.specs.Labels.{is_owning, is_slack, is_fault};
ghost use Rattle.sx_prov.specs.Kept.{labels_in, Follow, IsKept};
ghost use Rattle.sx_prov.specs.Runs.{runs_of};

use crate::runs::Runs;
use std::alloc::{AllocError, Global};
use std::marker::Model;
use std::vec::IntoIter;
use sx_base::{Label, Span};

/// How many bytes of a page are in each of the three groups of labels.
#[derive(Clone, Copy, Debug, PartialEq, Eq)]
pub struct Totals {
    /// What the database uses.
    pub owned: u32,
    /// What it leaves unused.
    pub slack: u32,
    /// What can't be said.
    pub fault: u32,
}

/// The labels of the bytes of a page. Contracts see them as a list, byte after byte.
///
/// They stand as maximal runs of one label: the memory is in proportion to the runs.
#[derive(Drop)]
pub struct PageMap {
    runs: Vec<(Span, Label)>,
    len: u32,
}

impl Model for PageMap {
    ghost use Rattle.std.specs.Prelude.{List};
    ghost use Rattle.sx_base.specs.declared.label.Label.{Label};
    ghost use Rattle.sx_prov.specs.Kept.{labels_in, IsKept};

    ghost Value = { List Label };

    ghost view = { λ map. labels_in map.runs.items };

    ghost invariant = { λ map. IsKept map.runs.items map.len };
}

impl PageMap {
    /// The map of no bytes.
    #[tactic(auto, using(crate::proofs::Kept::kept_none, crate::proofs::Kept::none_in))]
    pub(crate) fn new(alloc: Global) -> Self
        ensures { result ≡ [] }
    {
        PageMap {
            runs: Vec::new(alloc),
            len: 0,
        }
    }

    /// Gives a label to the bytes behind those that have one, up to an end; to none where they have one already.
    pub(crate) fn put(&mut self, end: u32, label: Label) -> Result<(), AllocError>
        requires { end ≤ 65536 }
        ensures { OnOk result (self.new ≡ self.old ++ replicate (end - length self.old) label) }
    {
        if end <= self.len {
            return Ok(());
        }
        put_run(&mut self.runs, self.len, end - self.len, label)?;
        self.len = end;
        Ok(())
    }

    /// The label of the byte at `offset`, which is below the page's length.
    ///
    /// The cost is a logarithm of the number of runs.
    pub fn label_at(&self, offset: u32) -> Label
        requires { offset < length self.now }
        ensures { slice_get self.now offset ≡ Some result }
    {
        let mut low = 0;
        let mut high = self.runs.len();
        while high - low > 1 {
            let middle = low + (high - low) / 2;
            if self.runs[middle].0.start <= offset {
                low = middle;
            } else {
                high = middle;
            }
        }
        self.runs[low].1
    }

    /// The maximal runs of bytes with one label, in order. They cover the page.
    ///
    /// Going over them costs their number. Takes no memory.
    pub fn runs(&self) -> Runs<'_>
        ensures { result ≡ runs_of self.now }
    {
        Runs::new(self.runs.as_slice())
    }

    /// The same runs, of a map that isn't needed any more. Takes no memory.
    pub fn into_runs(self) -> IntoIter<(Span, Label)>
        ensures { into_iter_items result ≡ runs_of self }
    {
        let PageMap { runs, .. } = self;
        runs.into_iter()
    }

    /// How many bytes of the page are in each group of labels. The cost is the number of runs.
    pub fn totals(&self) -> Totals
        ensures owned { result.owned ≡ count_by is_owning self.now }
        ensures slack { result.slack ≡ count_by is_slack self.now }
        ensures fault { result.fault ≡ count_by is_fault self.now }
    {
        let mut owned = 0;
        let mut fault = 0;
        for (span, label) in &self.runs {
            let more = len_if(label.owning(), span.len);
            owned += more;
            let hidden = len_if(label.fault(), span.len);
            fault += hidden;
        }
        Totals {
            owned,
            slack: self.len - owned - fault,
            fault,
        }
    }
}

/// A length that counts, or 0.
fn len_if(counts: bool, len: u32) -> u32
    ensures { result ≡ (if counts then len else 0) }
{
    if counts { len } else { 0 }
}

/// One run more: it joins the last one where that has the same label. A refusal changes nothing.
fn put_run(
    runs: &mut Vec<(Span, Label)>,
    start: u32,
    len: u32,
    label: Label,
) -> Result<(), AllocError>
    requires follow { Follow 0 runs.old.items }
    requires start { start ≡ length (labels_in runs.old.items) }
    requires some { 0 < len }
    requires page { start + len ≤ 65536 }
    ensures follow { Follow 0 runs.new.items }
    ensures ok { OnOk result (labels_in runs.new.items ≡ labels_in runs.old.items ++ replicate len label) }
    ensures err { OnErr result (labels_in runs.new.items ≡ labels_in runs.old.items) }
{
    if !end_with(runs, label) {
        runs.push((Span { start, len }, label))?;
        return Ok(());
    }
    let last = runs.len() - 1;
    let first = runs[last].0;
    let longer = Span {
        len: first.len + len,
        ..first
    };
    runs[last] = (longer, label);
    Ok(())
}

/// Whether the last run has this label.
fn end_with(runs: &[(Span, Label)], label: Label) -> bool
    ensures some { IsTrue result → 0 < length runs.now }
    ensures same { IsTrue result → (last : Span × Label) → (slice_index_or runs.now (length runs.now - 1) last).1 ≡ label }
    ensures found { (index : ℕ) (last : Span × Label) → index + 1 ≡ length runs.now → (slice_index_or runs.now index last).1 ≡ label → IsTrue result }
{
    match runs.last() {
        None => false,
        Some(run) => run.1 == label,
    }
}
