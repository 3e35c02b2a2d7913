//! The pages of a moment with a header, after those of the moments before.
ghost use Rattle.std.specs.Prelude.{◌≡◌, ◌-◌, ◌<◌, ◌≤◌, IsTrue, true, Some, option_copied, IfOk, OnOk};
ghost use Rattle.sx_moment.specs.Gathered.{is_moment};
ghost use Rattle.sx_moment.specs.Heads.{IsLayout};
ghost use Rattle.sx_moment.specs.Sweep.{moment_at};
ghost use Rattle.sx_sweep.specs.Passing.{IsKnown, IsBefore, IsReached, GoesOver, MatchBut, Gone};

use crate::known::Known;
use crate::scene::Scene;
use std::alloc::{AllocError, Global};
use sx_base::Layout;
use sx_images::ImageTable;
use sx_moment::Sweep;
use sx_walk::RefWalk;

/// Goes over the pages of a moment: all of them, where it is the first with a header.
pub fn go_over<'a>(
    alloc: Global,
    sweep: &Sweep<'_, 'a>,
    images: &ImageTable,
    layout: &Layout,
    roots: &[i64],
    walk: Option<RefWalk<'a>>,
    usable: u32,
    known: &mut Known,
) -> Result<RefWalk<'a>, AllocError>
    requires listed { IsTrue (is_moment sweep.now.case sweep.now.moment) }
    requires laid { IsLayout layout.now }
    requires pages { layout.now.page_size ≡ sweep.now.case.header.page_size }
    requires same { images.now.page_size ≡ layout.now.page_size }
    requires known { IsKnown sweep.now.case sweep.now.numbers images.now known.old.owned known.old.sums }
    requires before { IsBefore sweep.now walk usable known.old.sums }
    ensures { IfOk result (GoesOver sweep.now.case sweep.now.moment sweep.now.numbers layout.now roots.now images.now known.old.owned known.new.owned known.new.sums) }
{
    match walk {
        None => go_over_first(alloc, sweep, images, layout, roots, known),
        Some(walk) => go_over_next(alloc, sweep, images, layout, roots, walk, usable, known),
    }
}

/// Goes over all pages of the first moment with a header.
fn go_over_first<'a>(
    alloc: Global,
    sweep: &Sweep<'_, 'a>,
    images: &ImageTable,
    layout: &Layout,
    roots: &[i64],
    known: &mut Known,
) -> Result<RefWalk<'a>, AllocError>
    requires listed { IsTrue (is_moment sweep.now.case sweep.now.moment) }
    requires laid { IsLayout layout.now }
    requires pages { layout.now.page_size ≡ sweep.now.case.header.page_size }
    requires same { images.now.page_size ≡ layout.now.page_size }
    requires known { IsKnown sweep.now.case sweep.now.numbers images.now known.old.owned known.old.sums }
    ensures { IfOk result (GoesOver sweep.now.case sweep.now.moment sweep.now.numbers layout.now roots.now images.now known.old.owned known.new.owned known.new.sums) }
{
    let numbers = sweep.numbers();
    let walk = RefWalk::start(alloc, sweep, numbers, layout, roots, known.several)?;
    let scene = Scene {
        sweep,
        table: walk.table(),
        layout,
        images,
    };
    scene.relabel_all(alloc, known)?;
    Ok(walk)
}

/// Goes over the pages of a moment that changed since the last one with a header, or are referred to otherwise.
fn go_over_next<'a>(
    alloc: Global,
    sweep: &Sweep<'_, 'a>,
    images: &ImageTable,
    layout: &Layout,
    roots: &[i64],
    walk: RefWalk<'a>,
    usable: u32,
    known: &mut Known,
) -> Result<RefWalk<'a>, AllocError>
    requires listed { IsTrue (is_moment sweep.now.case sweep.now.moment) }
    requires laid { IsLayout layout.now }
    requires pages { layout.now.page_size ≡ sweep.now.case.header.page_size }
    requires same { images.now.page_size ≡ layout.now.page_size }
    requires known { IsKnown sweep.now.case sweep.now.numbers images.now known.old.owned known.old.sums }
    requires settled { 1 ≤ sweep.now.settled }
    requires reached { IsReached sweep.now.case (moment_at sweep.now.case (sweep.now.settled - 1)) sweep.now.numbers walk usable known.old.sums }
    ensures { IfOk result (GoesOver sweep.now.case sweep.now.moment sweep.now.numbers layout.now roots.now images.now known.old.owned known.new.owned known.new.sums) }
{
    let _numbers = sweep.numbers();
    let mut walk = walk;
    walk.advance(sweep, sweep.changed(), layout, roots)?;
    let scene = Scene {
        sweep,
        table: walk.table(),
        layout,
        images,
    };
    relabel_changed(
        alloc,
        &scene,
        walk.touched(),
        usable == layout.usable,
        known,
    )?;
    Ok(walk)
}

/// Goes over the pages that changed or are referred to otherwise: over all, where it isn't known which are, or where the
/// usable bytes aren't those of the moment before.
fn relabel_changed(
    alloc: Global,
    scene: &Scene<'_, '_, '_>,
    touched: Option<&[u32]>,
    same_usable: bool,
    known: &mut Known,
) -> Result<(), AllocError>
    requires known { IsKnown scene.now.sweep.now.case scene.now.sweep.now.numbers scene.now.images.now known.old.owned known.old.sums }
    requires others { same_usable ≡ true → MatchBut scene.now.sweep.now scene.now.table.now scene.now.layout.now.usable known.old.sums (option_copied touched) }
    ensures { OnOk result (Gone scene.now.sweep.now.case scene.now.sweep.now.moment scene.now.sweep.now.numbers scene.now.table.now scene.now.layout.now scene.now.images.now known.old.owned known.new.owned known.new.sums) }
{
    match touched {
        Some(touched) if same_usable => relabel_both(alloc, scene, touched, known),
        _ => scene.relabel_all(alloc, known),
    }
}

/// Goes over the pages of the ranks that changed, and of those that are touched.
fn relabel_both(
    alloc: Global,
    scene: &Scene<'_, '_, '_>,
    touched: &[u32],
    known: &mut Known,
) -> Result<(), AllocError>
    requires known { IsKnown scene.now.sweep.now.case scene.now.sweep.now.numbers scene.now.images.now known.old.owned known.old.sums }
    requires others { MatchBut scene.now.sweep.now scene.now.table.now scene.now.layout.now.usable known.old.sums (Some touched.now) }
    ensures { OnOk result (Gone scene.now.sweep.now.case scene.now.sweep.now.moment scene.now.sweep.now.numbers scene.now.table.now scene.now.layout.now scene.now.images.now known.old.owned known.new.owned known.new.sums) }
{
    scene.relabel_listed(alloc, scene.sweep.changed(), known)?;
    scene.relabel_listed(alloc, touched, known)
}
