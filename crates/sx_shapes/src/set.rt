//! Shapes in order, each once.
ghost use Rattle.std.specs.Prelude.{◌≡◌, ◌≤◌, ◌<◌, ◌++◌, ◌∷◌, length, take, drop, get_or, false, if◌then◌else◌, OnOk};
ghost use Rattle.sx_shapes.specs.Shapes.{with_shape, is_before};

use std::alloc::AllocError;
use sx_grammar::ShapeKey;

/// Adds a shape, where it isn't among them.
#[tactic(auto, using(crate::proofs::ShapeLemmas::put_there, crate::proofs::ShapeLemmas::left_there))]
pub fn add_shape(shapes: &mut Vec<ShapeKey>, shape: ShapeKey) -> Result<(), AllocError>
    ensures { OnOk result (shapes.new.items ≡ with_shape shapes.old.items shape) }
{
    let at = place_for(shapes.as_slice(), shape);
    if is_there(shapes.as_slice(), at, shape) {
        return Ok(());
    }
    shapes.insert(at, shape)?;
    Ok(())
}

/// How many shapes at the front come before this one.
fn place_for(shapes: &[ShapeKey], shape: ShapeKey) -> usize
    ensures same { with_shape shapes.now shape ≡ take result shapes.now ++ with_shape (drop result shapes.now) shape }
    ensures within { result ≤ length shapes.now }
    ensures stop { result < length shapes.now → is_before (get_or shapes.now result shape) shape ≡ false }
{
    let mut at = 0;
    while at < shapes.len() && is_before(shapes[at], shape) {
        at += 1;
    }
    at
}

/// Whether a shape stands at the place before which all come before it.
fn is_there(shapes: &[ShapeKey], at: usize, shape: ShapeKey) -> bool
    requires within { at ≤ length shapes.now }
    requires stop { at < length shapes.now → is_before (get_or shapes.now at shape) shape ≡ false }
    ensures { with_shape (drop at shapes.now) shape ≡ (if result then drop at shapes.now else shape ∷ drop at shapes.now) }
{
    if at == shapes.len() {
        return false;
    }
    !is_before(shape, shapes[at])
}

/// Whether one shape comes before another: by their columns, an alias first.
fn is_before(one: ShapeKey, other: ShapeKey) -> bool
    ensures { result ≡ is_before one other }
{
    one.columns < other.columns || (one.columns == other.columns && one.alias && !other.alias)
}
