//! The boxes that share a point with a rectangle.

ghost use Rattle.std.specs.Prelude.{[], ◌∷◌, OnOk};
ghost use Rattle.lf_units.specs.Packed.{AddsNear, IsTree};

use crate::bound::Bound;
use crate::geometry::Rect;
use crate::placed::Placed;
use std::alloc::AllocError;

/// Appends the box if it shares a point with the rectangle. `Err` if an allocation fails.
fn push_near(placed: &Placed, rect: &Rect, found: &mut Vec<Placed>) -> Result<(), AllocError>
    ensures { OnOk result (AddsNear (placed.now ∷ []) rect.now found.old.items found.new.items) }
{
    if !rect.overlaps(&placed.rect) {
        return Ok(());
    }
    found.push(*placed)?;
    Ok(())
}

/// Appends the boxes that share a point with the rectangle. `Err` if an allocation fails.
fn push_near_of_all(
    boxes: &[Placed],
    rect: &Rect,
    found: &mut Vec<Placed>,
) -> Result<(), AllocError>
    ensures { OnOk result (AddsNear boxes.now rect.now found.old.items found.new.items) }
{
    for placed in boxes {
        push_near(placed, rect, found)?;
    }
    Ok(())
}

/// Appends the boxes of a run of a tree that share a point with the rectangle. Skips parts whose
/// bound shares no point with it. `Err` if an allocation fails.
pub(crate) fn push_near_of_run(
    boxes: &[Placed],
    bounds: &[Bound],
    rect: &Rect,
    found: &mut Vec<Placed>,
) -> Result<(), AllocError>
    requires { IsTree boxes.now bounds.now }
    ensures { OnOk result (AddsNear boxes.now rect.now found.old.items found.new.items) }
{
    let Some((bound, below)) = bounds.split_first() else {
        return push_near_of_all(boxes, rect, found);
    };
    if !rect.overlaps(&bound.rect) {
        return Ok(());
    }
    let (before, after_it) = boxes.split_at(boxes.len() / 2);
    let (first, last) = below.split_at(below.len() / 2);
    push_near_of_run(before, first, rect, found)?;
    push_near_of_run(after_it, last, rect, found)?;
    Ok(())
}
