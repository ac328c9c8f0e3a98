//! The least number of a box that shares a point with a rectangle.

ghost use Rattle.std.specs.Prelude.{[], ◌∷◌};
ghost use Rattle.std.specs.Bool.{OnFalse};
ghost use Rattle.lf_units.specs.Packed.{IsTree, IsLeastOf, HoldsNoLess};

use crate::bound::Bound;
use crate::geometry::Rect;
use crate::placed::Placed;

/// Returns the lesser of the number so far and the box's number. The box counts only if its number
/// is not `but` and it shares a point with the rectangle.
fn lesser(placed: &Placed, rect: &Rect, but: u32, so_far: Option<u32>) -> Option<u32>
    ensures { IsLeastOf (placed.now ∷ []) rect.now but so_far result }
{
    if placed.own == but {
        return so_far;
    }
    if let Some(least) = so_far
        && least <= placed.own
    {
        return so_far;
    }
    if rect.overlaps(&placed.rect) {
        Some(placed.own)
    } else {
        so_far
    }
}

/// Returns the least number over several boxes, one after another.
fn least_in(boxes: &[Placed], rect: &Rect, but: u32, so_far: Option<u32>) -> Option<u32>
    ensures { IsLeastOf boxes.now rect.now but so_far result }
{
    let mut least = so_far;
    for placed in boxes {
        least = lesser(placed, rect, but, least);
    }
    least
}

/// Returns whether a box within the bound may have a number below the one so far and share a point
/// with the rectangle.
fn may_be_less(bound: &Bound, rect: &Rect, so_far: Option<u32>) -> bool
    ensures { OnFalse result (HoldsNoLess bound.now rect.now so_far) }
{
    if let Some(least) = so_far
        && least <= bound.least
    {
        return false;
    }
    rect.overlaps(&bound.rect)
}

/// Returns the least number of a run by its own bound, or an estimate if the run is not divided.
/// Only chooses which half is searched first.
fn likely_least(bounds: &[Bound]) -> u32 {
    bounds.first().map_or(u32::MAX, |bound| bound.least)
}

/// Returns the least number over a run of a tree. Skips parts that cannot hold a lesser number, and
/// searches first the half that is likely to hold the least.
pub(crate) fn least_among(
    boxes: &[Placed],
    bounds: &[Bound],
    rect: &Rect,
    but: u32,
    so_far: Option<u32>,
) -> Option<u32>
    requires { IsTree boxes.now bounds.now }
    ensures { IsLeastOf boxes.now rect.now but so_far result }
{
    let Some((bound, below)) = bounds.split_first() else {
        return least_in(boxes, rect, but, so_far);
    };
    if !may_be_less(bound, rect, so_far) {
        return so_far;
    }
    let (before, after_it) = boxes.split_at(boxes.len() / 2);
    let (first, last) = below.split_at(below.len() / 2);
    if likely_least(last) < likely_least(first) {
        let with_after = least_among(after_it, last, rect, but, so_far);
        return least_among(before, first, rect, but, with_after);
    }
    let with_before = least_among(before, first, rect, but, so_far);
    least_among(after_it, last, rect, but, with_before)
}
