//! The point of a rectangle nearest to a target, and the distance of its corners.

ghost use Rattle.std.specs.Prelude.{◌≡◌, ◌≤ℤ◌, ◌+◌, ◌-ℤ◌, unsigned_abs};
ghost use Rattle.lf_floorplan.specs.Bounds.{IsNearDefRect};
ghost use Rattle.lf_legalize.specs.Extents.{IsNearestIn, IsNearestPoint};

use crate::key::gap;
use lf_units::{Point, Rect};

/// The value from `low` to `high` that is nearest to this one.
fn nearest_in(value: &i64, low: &i64, high: &i64) -> i64
    requires { low.now ≤ℤ high.now }
    ensures { IsNearestIn low.now high.now value.now result }
{
    if *value < *low {
        return *low;
    }
    if *high < *value {
        return *high;
    }
    *value
}

/// The point of the rectangle that is nearest to the target.
pub(crate) fn nearest_point(extent: &Rect, target: &Point) -> Point
    requires { IsNearDefRect extent.now }
    ensures { IsNearestPoint extent.now target.now result }
{
    let x = nearest_in(&target.x, &extent.x1, &extent.x2);
    let y = nearest_in(&target.y, &extent.y1, &extent.y2);
    Point { x, y }
}

/// The distance between two opposite corners of the rectangle.
pub(crate) fn farthest_in(extent: &Rect) -> u64
    requires { IsNearDefRect extent.now }
    ensures { result ≡ unsigned_abs (extent.now.x2 -ℤ extent.now.x1) + unsigned_abs (extent.now.y2 -ℤ extent.now.y1) }
{
    gap(&extent.x2, &extent.x1) + gap(&extent.y2, &extent.y1)
}
