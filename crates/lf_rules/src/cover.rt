//! Whether rectangles together cover all of a box. It is enough to test the points of the box with
//! two properties. Their x is the box's x1 or some rectangle's x2, and their y is the box's y1 or
//! some rectangle's y2.

ghost use Rattle.std.specs.Prelude.{◌≡◌, ◌↔◌, ℤ, ◌<ℤ◌, IsTrue};
ghost use Rattle.lf_units.specs.Area.{Covers, CoveredBy};

use lf_units::{Point, Rect};

/// Returns whether one of the rectangles holds the point.
fn is_point_covered(rects: &[Rect], point: &Point) -> bool
    ensures { IsTrue result ↔ CoveredBy rects.now point.now.x point.now.y }
{
    for rect in rects {
        if rect.covers(point) {
            return true;
        }
    }
    false
}

/// Returns whether the point lies outside the box or in one of the rectangles.
fn is_settled(rect: &Rect, rects: &[Rect], point: &Point) -> bool
    ensures { IsTrue result ↔ (Covers rect.now point.now.x point.now.y → CoveredBy rects.now point.now.x point.now.y) }
{
    !rect.covers(point) || is_point_covered(rects, point)
}

/// Returns the point with this x that is level with the rectangle's upper edge.
fn level_with(foot: &Point, edge: &Rect) -> Point
    ensures { result ≡ record { x = foot.now.x; y = edge.now.y2 } }
{
    Point {
        x: foot.x,
        y: edge.y2,
    }
}

/// Returns the point at the box's lower edge that is level with the rectangle's right edge.
fn foot_of(rect: &Rect, edge: &Rect) -> Point
    ensures { result ≡ record { x = edge.now.x2; y = rect.now.y1 } }
{
    Point {
        x: edge.x2,
        y: rect.y1,
    }
}

/// Returns the lower left corner of the box.
pub(crate) fn corner_of(rect: &Rect) -> Point
    ensures { result ≡ record { x = rect.now.x1; y = rect.now.y1 } }
{
    Point {
        x: rect.x1,
        y: rect.y1,
    }
}

/// Returns whether the rectangles cover all points of the box with the foot's x.
fn is_column_covered(rect: &Rect, rects: &[Rect], foot: &Point) -> bool
    requires high { rect.now.y1 <ℤ rect.now.y2 }
    requires lowest { foot.now.y ≡ rect.now.y1 }
    ensures { IsTrue result ↔ ((y : ℤ) → Covers rect.now foot.now.x y → CoveredBy rects.now foot.now.x y) }
{
    if !is_settled(rect, rects, foot) {
        return false;
    }
    for edge in rects {
        if !is_settled(rect, rects, &level_with(foot, edge)) {
            return false;
        }
    }
    true
}

/// Returns whether the rectangles together cover every point of the box, whose height is above 0.
/// For a fence this is rule 6.
pub fn is_covered(rect: &Rect, rects: &[Rect]) -> bool
    requires { rect.now.y1 <ℤ rect.now.y2 }
    ensures { IsTrue result ↔ ((x y : ℤ) → Covers rect.now x y → CoveredBy rects.now x y) }
{
    if !is_column_covered(rect, rects, &corner_of(rect)) {
        return false;
    }
    for edge in rects {
        if !is_column_covered(rect, rects, &foot_of(rect, edge)) {
            return false;
        }
    }
    true
}
