//! The rectangle that holds all rows of a frame.

ghost use Rattle.std.specs.Prelude.{◌≡◌};
ghost use Rattle.std.specs.Int.{int_min, int_max};
ghost use Rattle.lf_segments.specs.Indexes.{IsExtentOf, hull as hull_of};

use lf_floorplan::Frame;
use lf_units::Rect;

/// Returns the lesser of the two.
fn lesser(a: &i64, b: &i64) -> i64
    ensures { result ≡ int_min a.now b.now }
{
    if *b < *a { *b } else { *a }
}

/// Returns the greater of the two.
fn greater(a: &i64, b: &i64) -> i64
    ensures { result ≡ int_max a.now b.now }
{
    if *b < *a { *a } else { *b }
}

/// Returns the smallest rectangle that holds both.
fn hull(a: &Rect, b: &Rect) -> Rect
    ensures { result ≡ hull_of a.now b.now }
{
    Rect {
        x1: lesser(&a.x1, &b.x1),
        y1: lesser(&a.y1, &b.y1),
        x2: greater(&a.x2, &b.x2),
        y2: greater(&a.y2, &b.y2),
    }
}

/// Returns the smallest rectangle that holds all rows of the frame.
pub(crate) fn extent_of(frame: &Frame) -> Rect
    ensures { IsExtentOf frame.now result }
{
    let rows = frame.rows.as_slice();
    let mut extent = rows[0].area(&frame.pitch);
    for row in rows {
        extent = hull(&extent, &row.area(&frame.pitch));
    }
    extent
}
