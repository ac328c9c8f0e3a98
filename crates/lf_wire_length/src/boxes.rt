//! The least box around points.

ghost use Rattle.std.specs.Prelude.{◌≡◌, ◌≤◌, IfSome};
ghost use Rattle.lf_wire_length.specs.Bounds.{IsDesignPoint};
ghost use Rattle.lf_wire_length.specs.Boxes.{IsDesignBox, box_with, half_perimeter, high_corner, low_corner, widened_box};

use crate::points::HalfPoint;

/// The least box around points.
#[derive(Clone, Copy)]
pub(crate) struct PointBox {
    pub low: HalfPoint,
    pub high: HalfPoint,
}

/// Returns the lower left corner of the box around both points.
fn lower(a: &HalfPoint, b: &HalfPoint) -> HalfPoint
    requires a { IsDesignPoint a.now }
    requires b { IsDesignPoint b.now }
    ensures in_range { IsDesignPoint result }
    ensures is { result ≡ low_corner a.now b.now }
{
    let x = a.x.min(b.x);
    let y = a.y.min(b.y);
    HalfPoint { x, y }
}

/// Returns the upper right corner of the box around both points.
fn upper(a: &HalfPoint, b: &HalfPoint) -> HalfPoint
    requires a { IsDesignPoint a.now }
    requires b { IsDesignPoint b.now }
    ensures in_range { IsDesignPoint result }
    ensures is { result ≡ high_corner a.now b.now }
{
    let x = a.x.max(b.x);
    let y = a.y.max(b.y);
    HalfPoint { x, y }
}

/// Returns the least box around the box, if there is one, and the point.
fn widen(seen: &Option<PointBox>, point: &HalfPoint) -> PointBox
    requires seen { IfSome seen.now IsDesignBox }
    requires point { IsDesignPoint point.now }
    ensures in_range { IsDesignBox result }
    ensures is { result ≡ widened_box seen.now point.now }
{
    match seen {
        None => PointBox {
            low: *point,
            high: *point,
        },
        Some(seen) => PointBox {
            low: lower(&seen.low, point),
            high: upper(&seen.high, point),
        },
    }
}

/// Returns the least box around the box and the point, if there are such.
pub(crate) fn widen_by(seen: &Option<PointBox>, point: &Option<HalfPoint>) -> Option<PointBox>
    requires seen { IfSome seen.now IsDesignBox }
    requires point { IfSome point.now IsDesignPoint }
    ensures in_range { IfSome result IsDesignBox }
    ensures is { result ≡ box_with seen.now point.now }
{
    match point {
        Some(point) => Some(widen(seen, point)),
        None => *seen,
    }
}

/// Returns the width plus the height of the box. 0 if there is no box.
pub(crate) fn perimeter_half(seen: &Option<PointBox>) -> u64
    requires { IfSome seen.now IsDesignBox }
    ensures bound { result ≤ 800000000000 }
    ensures is { result ≡ half_perimeter seen.now }
{
    match seen {
        None => 0,
        Some(seen) => {
            let width = seen.high.x.abs_diff(seen.low.x);
            let height = seen.high.y.abs_diff(seen.low.y);
            width + height
        }
    }
}
