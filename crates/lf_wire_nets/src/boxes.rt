//! The boxes of pins.

ghost use Rattle.std.specs.Prelude.{◌≡◌, ◌≤ℤ◌, Some};
ghost use Rattle.std.specs.Int.{int_min, int_max};
ghost use Rattle.lf_lef.specs.Lengths.{IsLengthInRange, HasRange};
ghost use Rattle.lf_wire_nets.specs.Boxes as grammar;
ghost use Rattle.lf_wire_nets.specs.Boxes.{IsShapeBox, IsShapeBoxIfAny};

use lf_units::{Point, Rect};

/// Returns the box with this point alone.
pub(crate) fn point_box(point: &Point) -> Rect
    requires range { HasRange point.now }
    ensures point { result ≡ grammar.point_box point.now }
    ensures range { IsShapeBox result }
{
    Rect {
        x1: point.x,
        y1: point.y,
        x2: point.x,
        y2: point.y,
    }
}

fn lesser(a: i64, b: i64) -> i64
    requires a { IsLengthInRange a }
    requires b { IsLengthInRange b }
    ensures lesser { result ≡ int_min a b }
    ensures range { IsLengthInRange result }
    ensures bound { result ≤ℤ a }
{
    a.min(b)
}

fn greater(a: i64, b: i64) -> i64
    requires a { IsLengthInRange a }
    requires b { IsLengthInRange b }
    ensures greater { result ≡ int_max a b }
    ensures range { IsLengthInRange result }
    ensures bound { a ≤ℤ result }
{
    a.max(b)
}

/// Returns the lower left corner of the least box around two boxes.
fn lower_left(a: &Rect, b: &Rect) -> Point
    requires a { IsShapeBox a.now }
    requires b { IsShapeBox b.now }
    ensures corner { result ≡ record { x = int_min a.now.x1 b.now.x1; y = int_min a.now.y1 b.now.y1 } }
    ensures x { IsLengthInRange result.x }
    ensures y { IsLengthInRange result.y }
    ensures left { result.x ≤ℤ a.now.x1 }
    ensures below { result.y ≤ℤ a.now.y1 }
{
    Point {
        x: lesser(a.x1, b.x1),
        y: lesser(a.y1, b.y1),
    }
}

/// Returns the upper right corner of the least box around two boxes.
fn upper_right(a: &Rect, b: &Rect) -> Point
    requires a { IsShapeBox a.now }
    requires b { IsShapeBox b.now }
    ensures corner { result ≡ record { x = int_max a.now.x2 b.now.x2; y = int_max a.now.y2 b.now.y2 } }
    ensures x { IsLengthInRange result.x }
    ensures y { IsLengthInRange result.y }
    ensures right { a.now.x2 ≤ℤ result.x }
    ensures above { a.now.y2 ≤ℤ result.y }
{
    Point {
        x: greater(a.x2, b.x2),
        y: greater(a.y2, b.y2),
    }
}

/// Returns the least box around two boxes.
pub(crate) fn box_around(a: &Rect, b: &Rect) -> Rect
    requires a { IsShapeBox a.now }
    requires b { IsShapeBox b.now }
    ensures around { result ≡ grammar.box_around a.now b.now }
    ensures range { IsShapeBox result }
{
    let low = lower_left(a, b);
    let high = upper_right(a, b);
    Rect {
        x1: low.x,
        y1: low.y,
        x2: high.x,
        y2: high.y,
    }
}

/// Widens the box around the shapes so far to one more.
pub(crate) fn widen_box(so_far: &mut Option<Rect>, shape: &Rect)
    requires so_far { IsShapeBoxIfAny so_far.old }
    requires shape { IsShapeBox shape.now }
    ensures widened { so_far.new ≡ Some (grammar.joined_box so_far.old shape.now) }
    ensures range { IsShapeBoxIfAny so_far.new }
{
    *so_far = match so_far {
        Some(first) => Some(box_around(first, shape)),
        None => Some(*shape),
    };
}
