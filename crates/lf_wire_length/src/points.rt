//! Points in half database units: the middles of pins, turned and placed.

ghost use Rattle.std.specs.Prelude.{◌≡◌, ◌≤◌, ◌+ℤ◌, ◌-ℤ◌, ◌*ℤ◌, ◌≤ℤ◌, pos, negsuc};
ghost use Rattle.std.specs.Int.{int_div_euclid};
ghost use Rattle.lf_floorplan.specs.Bounds.{IsLefLength, IsLefSize, IsLimit};
ghost use Rattle.lf_wire_length.specs.Bounds.{IsDesignPoint, IsMacroLength, IsPinInMacro, IsMiddleNumber, IsMiddlePoint, IsOffsetNumber, IsOffsetPoint, IsPinBox, IsPinOffset, IsTurnedPoint};
ghost use Rattle.lf_wire_length.specs.Length.{middle_of, point_at, turned_point, twice};

use lf_floorplan::Place;
use lf_orient::Orient;
use lf_units::{Point, Rect};

/// The number of millionths of a micron in a micron.
const MICRON: i64 = 1_000_000;

/// A point in half database units.
#[derive(Clone, Copy, Debug, PartialEq, Eq)]
pub struct HalfPoint {
    pub x: i64,
    pub y: i64,
}

/// Where a pin is in its macro.
#[derive(Clone, Copy, Debug, PartialEq, Eq)]
pub struct PinOffset {
    /// The size of the macro that faces north, in database units.
    pub size: Point,
    /// The middle of the pin, from the lower left corner of the macro that faces north.
    pub middle: HalfPoint,
}

/// Returns the sum of both ends of a range of LEF coordinates after ORIGIN is added.
fn sum_of_ends(origin: i64, low: i64, high: i64) -> i64
    requires origin { IsLefLength origin }
    requires low { IsLefLength low }
    requires high { IsLefLength high }
    ensures { result ≡ low +ℤ high +ℤ twice origin }
{
    low + high + (origin + origin)
}

/// Returns the sum, times the number of database units per micron.
fn scaled(sum: i64, units: u32) -> i64
    requires units { units ≤ 20000 }
    requires least { negsuc 3999999999999 ≤ℤ sum }
    requires most { sum ≤ℤ pos 4000000000000 }
    ensures least { negsuc 79999999999999999 ≤ℤ result }
    ensures most { result ≤ℤ pos 80000000000000000 }
    ensures is { result ≡ sum *ℤ pos units }
{
    sum * i64::from(units)
}

/// Returns a millionth of the number, rounded down.
fn millionth(scaled: i64) -> i64
    requires least { negsuc 79999999999999999 ≤ℤ scaled }
    requires most { scaled ≤ℤ pos 80000000000000000 }
    ensures in_range { IsMiddleNumber result }
    ensures is { result ≡ int_div_euclid scaled (pos 1000000) }
{
    scaled.div_euclid(MICRON)
}

/// Returns the sum in database units, rounded down.
fn rounded_down(sum: i64, units: u32) -> i64
    requires units { units ≤ 20000 }
    requires least { negsuc 3999999999999 ≤ℤ sum }
    requires most { sum ≤ℤ pos 4000000000000 }
    ensures in_range { IsMiddleNumber result }
    ensures is { result ≡ int_div_euclid (sum *ℤ pos units) (pos 1000000) }
{
    millionth(scaled(sum, units))
}

/// Returns the middle of a pin's box (LEF PIN, RECT), from the lower left corner of its macro that
/// faces north. `units` is the number of database units per micron. `origin` is the macro's ORIGIN.
/// Both it and `rect` are in millionths of a micron. A middle that is not whole in half database
/// units is rounded down.
pub fn pin_middle(units: u32, origin: &Point, rect: &Rect) -> HalfPoint
    requires units { IsLimit units 20000 }
    requires origin { IsLefSize origin.now }
    requires rect { IsPinBox rect.now }
    ensures in_range { IsMiddlePoint result }
    ensures is { result ≡ middle_of units origin.now rect.now }
{
    let across = rounded_down(sum_of_ends(origin.x, rect.x1, rect.x2), units);
    let up = rounded_down(sum_of_ends(origin.y, rect.y1, rect.y2), units);
    HalfPoint { x: across, y: up }
}

/// Returns the coordinate after a length is turned round.
fn opposite_end(length: i64, z: i64) -> i64
    requires length { IsMacroLength length }
    requires z { IsOffsetNumber z }
    ensures { result ≡ twice length -ℤ z }
{
    length + length - z
}

/// Returns the middle of the pin after its macro is turned and flipped.
fn turn(orient: Orient, pin: &PinOffset) -> HalfPoint
    requires { IsPinOffset pin.now }
    ensures in_range { IsTurnedPoint result }
    ensures is { result ≡ turned_point orient pin.now.size pin.now.middle }
{
    let HalfPoint { x, y } = pin.middle;
    let size = pin.size;
    match orient {
        Orient::N => HalfPoint { x, y },
        Orient::S => HalfPoint {
            x: opposite_end(size.x, x),
            y: opposite_end(size.y, y),
        },
        Orient::FN => HalfPoint {
            x: opposite_end(size.x, x),
            y,
        },
        Orient::FS => HalfPoint {
            x,
            y: opposite_end(size.y, y),
        },
        Orient::W => HalfPoint {
            x: opposite_end(size.y, y),
            y: x,
        },
        Orient::E => HalfPoint {
            x: y,
            y: opposite_end(size.x, x),
        },
        Orient::FW => HalfPoint { x: y, y: x },
        Orient::FE => HalfPoint {
            x: opposite_end(size.y, y),
            y: opposite_end(size.x, x),
        },
    }
}

/// Returns the point of a pin of a cell at this place.
pub fn point_of_cell_pin(place: &Place, pin: &PinOffset) -> HalfPoint
    requires { IsPinOffset pin.now }
    ensures in_range { IsDesignPoint result }
    ensures of_macro { IsPinInMacro pin.now → IsOffsetPoint result }
    ensures is { result ≡ point_at place.now pin.now }
{
    let turned = turn(place.orient, pin);
    let (x, y) = (i64::from(place.x), i64::from(place.y));
    HalfPoint {
        x: x + x + turned.x,
        y: y + y + turned.y,
    }
}
