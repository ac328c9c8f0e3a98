//! Sizes in database units, and the boxes of macros.

ghost use Rattle.std.specs.Prelude.{◌≡◌};
ghost use Rattle.lf_units.specs.Length.{in_dbu};
ghost use Rattle.lf_floorplan.specs.Bounds.{IsNearDefRect};
ghost use Rattle.lf_floorplan.specs.Rows.{IsPitch};
ghost use Rattle.lf_floorplan.specs.Sizes.{IsWholeLength, size_in_dbu, turned, box_at};

use crate::place::Place;
use lf_orient::Orient;
use lf_units::{Point, Rect};

/// The number of millionths of a micron in a micron.
const MICRON: i64 = 1_000_000;

/// Converts a length of LEF from millionths of a micron to database units.
fn length_in_units(micros: i64, units: u32) -> i64
    requires { IsWholeLength units micros }
    ensures { result ≡ in_dbu units micros }
{
    micros * i64::from(units) / MICRON
}

/// Converts a size of LEF from millionths of a micron to database units. It must be whole in them
/// and above 0 in x and in y.
pub fn size_in_units(size: &Point, units: u32) -> Point
    requires whole { IsPitch units size.now (size_in_dbu units size.now) }
    ensures { result ≡ size_in_dbu units size.now }
{
    let across = length_in_units(size.x, units);
    let up = length_in_units(size.y, units);
    Point { x: across, y: up }
}

/// Returns the size with width and height exchanged for E, W, FE and FW.
fn turned_size(size: Point, orient: Orient) -> Point
    ensures { result ≡ turned size orient }
{
    match orient {
        Orient::E | Orient::W | Orient::FE | Orient::FW => Point {
            x: size.y,
            y: size.x,
        },
        Orient::N | Orient::S | Orient::FN | Orient::FS => size,
    }
}

/// Returns the box of a macro at the place, in database units (LEF MACRO SIZE, DEF COMPONENTS).
/// `size` is in millionths of a micron and must be whole in database units and above 0 in x and in
/// y. W, E, FW and FE exchange width and height. The box ends at most a macro's largest size past
/// the range of DEF.
pub fn macro_box(size: &Point, units: u32, place: &Place) -> Rect
    requires whole { IsPitch units size.now (size_in_dbu units size.now) }
    ensures near { IsNearDefRect result }
    ensures is { result ≡ box_at (turned (size_in_dbu units size.now) place.now.orient) place.now.x place.now.y }
{
    let size = turned_size(size_in_units(size, units), place.orient);
    let x = i64::from(place.x);
    let y = i64::from(place.y);
    Rect {
        x1: x,
        y1: y,
        x2: x + size.x,
        y2: y + size.y,
    }
}
