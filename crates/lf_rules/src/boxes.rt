//! The box of a cell.

ghost use Rattle.std.specs.Prelude.{◌≡◌};
ghost use Rattle.lf_floorplan.specs.Boxes.{size_of, IsSized};
ghost use Rattle.lf_floorplan.specs.Sizes.{turned, box_at};
ghost use Rattle.lf_rules.specs.Padding.{length_of, wider as widened};
ghost use Rattle.lf_rules.specs.Solid.{IsSolid};

use crate::padding::{Padding, widen};
use lf_floorplan::{Frame, Macro, Place, macro_box};
use lf_units::Rect;

/// Returns the box of the macro with its lower left corner at the place, as `box_of` does. The
/// contract also states that the box has points. The macro's size is whole in database units and
/// above 0.
pub fn box_with_points(frame: &Frame, mac: &Macro, place: &Place) -> Rect
    requires { IsSized frame.now mac.now }
    ensures is { result ≡ box_at (turned (size_of frame.now mac.now) place.now.orient) place.now.x place.now.y }
    ensures solid { IsSolid result }
{
    macro_box(&mac.size, frame.header.units, place)
}

/// Returns the box of the macro with its lower left corner at the place, in database units (LEF
/// MACRO SIZE, DEF COMPONENTS). The macro's size is whole in database units and above 0.
pub fn box_of(frame: &Frame, mac: &Macro, place: &Place) -> Rect
    requires { IsSized frame.now mac.now }
    ensures { result ≡ box_at (turned (size_of frame.now mac.now) place.now.orient) place.now.x place.now.y }
{
    box_with_points(frame, mac, place)
}

/// Returns the box of the macro, widened on its left and right by the padding. Rule 8 requires that
/// it shares no point with another cell of the team.
pub fn padded_box(frame: &Frame, mac: &Macro, place: &Place, padding: Padding) -> Rect
    requires { IsSized frame.now mac.now }
    ensures { result ≡ widened (length_of frame.now padding.sites)
        (box_at (turned (size_of frame.now mac.now) place.now.orient) place.now.x place.now.y) }
{
    let rect = box_with_points(frame, mac, place);
    widen(&rect, padding.length(frame))
}
