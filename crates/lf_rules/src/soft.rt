//! Soft blockages: no rule mentions them, but a search for a best place avoids them.

ghost use Rattle.std.specs.Prelude.{◌↔◌, Any, IsTrue};
ghost use Rattle.lf_units.specs.Area.{SharesPoint};
ghost use Rattle.lf_floorplan.specs.Ground.{OverlapsSoft};

use lf_floorplan::Frame;
use lf_units::Rect;

/// Returns whether the rectangle shares a point with one of the list.
fn overlaps_one(rect: &Rect, others: &[Rect]) -> bool
    ensures { IsTrue result ↔ Any (λ r. SharesPoint rect.now r) others.now }
{
    others.iter().any(|other| rect.overlaps(other))
}

/// Returns whether the rectangle, in database units, shares a point with a soft blockage of the
/// frame. Allocates nothing.
pub fn overlaps_soft(frame: &Frame, rect: &Rect) -> bool
    ensures { IsTrue result ↔ OverlapsSoft frame.now rect.now }
{
    overlaps_one(rect, frame.soft.as_slice())
}
