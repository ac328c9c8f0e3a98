//! The arguments of the plain search for the best place.

ghost use Rattle.lf_floorplan.specs.Boxes.{IsSized};

use lf_floorplan::{Frame, Macro};
use lf_rules::{Padding, Placed};
use lf_units::Point;

/// A cell that is regarded as unplaced, the target for its best place, and its team's padding.
#[derive(Clone, Copy)]
pub(crate) struct Search<'a> {
    pub frame: &'a Frame,
    pub team: usize,
    pub mac: &'a Macro,
    pub others: &'a [Placed],
    pub target: &'a Point,
    pub padding: Padding,
    pub ghost sized: { IsSized frame.now mac.now },
}
