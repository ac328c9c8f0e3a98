//! How a repair searches for places.

use lf_cells::CellId;
use lf_floorplan::Frame;
use lf_legalize::anchor;
use lf_units::Point;

/// How a repair of a team searches for places. No clause says how good the places are.
#[derive(Clone, Copy)]
pub struct RepairSearch<'a> {
    /// The tries of the search for a hundred cells. With 0 the first plan stays as it is.
    pub tries: u32,
    /// The longest displacement of a cell that had a place, |dx| + |dy| in database units. `None`: any.
    pub reach: Option<i64>,
    /// Whether the displacement of a cell weighs the more, the fewer cells of the team have its height.
    pub balances_heights: bool,
    /// For each cell of the team, in loading order, the target that it has if it has no place. It may be shorter than
    /// the team, or empty: the target of a cell without an entry is the team's anchor.
    pub targets: &'a [Option<Point>],
}

impl<'a> RepairSearch<'a> {
    /// Whether plans are improved after the first one.
    pub(crate) fn improves_plans(&self) -> bool {
        0 < self.tries || self.reach.is_some()
    }

    /// The target of a cell that had no place.
    pub(crate) fn target_without_place(&self, frame: &Frame, id: CellId) -> Point {
        match self.targets.get(id.own as usize) {
            Some(Some(point)) => *point,
            _ => anchor(frame, id.team as usize),
        }
    }
}
