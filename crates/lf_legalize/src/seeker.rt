//! The trait of searches for the best place of a cell of a table.

ghost use Rattle.std.specs.Prelude.{◌≡◌, ◌≤◌, All, IfOk, length};
ghost use Rattle.std.specs.Option.{option_map};
ghost use Rattle.lf_rules.specs.Choice.{spot_of};
ghost use Rattle.lf_rules.specs.Legalizer.{Legalizer};
ghost use Rattle.lf_cells.specs.Cells.{cells_of};
ghost use Rattle.lf_legalize.specs.Members.{IsSizedCell, best_of};
ghost use Rattle.lf_occupancy.specs.Floorplans.{IsOccupancyOf};

use crate::neighbours::other_boxes;
use crate::plain_search::best_place;
use lf_cells::{CellId, CellTable};
use lf_floorplan::{Frame, Place};
use lf_occupancy::OccupancyView;
use lf_rules::Padding;
use lf_units::Point;
use std::alloc::{AllocError, Global};

/// Finds best places. All seekers return the same places. They differ in what they visit and in the
/// time they take.
pub trait Seeker {
    /// The best place of a cell for a target, as if the cell were unplaced: of all its allowed
    /// places, the one with the least key. `None` only if there is no allowed place, or no such
    /// cell. `Err` if an allocation fails.
    ///
    /// A place is allowed if it is team-legal with the team's other placed cells, and the cell's
    /// box shares no point with a soft blockage there. The target may be any point, in database
    /// units.
    ///
    /// The occupancy is that of the frame and of the cells at their working places. The macros of
    /// the team's cells are the frame's, of whole size. `padding` is that of the cell's team, in
    /// core sites. It separates the cell from each of the team's other cells, wherever they are
    /// placed, across obstacles and segments. It does not apply to the ends of segments or to the
    /// cells of other teams.
    fn seek(
        &self,
        alloc: Global,
        frame: &Frame,
        cells: &CellTable,
        occupancy: &OccupancyView<'_>,
        cell: CellId,
        target: &Point,
        padding: Padding,
    ) -> Result<Option<Place>, AllocError>
        requires held { IsOccupancyOf frame.now cells.now occupancy.now }
        requires sized { All (IsSizedCell frame.now) (cells_of cells.now cell.team) }
        requires few { length (cells_of cells.now cell.team) ≤ 4000000 }
        ensures best { (l : Legalizer) → IfOk result (λ found. option_map spot_of found
            ≡ best_of l frame.now cell.team padding.sites (cells_of cells.now cell.team) cell.own target.now) };
}

/// Tries each orientation on every site of every row, as in the definition of the best place.
/// Faster seekers are compared with it.
#[derive(Clone, Copy, Debug)]
pub struct PlainSeeker;

impl Seeker for PlainSeeker {
    fn seek(
        &self,
        alloc: Global,
        frame: &Frame,
        cells: &CellTable,
        _occupancy: &OccupancyView<'_>,
        cell: CellId,
        target: &Point,
        padding: Padding,
    ) -> Result<Option<Place>, AllocError> {
        let Some(cell_placement) = cells.placement_of(cell) else {
            return Ok(None);
        };
        let others = other_boxes(alloc, frame, cells, cell)?;
        let mac = &frame.macros.as_slice()[cell_placement.mac];
        let team = cell.team as usize;
        Ok(best_place(frame, team, mac, &others, target, padding))
    }
}
