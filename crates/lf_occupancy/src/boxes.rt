//! The boxes of the cells of all teams, which follow from their places and macros.

ghost use Rattle.std.specs.Prelude.{◌≡◌, [], All, IfSome, option_and_then, slice_index_or};
ghost use Rattle.lf_cells.specs.Cells.{cell_at, cells_of};
ghost use Rattle.lf_occupancy.specs.Floorplans.{HasSize, HaveSize, working_box_of, boxes_in};
ghost use Rattle.lf_occupancy.specs.MarkLists.{IsPlaceX};
ghost use Rattle.lf_occupancy.specs.Views.{cell_box};

use lf_cells::{CellId, CellTable};
use lf_floorplan::Frame;
use lf_rules::box_with_points;
use lf_segments::FrameIndex;
use lf_units::Rect;
use std::marker::Model;

/// A cell and its box, which begins at a possible x of a place.
#[derive(Clone, Copy)]
pub(crate) struct CellBox<'a> {
    pub(crate) id: &'a CellId,
    pub(crate) rect: &'a Rect,
    pub(crate) ghost edge: { IsPlaceX rect.now.x1 },
}

/// The cells whose boxes are marked: the frame, its index, and the table of the cells. Their macros
/// are the frame's, of whole size.
#[derive(Clone, Copy)]
pub(crate) struct PlacedCells<'a> {
    pub(crate) index: &'a FrameIndex,
    pub(crate) frame: &'a Frame,
    pub(crate) cells: &'a CellTable,
    pub(crate) ghost sized: { HaveSize frame.now cells.now },
}

/// The boxes of a table's cells at their working places, in database units. An unplaced cell has no
/// box. A contract sees the list of boxes of each team.
#[derive(Drop)]
pub(crate) struct Boxes<'a> {
    frame: &'a Frame,
    cells: &'a CellTable,
}

impl<'a> Model for Boxes<'a> {
    ghost use Rattle.std.specs.Prelude.{List, Option};
    ghost use Rattle.lf_units.specs.declared.geometry.Rect.{Rect};
    ghost use Rattle.lf_occupancy.specs.Floorplans.{HaveSize, boxes_in};

    ghost Value = { List (List (Option Rect)) };

    ghost view = { λ b. boxes_in b.frame.now b.cells.now };

    ghost invariant = { λ b. HaveSize b.frame.now b.cells.now };
}

/// The box of a cell of the table at its working place. `None` if the cell is unplaced or not in
/// the table.
fn box_in_table(frame: &Frame, cells: &CellTable, id: CellId) -> Option<Rect>
    requires { All (HasSize frame.now) (cells_of cells.now id.team) }
    ensures is { result ≡ option_and_then (working_box_of frame.now) (cell_at cells.now id) }
    ensures edge { IfSome result (λ rect. IsPlaceX rect.x1) }
{
    let cell_placement = cells.placement_of(id)?;
    let place = cell_placement.working?;
    let mac = &frame.macros.as_slice()[cell_placement.mac];
    Some(box_with_points(frame, mac, &place))
}

/// The box of a cell at its working place, as an element of the boxes of all teams. `None` if the
/// cell is unplaced or not in the table.
pub(crate) fn box_at_work(frame: &Frame, cells: &CellTable, id: &CellId) -> Option<Rect>
    requires { HaveSize frame.now cells.now }
    ensures is { result ≡ cell_box (slice_index_or (boxes_in frame.now cells.now) id.now.team []) id.now.own }
    ensures edge { IfSome result (λ rect. IsPlaceX rect.x1) }
{
    box_in_table(frame, cells, *id)
}

impl<'a> Boxes<'a> {
    /// The boxes of the table's cells.
    pub(crate) fn new(frame: &'a Frame, cells: &'a CellTable) -> Boxes<'a>
        requires { HaveSize frame.now cells.now }
        ensures { result ≡ boxes_in frame.now cells.now }
    {
        Boxes { frame, cells }
    }

    /// The box of the team's cell at position `own`. `None` if the cell is unplaced or not in the
    /// table.
    pub(crate) fn get_in(&self, team: usize, own: u32) -> Option<Rect>
        ensures { result ≡ cell_box (slice_index_or self.now team []) own }
    {
        match self.cells.cell_of(team, own as usize) {
            Some(id) => box_at_work(self.frame, self.cells, &id),
            None => None,
        }
    }
}
