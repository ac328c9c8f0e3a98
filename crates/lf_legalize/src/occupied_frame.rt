//! A frame, a table of cells, and the occupancy with these cells.

ghost use Rattle.std.specs.Prelude.{◌≡◌};
ghost use Rattle.lf_occupancy.specs.Floorplans.{IsOccupancyOf};
ghost use Rattle.lf_legalize.specs.OccupiedFrames.{occupied_frame};

use lf_cells::CellTable;
use lf_floorplan::Frame;
use lf_occupancy::OccupancyView;
use std::marker::Model;

/// A frame, a table of cells, and the occupancy of the frame by these cells at their working
/// places. A contract sees the three.
#[derive(Drop)]
pub(crate) struct OccupiedFrame<'a> {
    frame: &'a Frame,
    pub(crate) cells: &'a CellTable,
    occupancy: &'a OccupancyView<'a>,
}

impl<'a> Model for OccupiedFrame<'a> {
    ghost use Rattle.lf_occupancy.specs.Floorplans.{IsOccupancyOf};
    ghost use Rattle.lf_legalize.specs.OccupiedFrames.{OccupiedFrameView, occupied_frame};

    ghost Value = { OccupiedFrameView };

    ghost view = { λ o. occupied_frame o.frame.now o.cells.now o.occupancy.now };

    ghost invariant = { λ o. IsOccupancyOf o.frame.now o.cells.now o.occupancy.now };
}

impl<'a> OccupiedFrame<'a> {
    /// The frame, the cells and their occupancy.
    pub(crate) fn new(
        frame: &'a Frame,
        cells: &'a CellTable,
        occupancy: &'a OccupancyView<'a>,
    ) -> OccupiedFrame<'a>
        requires { IsOccupancyOf frame.now cells.now occupancy.now }
        ensures { result ≡ occupied_frame frame.now cells.now occupancy.now }
    {
        OccupiedFrame {
            frame,
            cells,
            occupancy,
        }
    }

    /// The frame.
    pub(crate) fn frame(&self) -> &'a Frame
        ensures { result.now ≡ self.now.frame }
    {
        self.frame
    }

    /// The occupancy.
    pub(crate) fn occupancy(&self) -> &'a OccupancyView<'a>
        ensures { result.now ≡ self.now.occupancy }
    {
        self.occupancy
    }

    /// A law: the occupancy is of the frame, and holds the cells at their working places.
    pub(crate) fn occupancy_holds_cells(&self)
        ensures { IsOccupancyOf self.now.frame self.now.cells self.now.occupancy }
    {
        let _ = &self.frame;
    }
}
