//! A frame and a table of cells with its macros.

ghost use Rattle.lf_placement.specs.Placements.{AreSized};

use lf_cells::CellTable;
use lf_floorplan::Frame;

/// A frame and a table of cells. The macros of all cells are the frame's, of whole size.
#[derive(Clone, Copy)]
pub(crate) struct SizedCells<'a> {
    pub(crate) frame: &'a Frame,
    pub(crate) cells: &'a CellTable,
    pub(crate) ghost sized: { AreSized frame.now cells.now },
}
