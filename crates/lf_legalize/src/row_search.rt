//! The arguments of the search for the best place by rows.

ghost use Rattle.std.specs.Prelude.{◌≡◌, ◌<◌, ◌≤◌, ◌*ℤ◌, ◌≤ℤ◌, length, negsuc, pos};
ghost use Rattle.lf_floorplan.specs.Boxes.{IsSized, macro_of, size_of};
ghost use Rattle.lf_occupancy.specs.Floorplans.{IsOccupancyOf};
ghost use Rattle.lf_legalize.specs.Extents.{IsNearDefPoint};

use crate::occupied_frame::OccupiedFrame;
use lf_cells::CellId;
use lf_floorplan::Frame;
use lf_occupancy::OccupancyView;
use lf_rules::Padding;
use lf_segments::RowsByY;
use lf_units::{Point, Span};

/// A cell that is regarded as unplaced, the target for its best place, and its team's padding.
#[derive(Clone, Copy)]
pub(crate) struct RowSearch<'a> {
    /// The frame and the occupancy below, with the cells that the occupancy holds.
    pub occupied: &'a OccupiedFrame<'a>,
    pub frame: &'a Frame,
    pub occupancy: &'a OccupancyView<'a>,
    pub id: CellId,
    /// The position of the cell's macro in the frame.
    pub mac: usize,
    /// The macro's size, in database units.
    pub size: Point,
    /// The macro's height in core sites.
    pub height: u8,
    /// A point near the coordinates of a DEF text.
    pub target: &'a Point,
    pub padding: Padding,
    pub ghost of_frame: { frame.now ≡ occupied.now.frame },
    pub ghost of_occupancy: { occupancy.now ≡ occupied.now.occupancy },
    pub ghost known: { mac < length frame.now.macros },
    pub ghost sized: { IsSized frame.now (macro_of frame.now mac) },
    pub ghost size_is: { size ≡ size_of frame.now (macro_of frame.now mac) },
    pub ghost least: { 1 ≤ height },
    pub ghost most: { height ≤ 8 },
    pub ghost high: { size.y ≡ pos height *ℤ frame.now.pitch.y },
    pub ghost near: { IsNearDefPoint target.now },
}

/// An x range to search, in database units, which begins at -2^62 or above.
#[derive(Clone, Copy)]
pub(crate) struct SearchWindow {
    pub span: Span,
    pub ghost low: { negsuc 4611686018427387903 ≤ℤ span.lo },
}

/// A law: the occupancy of the search is of its frame, and holds its cells at their working places.
pub(crate) fn search_is_occupied(search: &RowSearch<'_>)
    ensures { IsOccupancyOf search.now.frame.now search.now.occupied.now.cells search.now.occupancy.now }
{
    search.occupied.occupancy_holds_cells();
}

/// The rows of the frame in order of y.
pub(crate) fn rows_of<'a>(search: &RowSearch<'a>) -> &'a RowsByY
    ensures { result.now ≡ search.now.occupancy.now.index.rows }
{
    search.occupancy.index().rows()
}
