//! Widened strips together with their marks and the boxes that they mark.

ghost use Rattle.std.specs.Prelude.{◌≤ℤ◌, pos};
ghost use Rattle.lf_rules.specs.Padding.{IsShort};
ghost use Rattle.lf_occupancy.specs.MarkLists.{HasPoints, IsNearZero, IsPlaceX};

use crate::boxes::Boxes;
use crate::strip_marks::StripMarks;
use crate::widened::WidenedStrips;
use lf_units::Rect;

/// The padding around each cell as a length, in database units.
#[derive(Clone, Copy)]
pub(crate) struct CellPadding {
    pub(crate) length: i64,
    pub(crate) ghost short: { IsShort length },
}

/// The part of a widened strip that a cell's box covers.
#[derive(Clone, Copy)]
pub(crate) struct CoveredPart<'a> {
    pub(crate) rect: &'a Rect,
    pub(crate) ghost left: { IsPlaceX rect.now.x1 },
    pub(crate) ghost right: { rect.now.x2 ≤ℤ pos 549755813888 },
    pub(crate) ghost whole: { HasPoints rect.now },
}

/// A widened strip of a team: its area and its marks, with the boxes of all teams' cells.
#[derive(Clone, Copy)]
pub(crate) struct MarkedStrip<'a> {
    pub(crate) boxes: &'a Boxes<'a>,
    pub(crate) team: usize,
    pub(crate) area: Rect,
    pub(crate) mark_list: &'a StripMarks,
    pub(crate) ghost near: { IsNearZero area },
}

/// All widened strips and their marks, with the boxes of all teams' cells.
#[derive(Clone, Copy)]
pub(crate) struct MarkedStrips<'a> {
    pub(crate) strips: &'a WidenedStrips<'a>,
    pub(crate) mark_lists: &'a [StripMarks],
    pub(crate) boxes: &'a Boxes<'a>,
}
