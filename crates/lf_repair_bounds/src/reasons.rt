//! Why no place can hold the cells of a macro.

ghost use Rattle.std.specs.Prelude.{◌≡◌, ◌↔◌, ◌<ℤ◌, pos, Any, IsTrue};
ghost use Rattle.lf_floorplan.specs.Boxes.{IsSized, size_of};
ghost use Rattle.lf_floorplan.specs.Sizes.{box_at};
ghost use Rattle.lf_rules.specs.Solid.{IsSolid};
ghost use Rattle.lf_segments.specs.Indexes.{IsIndexOf};
ghost use Rattle.lf_repair_bounds.specs.ImpossibleMacros.{FitsOnRow, FitsUpright, HasReason};
ghost use Rattle.lf_repair_bounds.specs.Searched.{HasWideSegment, IsWideFor};

use lf_floorplan::{Frame, Macro, Place, Row, bottom_row_is_unique};
use lf_orient::Orient;
use lf_rules::{box_with_points, height_in_sites, is_on_rail, is_oriented};
use lf_segments::FrameIndex;
use lf_units::{Rect, Span};

/// Why no place can hold the cells of a macro in a team: the first of these that is true.
#[derive(Clone, Copy, Debug, PartialEq, Eq)]
pub enum ImpossibleReason {
    /// The macro is not 1 to 8 rows high.
    Height,
    /// No row allows its orientations and its bottom rail.
    Orientation,
    /// It is wider than every segment of the team.
    Width,
    /// No ground of the team holds it.
    Ground,
}

/// A macro whose cells no place of the team can hold.
#[derive(Clone, Copy, Debug, PartialEq, Eq)]
pub struct ImpossibleMacro {
    /// The number of the team: a fence's position in the frame, or the number of fences for `-`.
    pub team: usize,
    /// The position of the macro in the frame.
    pub mac: usize,
    pub reason: ImpossibleReason,
}

/// The box of the macro in orientation N, with its lower left corner at the origin.
fn upright_box(frame: &Frame, mac: &Macro) -> Rect
    requires { IsSized frame.now mac.now }
    ensures is { result ≡ box_at (size_of frame.now mac.now) (pos 0) (pos 0) }
    ensures width { result.x2 ≡ (size_of frame.now mac.now).x }
    ensures wide { pos 0 <ℤ result.x2 }
    ensures solid { IsSolid result }
{
    box_with_points(frame, mac, &Place::new(0, 0, Orient::N))
}

/// Whether the row allows a cell of this macro and height the orientation and its bottom rail.
fn fits_on_row(frame: &Frame, mac: &Macro, height: u32, row: &Row, orient: Orient) -> bool
    ensures { IsTrue result ↔ FitsOnRow frame.now mac.now height row.now orient }
{
    if !is_on_rail(mac, height, row) {
        return false;
    }
    is_oriented(frame, mac, orient, height, row)
}

/// Whether the row allows a cell of this macro and height some orientation.
fn fits_upright(frame: &Frame, mac: &Macro, height: u32, row: &Row) -> bool
    ensures { IsTrue result ↔ FitsUpright frame.now mac.now height row.now }
{
    if fits_on_row(frame, mac, height, row, Orient::N) {
        return true;
    }
    if fits_on_row(frame, mac, height, row, Orient::S) {
        return true;
    }
    if fits_on_row(frame, mac, height, row, Orient::FN) {
        return true;
    }
    fits_on_row(frame, mac, height, row, Orient::FS)
}

/// Whether a row allows a cell of this macro and height some orientation.
fn fits_a_row(frame: &Frame, mac: &Macro, height: u32) -> bool
    ensures { IsTrue result ↔ Any (λ r. FitsUpright frame.now mac.now height r) frame.now.rows }
{
    let rows = frame.rows.as_slice();
    rows.iter().any(|row| fits_upright(frame, mac, height, row))
}

/// Whether a span of a team is one of this team, and at least as wide as this box, whose left edge
/// is at 0.
fn is_wide_for(own: usize, span: &Span, team: usize, rect: &Rect) -> bool
    requires { pos 0 <ℤ rect.now.x2 }
    ensures { IsTrue result ↔ IsWideFor team rect.now.x2 own span.now.lo span.now.hi }
{
    if own != team {
        return false;
    }
    let Span { lo, hi } = *span;
    match lo.checked_add(rect.x2) {
        Some(end) => end <= hi,
        None => false,
    }
}

/// Whether a segment of the team is at least as wide as this box, whose left edge is at 0.
fn fits_a_segment(index: &FrameIndex, team: usize, rect: &Rect) -> bool
    requires { pos 0 <ℤ rect.now.x2 }
    ensures { IsTrue result ↔ HasWideSegment index.now team rect.now.x2 }
{
    let segments = index.segments().as_slice();
    segments.iter().any(|segment| is_wide_for(segment.team, &segment.span, team, rect))
}

/// The first of the reasons that is true of the macro in the team, and `Ground` if no other is. The
/// index is that of the frame.
pub(crate) fn reason_of(
    frame: &Frame,
    index: &FrameIndex,
    team: usize,
    mac: &Macro,
) -> ImpossibleReason
    requires sized { IsSized frame.now mac.now }
    requires index { IsIndexOf frame.now index.now }
    ensures { HasReason frame.now team mac.now result }
{
    bottom_row_is_unique();
    let rect = upright_box(frame, mac);
    let Some(height) = height_in_sites(frame, &rect) else {
        return ImpossibleReason::Height;
    };
    if !fits_a_row(frame, mac, height) {
        return ImpossibleReason::Orientation;
    }
    if !fits_a_segment(index, team, &rect) {
        return ImpossibleReason::Width;
    }
    ImpossibleReason::Ground
}
