//! The rules on rows: height, bottom row, and the rows that carry the box.

ghost use Rattle.std.specs.Prelude.{◌≡◌, ◌↔◌, ℕ, ℤ, pos, ◌<◌, ◌≤◌, ◌+ℤ◌, ◌-ℤ◌, ◌*ℤ◌, ◌<ℤ◌, ◌≤ℤ◌, IsTrue, MatchOption, Contains, Some, if◌then◌else◌, IfSome, length, slice_get};
ghost use Rattle.std.specs.Option.{option_map};
ghost use Rattle.lf_orient.specs.Orientation.{rail_below};
ghost use Rattle.lf_floorplan.specs.Rows.{IsCoreRow};
ghost use Rattle.lf_floorplan.specs.declared.parts.Row.{Row};
ghost use Rattle.lf_floorplan.specs.RowSupport.{IsSitesHigh, IsRowOfBox, IsBottomRow, Supports, rail_alternated};
ghost use Rattle.lf_rules.specs.Solid.{HasLevel, IsFrameRow, IsOnlyRow, IsSolid};

use crate::cover::corner_of;
use lf_floorplan::{Frame, FrameQuery, Row};
use lf_orient::{Orient, Rail, opposite, row_rail};
use lf_units::{Point, Rect};

/// Returns the y that is `sites` site heights above the box's lower edge.
fn level(pitch: &Point, rect: &Rect, sites: u32) -> i64
    requires high { pos 0 <ℤ pitch.now.y }
    requires low { pitch.now.y ≤ℤ pos 20000000000 }
    requires level { HasLevel rect.now sites }
    ensures { result ≡ rect.now.y1 +ℤ (pos sites *ℤ pitch.now.y) }
{
    rect.y1 + i64::from(sites) * pitch.y
}

/// Returns the point that is `sites` site heights above the box's lower left corner.
fn foot_of(frame: &Frame, rect: &Rect, sites: u32) -> Point
    requires { HasLevel rect.now sites }
    ensures { result ≡ record { x = rect.now.x1; y = rect.now.y1 +ℤ (pos sites *ℤ frame.now.pitch.y) } }
{
    Point {
        x: rect.x1,
        y: level(&frame.pitch, rect, sites),
    }
}

/// Returns the height of the box in core sites. `None` iff that is not a whole number from 1 to 8.
/// This is rule 1. The box has points.
pub fn height_in_sites(frame: &Frame, rect: &Rect) -> Option<u32>
    requires { IsSolid rect.now }
    ensures { MatchOption result ((k : ℕ) → IsSitesHigh frame.now rect.now k → ⊥)
        (λ k. IsSitesHigh frame.now rect.now k) }
{
    for k in 1..9u32 {
        if rect.y2 == level(&frame.pitch, rect, k) {
            return Some(k);
        }
    }
    None
}

/// Returns whether the box's left edge is a whole number of core sites right of the row's.
fn is_on_grid(frame: &Frame, rect: &Rect, row: &Row) -> bool
    requires solid { IsSolid rect.now }
    requires left { row.now.x ≤ℤ rect.now.x1 }
    ensures { IsTrue result ↔ ((site : ℕ) × (rect.now.x1 -ℤ row.now.x ≡ pos site *ℤ frame.now.pitch.x)) }
{
    let offset = rect.x1 - i64::from(row.x);
    offset % frame.pitch.x == 0
}

/// Returns whether the row lies `sites` site heights above the box's lower edge, under all of its
/// width.
fn is_row_of_box(frame: &Frame, rect: &Rect, sites: u32, row: &Row) -> bool
    requires level { HasLevel rect.now sites }
    requires core_ones { IsCoreRow frame.now.pitch row.now }
    ensures { IsTrue result ↔ IsRowOfBox frame.now rect.now sites row.now }
{
    if i64::from(row.y) != level(&frame.pitch, rect, sites) {
        return false;
    }
    if rect.x1 < i64::from(row.x) {
        return false;
    }
    if row.right_edge(&frame.pitch) < rect.x2 {
        return false;
    }
    true
}

/// Returns whether the row lies at the box's lower edge, under all of its width, and its grid holds
/// the box's left edge. Rule 2 requires such a row. The box has points, and the row is one of the
/// frame.
pub fn is_bottom_row(frame: &Frame, rect: &Rect, row: &Row) -> bool
    requires solid { IsSolid rect.now }
    requires row { IsFrameRow frame.now row.now }
    ensures { IsTrue result ↔ IsBottomRow frame.now rect.now row.now }
{
    if !is_row_of_box(frame, rect, 0, row) {
        return false;
    }
    is_on_grid(frame, rect, row)
}

/// Returns the row at this position.
fn row_of(frame: &Frame, number: usize) -> &Row
    requires { number < length frame.now.rows }
    ensures row { slice_get frame.now.rows number ≡ Some result.now }
    ensures core_ones { IsCoreRow frame.now.pitch result.now }
    ensures known { Contains frame.now.rows result.now }
{
    &frame.rows.as_slice()[number]
}

/// Returns the row that lies at the point's y and extends over its x. `None` if there is no such
/// row.
fn row_at<'a, N: FrameQuery>(near: &'a N, point: &Point) -> Option<&'a Row>
    ensures only { IsOnlyRow (N.of near.now) point.now (option_map (λ r. r.now) result) }
    ensures core_ones { IfSome result (λ r. IsCoreRow (N.of near.now).pitch r.now) }
{
    match near.row_at(point.y, point.x) {
        Some(number) => Some(row_of(near.frame(), number)),
        None => None,
    }
}

/// Returns the bottom row of the box. `None` if the box has no bottom row.
pub(crate) fn bottom_row<'a, N: FrameQuery>(near: &'a N, rect: &Rect) -> Option<&'a Row>
    requires { IsSolid rect.now }
    ensures { MatchOption result ((r : Row) → IsBottomRow (N.of near.now) rect.now r → ⊥)
        (λ r. IsBottomRow (N.of near.now) rect.now r.now) }
{
    let Some(row) = row_at(near, &corner_of(rect)) else {
        return None;
    };
    if is_bottom_row(near.frame(), rect, row) {
        return Some(row);
    }
    None
}

/// Returns the rail of a row of this orientation, alternated `times` times. `None` if the
/// orientation lies on its side.
fn changed_rail(orient: Orient, times: u32) -> Option<Rail>
    ensures { result ≡ option_map (rail_alternated times) (rail_below orient) }
{
    let mut rail = row_rail(orient);
    for _ in 0..times {
        rail = rail.map(opposite);
    }
    rail
}

/// Returns whether the row carries the box `sites` site heights above its bottom row. The row lies
/// there, under all of the box's width, and its rail is the bottom row's, alternated `sites` times.
/// Rule 3 requires such a row at each height. The box has points, the row is one of the frame, and
/// `sites` is at most 8.
pub fn supports(frame: &Frame, rect: &Rect, bottom: &Row, sites: u32, row: &Row) -> bool
    requires level { HasLevel rect.now sites }
    requires row { IsFrameRow frame.now row.now }
    ensures { IsTrue result ↔ Supports frame.now rect.now bottom.now sites row.now }
{
    if !is_row_of_box(frame, rect, sites, row) {
        return false;
    }
    row_rail(row.orient) == changed_rail(bottom.orient, sites)
}

/// Returns whether a row of the frame carries the box `sites` site heights above its bottom row.
fn is_carried<N: FrameQuery>(near: &N, rect: &Rect, bottom: &Row, sites: u32) -> bool
    requires { HasLevel rect.now sites }
    ensures { IsTrue result ↔ ((s : Row) × Supports (N.of near.now) rect.now bottom.now sites s) }
{
    let frame = near.frame();
    let Some(row) = row_at(near, &foot_of(frame, rect, sites)) else {
        return false;
    };
    supports(frame, rect, bottom, sites, row)
}

/// Returns whether rows of the frame carry the box over all of its height. Its bottom row carries
/// the lowest part.
pub(crate) fn is_supported<N: FrameQuery>(near: &N, rect: &Rect, bottom: &Row, height: u32) -> bool
    requires level { HasLevel rect.now height }
    requires bottom { IsBottomRow (N.of near.now) rect.now bottom.now }
    ensures { IsTrue result ↔ ((j : ℕ) → j < height → (s : Row) × Supports (N.of near.now) rect.now bottom.now j s) }
{
    for sites in 1..height {
        if !is_carried(near, rect, bottom, sites) {
            return false;
        }
    }
    true
}
