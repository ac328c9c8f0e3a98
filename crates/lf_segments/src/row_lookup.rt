//! The row at a point, and whether a box on rows lies in segments. Each lookup is a binary search.

ghost use Rattle.std.specs.Prelude.{◌≡◌, ◌↔◌, ◌≤◌, ◌+ℤ◌, ◌*ℤ◌, ◌≤ℤ◌, ◌<ℤ◌, All, AllPairs, IsTrue, MatchOption, Some, pos, slice_get};
ghost use Rattle.std.specs.Option.{IsSomeAnd};
ghost use Rattle.lf_floorplan.specs.Rows.{IsCoreRow, row_area};
ghost use Rattle.lf_floorplan.specs.RowSupport.{ExtendsOver, RestsOnRows};
ghost use Rattle.lf_segments.specs.Boxes.{x_extent};
ghost use Rattle.lf_segments.specs.Laws.{LiesAt, LiesInSegments};
ghost use Rattle.lf_segments.specs.Lookups.{CanLookUp, IsLevelAbove};
ghost use Rattle.lf_segments.specs.RowsByY.{IsEntryOf, IsRowsByY};
ghost use Rattle.lf_segments.specs.Segments.{ComesBefore, LiesInSegment};

use crate::rows_by_y::{RowEntry, RowsByY};
use crate::segment::Segment;
use crate::segments::Segments;
use lf_floorplan::{Frame, Row};
use lf_units::{Point, Rect};

/// Returns the row of an entry.
fn row_of<'a>(frame: &'a Frame, entry: &RowEntry) -> &'a Row
    requires { IsEntryOf frame.now entry.now }
    ensures row { slice_get frame.now.rows entry.now.row ≡ Some result.now }
    ensures core_ones { IsCoreRow frame.now.pitch result.now }
{
    &frame.rows.as_slice()[entry.row]
}

/// Returns whether the row ends at x or left of it.
fn ends_by(frame: &Frame, row: &Row, x: &i64) -> bool
    requires { IsCoreRow frame.now.pitch row.now }
    ensures { IsTrue result ↔ ((row_area frame.now.pitch row.now).x2 ≤ℤ x.now) }
{
    row.right_edge(&frame.pitch) <= *x
}

/// Returns the position of the row at y that extends over x. `None` if there is no such row.
pub(crate) fn row_at(frame: &Frame, rows: &RowsByY, y: &i64, x: &i64) -> Option<usize>
    requires { IsRowsByY frame.now rows.now }
    ensures { MatchOption result (All (λ r. ExtendsOver frame.now y.now x.now r → ⊥) frame.now.rows)
        (λ n. IsSomeAnd (slice_get frame.now.rows n) (ExtendsOver frame.now y.now x.now)) }
{
    let Some(entry) = rows.last_at(y, x) else {
        return None;
    };
    if ends_by(frame, row_of(frame, entry), x) {
        return None;
    }
    Some(entry.row)
}

/// Returns whether the box ends where the segment ends or left of it.
fn ends_in(rect: &Rect, segment: &Segment) -> bool
    ensures { IsTrue result ↔ (rect.now.x2 ≤ℤ segment.now.span.hi) }
{
    rect.x2 <= segment.span.hi
}

/// Returns whether the box's x range lies in one segment of the row and the team. Segments are in
/// order.
fn lies_in_one(segments: &Segments, row: usize, team: usize, rect: &Rect) -> bool
    requires order { AllPairs ComesBefore segments.now }
    requires wide { rect.now.x1 <ℤ rect.now.x2 }
    ensures { IsTrue result ↔ LiesInSegment segments.now row team (x_extent rect.now) }
{
    let Some(number) = segments.segment_at(row, team, rect.x1) else {
        return false;
    };
    match segments.as_slice().get(number) {
        Some(segment) => ends_in(rect, segment),
        None => false,
    }
}

/// Returns whether a row at this y extends over the box's left edge and has the box's x range in
/// one segment of the team.
fn lies_at(
    frame: &Frame,
    rows: &RowsByY,
    segments: &Segments,
    team: usize,
    rect: &Rect,
    y: &i64,
) -> bool
    requires { CanLookUp frame.now rows.now segments.now rect.now }
    ensures { IsTrue result ↔ LiesAt frame.now segments.now team rect.now y.now }
{
    match row_at(frame, rows, y, &rect.x1) {
        Some(row) => lies_in_one(segments, row, team, rect),
        None => false,
    }
}

/// Returns the y that is `level` site heights above y.
fn level_above(y: &i64, pitch: &Point, level: u32) -> i64
    requires { IsLevelAbove y.now pitch.now level }
    ensures { result ≡ y.now +ℤ (pos level *ℤ pitch.now.y) }
{
    *y + i64::from(level) * pitch.y
}

/// Returns whether the box lies in one segment of the team in each row that carries it. The box
/// must rest on rows and is at most 8 rows high.
pub(crate) fn lies_in(
    frame: &Frame,
    rows: &RowsByY,
    segments: &Segments,
    team: usize,
    rect: &Rect,
) -> bool
    requires lookup { CanLookUp frame.now rows.now segments.now rect.now }
    requires is_in_place { RestsOnRows frame.now rect.now }
    ensures { IsTrue result ↔ LiesInSegments frame.now segments.now team rect.now }
{
    for level in 0..8 {
        let y = level_above(&rect.y1, &frame.pitch, level);
        if rect.y2 <= y {
            return true;
        }
        if !lies_at(frame, rows, segments, team, rect, &y) {
            return false;
        }
    }
    true
}
