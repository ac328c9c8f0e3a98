//! The strips of segments, and the search for them.

ghost use Rattle.std.specs.Prelude.{◌≡◌, ◌<◌, ◌≤◌, ◌<ℤ◌, ◌≤ℤ◌, ◌+ℤ◌, ℕ, ℤ, All, IfOk, IsTrue, int_le, int_lt, length, map, negsuc, pos, true, false};
ghost use Rattle.lf_segments.specs.declared.strip.Strip.{Strip};
ghost use Rattle.lf_segments.specs.RowStarts.{rows_of};
ghost use Rattle.lf_segments.specs.Lookups.{AreWideStrips, IsRowHeight};
ghost use Rattle.lf_segments.specs.Strips.{AreNear, AreRowsNear, is_begun, is_earlier, is_ended, row_y, rows_in, strip_of};

use crate::rows_by_y::{RowEntry, RowsByY};
use crate::segment::Segment;
use crate::segments::Segments;
use crate::strip::Strip;
use crate::team_starts::TeamStarts;
use lf_floorplan::Frame;
use lf_units::Rect;
use std::alloc::{AllocError, Global};

/// No strip lies lower: the least coordinate of a DEF text is above this.
const LOWEST: i64 = -2147483648;

/// The greatest number of strips that a search skips one after another.
const FEW: usize = 4;

/// The strips of a frame, and where those of each team begin in each row.
#[derive(Clone, Copy)]
pub(crate) struct StripTable<'a> {
    pub(crate) strips: &'a [Strip],
    pub(crate) starts: &'a TeamStarts,
}

/// A run of numbers of strips, from `start` on and below `end`.
#[derive(Clone, Copy, Debug, PartialEq, Eq)]
pub struct StripRange {
    pub start: usize,
    pub end: usize,
}

/// Returns the y of the row with this number.
fn level(frame: &Frame, row: usize) -> i64
    requires { row < length frame.now.rows }
    ensures is { result ≡ row_y frame.now row }
    ensures low { negsuc 2147483647 <ℤ result }
    ensures high { result ≤ℤ pos 2147483647 }
{
    i64::from(frame.rows.as_slice()[row].y)
}

/// Returns the strip of a segment.
fn strip_at(frame: &Frame, segment: &Segment) -> Strip
    requires { segment.now.row < length frame.now.rows }
    ensures { result ≡ strip_of frame.now segment.now }
{
    let y = level(frame, segment.row);
    Strip {
        row: segment.row,
        team: segment.team,
        area: Rect {
            x1: segment.span.lo,
            y1: y,
            x2: segment.span.hi,
            y2: y + frame.pitch.y,
        },
    }
}

/// Returns the strips of segments, in their order. `Err` if an allocation fails.
pub(crate) fn strips_of(
    alloc: Global,
    frame: &Frame,
    segments: &[Segment],
) -> Result<Vec<Strip>, AllocError>
    requires { All (λ g. g.row < length frame.now.rows) segments.now }
    ensures { IfOk result (λ strips. strips.items ≡ map (strip_of frame.now) segments.now) }
{
    let mut strips = Vec::with_capacity(alloc, segments.len())?;
    for segment in segments {
        strips.push(strip_at(frame, segment))?;
    }
    Ok(strips)
}

/// Returns whether the strip is of an earlier row or team. For a strip of this row and team,
/// returns `left`.
fn is_before(strip: &Strip, row: usize, team: usize, left: bool) -> bool
    ensures { result ≡ is_earlier row team left strip.now }
{
    if strip.row != row {
        return strip.row < row;
    }
    if strip.team != team {
        return strip.team < team;
    }
    left
}

/// Returns whether the strip is of an earlier row or team, or of this row and team and ends at x or
/// left of it.
fn ends_before(strip: &Strip, row: usize, team: usize, x: &i64) -> bool
    ensures { result ≡ is_earlier row team (int_le strip.now.area.x2 x.now) strip.now }
{
    is_before(strip, row, team, strip.area.x2 <= *x)
}

/// Skips at most `FEW` strips, from position `from` on, for which `ends_before` holds. Returns the
/// position reached.
fn skip_ended(strips: &[Strip], from: usize, row: usize, team: usize, x: &i64) -> usize {
    let last = from.saturating_add(FEW);
    for at in from..last {
        let Some(strip) = strips.get(at) else {
            return at;
        };
        if !ends_before(strip, row, team, x) {
            return at;
        }
    }
    last
}

/// Returns whether `ends_before` holds for each strip in front of this position. Looks at the last
/// of them. False if there are fewer strips.
fn front_is_ended(strips: &[Strip], row: usize, team: usize, x: &i64, at: usize) -> bool
    requires { AreWideStrips strips.now }
    ensures within { IsTrue result → at ≤ length strips.now }
    ensures ended { IsTrue result → (k : ℕ) → (d : Strip) → k < at → is_ended strips.now row team x.now k d ≡ true }
{
    if at == 0 {
        return true;
    }
    if strips.len() < at {
        return false;
    }
    ends_before(&strips[at - 1], row, team, x)
}

/// Returns whether `ends_before` holds for no strip from this position on. Looks at the first of
/// them.
fn rest_is_not_ended(strips: &[Strip], row: usize, team: usize, x: &i64, at: usize) -> bool
    requires { AreWideStrips strips.now }
    ensures { IsTrue result → (k : ℕ) → (d : Strip) → at ≤ k → k < length strips.now
        → is_ended strips.now row team x.now k d ≡ false }
{
    if strips.len() <= at {
        return true;
    }
    if ends_before(&strips[at], row, team, x) {
        return false;
    }
    true
}

/// Returns the number of strips of an earlier row or team, or of this row and team that end at x or
/// left of it. If `guess` is the number of strips of an earlier row or team, and few of the others
/// end there, a few probes find it; otherwise a binary search does.
fn count_ended(strips: &[Strip], guess: usize, row: usize, team: usize, x: &i64) -> usize
    requires { AreWideStrips strips.now }
    ensures within { result ≤ length strips.now }
    ensures ended { (k : ℕ) → (d : Strip) → k < result → is_ended strips.now row team x.now k d ≡ true }
    ensures rest { (k : ℕ) → (d : Strip) → result ≤ k → k < length strips.now
        → is_ended strips.now row team x.now k d ≡ false }
{
    let at = skip_ended(strips, guess, row, team, x);
    if front_is_ended(strips, row, team, x, at) && rest_is_not_ended(strips, row, team, x, at) {
        return at;
    }
    strips.partition_point(|strip| is_before(strip, row, team, strip.area.x2 <= *x))
}

/// Returns whether the strip is of an earlier row or team, or of this row and team and begins left
/// of x.
fn begins_before(strip: &Strip, row: usize, team: usize, x: &i64) -> bool
    ensures { result ≡ is_earlier row team (int_lt strip.now.area.x1 x.now) strip.now }
{
    is_before(strip, row, team, strip.area.x1 < *x)
}

/// Returns the number of the first strip, from `first` on, that is not begun. It is of a later row
/// or team, or of this row and team and does not begin left of x. Returns the number of strips if
/// there is no such strip.
fn end_of_begun(strips: &[Strip], first: usize, row: usize, team: usize, x: &i64) -> usize
    requires strips { AreWideStrips strips.now }
    requires first { first ≤ length strips.now }
    ensures within { result ≤ length strips.now }
    ensures begun { (k : ℕ) → (d : Strip) → first ≤ k → k < result → is_begun strips.now row team x.now k d ≡ true }
    ensures rest { (k : ℕ) → (d : Strip) → result ≤ k → k < length strips.now
        → is_begun strips.now row team x.now k d ≡ false }
{
    for n in first..strips.len() {
        if !begins_before(&strips[n], row, team, x) {
            return n;
        }
    }
    strips.len()
}

/// Returns the numbers of the strips of a row and a team that overlap a range of x. A lookup finds
/// the strips of the row, and another one the team's. A few probes, or a binary search, find the
/// first that overlaps, and a scan from there the last.
pub(crate) fn near_strips(
    table: &StripTable<'_>,
    segments: &Segments,
    row: usize,
    team: usize,
    lo: &i64,
    hi: &i64,
) -> StripRange
    requires strips { AreWideStrips table.now.strips.now }
    requires rows { rows_in table.now.strips.now ≡ rows_of segments.now }
    ensures { AreNear table.now.strips.now row team lo.now hi.now result.start result.end }
{
    let range = segments.range_of(row);
    let in_row = &table.strips[range.start..range.end];
    let guess = table.starts.start_of(row, team).saturating_sub(range.start);
    let first = count_ended(in_row, guess, row, team, lo);
    let end = end_of_begun(in_row, first, row, team, hi);
    StripRange {
        start: range.start + first,
        end: range.start + end,
    }
}

/// Returns the lowest y at which the strip of a row of this height may share a point with the
/// rectangle.
fn lowest_near(height: &i64, rect: &Rect) -> i64
    requires { IsRowHeight height.now }
    ensures { (y : ℤ) → negsuc 2147483647 ≤ℤ y → rect.now.y1 <ℤ (y +ℤ height.now) → result ≤ℤ y }
{
    rect.y1.max(LOWEST) - *height + 1
}

/// Returns the entries of the rows of this height whose strips may share a point with the
/// rectangle. Found by binary search.
pub(crate) fn rows_near<'a>(rows: &'a RowsByY, height: &i64, rect: &Rect) -> &'a [RowEntry]
    requires { IsRowHeight height.now }
    ensures { AreRowsNear rows.now height.now rect.now result.now }
{
    rows.between(lowest_near(height, rect), rect.y2)
}
