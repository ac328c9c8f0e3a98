//! The cells of a row that keep the padding from all other cells of their team.

ghost use Rattle.std.specs.Prelude.{◌≡◌, ◌<◌, ◌≤◌, ◌*ℤ◌, ◌≤ℤ◌, ℕ, All, IfOk, IsSomeAnd, IsTrue, OnOk, length, pos, slice_index_or, []};
ghost use Rattle.lf_segments.specs.Indexes.{IsInside};
ghost use Rattle.lf_rules.specs.Padding.{wider};
ghost use Rattle.lf_occupancy.specs.declared.strip_marks.Mark.{Mark};
ghost use Rattle.lf_occupancy.specs.MarkLists.{AreRising, EndUpTo};
ghost use Rattle.lf_occupancy.specs.MarkedStrips.{MarkTheirBoxes, MarksItsBoxes, strip_entries};
ghost use Rattle.lf_occupancy.specs.Views.{OverlapsNoBox, cell_box};

use crate::marked_strips::{CellPadding, MarkedStrip, MarkedStrips};
use crate::strip_marks::{Mark, padded_range, range_at};
use crate::widened::widened_area;
use lf_units::Rect;
use std::alloc::{AllocError, Global};

/// Whether the rectangle lies in the area.
fn lies_inside(rect: &Rect, area: &Rect) -> bool
    ensures { IsTrue result → IsInside rect.now area.now }
{
    if rect.x1 < area.x1 || area.x2 < rect.x2 {
        return false;
    }
    if rect.y1 < area.y1 || area.y2 < rect.y2 {
        return false;
    }
    true
}

/// Whether the cell of the mark has a box, and the box lies in the area.
fn has_box_inside(strip: &MarkedStrip<'_>, mark: &Mark, area: &Rect) -> bool
    ensures { IsTrue result → IsSomeAnd (cell_box (slice_index_or strip.now.boxes.now strip.now.team []) mark.now.own)
        (λ box. IsInside box area.now) }
{
    match strip.boxes.get_in(strip.team, mark.own) {
        Some(rect) => lies_inside(&rect, area),
        None => false,
    }
}

/// Whether the marks from position `from` on begin at x or to the right of it.
fn begin_from(marks: &[Mark], from: usize, x: &i64) -> bool
    requires { AreRising marks.now }
    ensures { IsTrue result → (k : ℕ) → (d : Mark) → from ≤ k → k < length marks.now
        → x.now ≤ℤ (slice_index_or marks.now k d).left }
{
    match marks.get(from) {
        Some(mark) => *x <= i64::from(mark.left),
        None => true,
    }
}

/// Adds the cell of the mark at position `n` to the list if it lies in this area of the strip and
/// keeps the padding from all other cells of the team. The marks in front of it end at `taken` or
/// to the left of it.
fn push_if_apart(
    strip: &MarkedStrip<'_>,
    area: &Rect,
    n: usize,
    taken: &i64,
    padding: &CellPadding,
    list: &mut Vec<u32>,
) -> Result<(), AllocError>
    requires marked { MarksItsBoxes strip.now }
    requires around { IsInside (wider padding.now.length area.now) strip.now.area }
    requires within { n < length strip.now.mark_list.now.marks.items }
    requires before { EndUpTo (strip_entries strip.now) n taken.now }
    ensures { All (OverlapsNoBox (slice_index_or strip.now.boxes.now strip.now.team []) padding.now.length)
        list.old.items → OnOk result
        (All (OverlapsNoBox (slice_index_or strip.now.boxes.now strip.now.team []) padding.now.length) list.new.items) }
{
    let marks = strip.mark_list.marks.as_slice();
    let range = range_at(strip, &marks[n]);
    let reach = padded_range(&range, padding);
    if *taken > reach.lo {
        return Ok(());
    }
    if !begin_from(marks, n + 1, &reach.hi) {
        return Ok(());
    }
    if !has_box_inside(strip, &marks[n], area) {
        return Ok(());
    }
    list.push(marks[n].own)?;
    Ok(())
}

/// Adds to the list the cells that lie in this area of the strip and keep the padding from all
/// other cells of the team, from left to right.
fn push_apart(
    strip: &MarkedStrip<'_>,
    area: &Rect,
    padding: &CellPadding,
    list: &mut Vec<u32>,
) -> Result<(), AllocError>
    requires marked { MarksItsBoxes strip.now }
    requires around { IsInside (wider padding.now.length area.now) strip.now.area }
    ensures { All (OverlapsNoBox (slice_index_or strip.now.boxes.now strip.now.team []) padding.now.length)
        list.old.items → OnOk result
        (All (OverlapsNoBox (slice_index_or strip.now.boxes.now strip.now.team []) padding.now.length) list.new.items) }
{
    let marks = strip.mark_list.marks.as_slice();
    let mut taken = i64::MIN;
    for n in 0..marks.len() {
        push_if_apart(strip, area, n, &taken, padding, list)?;
        let range = range_at(strip, &marks[n]);
        taken = taken.max(range.hi);
    }
    Ok(())
}

/// The cells that lie in the team's strips of a row and keep the padding from all other cells of
/// the team, from left to right. The strips are widened by no less than the padding.
pub(crate) fn apart_in_strips(
    alloc: Global,
    marked: &MarkedStrips<'_>,
    row: usize,
    team: usize,
    padding: &CellPadding,
) -> Result<Vec<u32>, AllocError>
    requires mark_lists { MarkTheirBoxes marked.now }
    requires reach { padding.now.length ≤ℤ (pos 16 *ℤ marked.now.strips.now.site.now) }
    ensures { IfOk result
        (λ apart. All (OverlapsNoBox (slice_index_or marked.now.boxes.now team []) padding.now.length) apart.items) }
{
    let strips = marked.strips;
    let mark_lists = marked.mark_lists;
    strips.index.strips_are_placed();
    let list = strips.index.strips();
    let near = strips
        .index
        .strips_overlapping(row, team, &i64::MIN, &i64::MAX);
    let mut apart = Vec::new(alloc);
    for n in near.start..near.end {
        let strip = MarkedStrip {
            boxes: marked.boxes,
            team,
            area: widened_area(strips, n),
            mark_list: &mark_lists[n],
        };
        push_apart(&strip, &list[n].area, padding, &mut apart)?;
    }
    Ok(apart)
}
