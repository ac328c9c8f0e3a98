//! Finds overlaps and free spans in strips.

ghost use Rattle.std.specs.Prelude.{◌≡◌, ◌++◌, IfOk, None, negsuc, ◌≤ℤ◌, length};
ghost use Rattle.lf_occupancy.specs.MarkLists.{IsLeast};
ghost use Rattle.lf_occupancy.specs.Strips.{AreFreeTo, AreFreeSpansOfStrip, OverlapsInOne, OverlapsInRow};
ghost use Rattle.lf_occupancy.specs.MarkedStrips.{MarkTheirBoxes, views_in};
ghost use Rattle.lf_occupancy.specs.Widened.{all_widened};

use crate::marked_strips::{CellPadding, MarkedStrip, MarkedStrips};
use crate::strip_marks::{free_in_mark_list, free_of_all, least_in_mark_list, x_range_of};
use crate::widened::{widened_area, widened_strips};
use lf_cells::CellId;
use lf_units::{Rect, Span};
use std::alloc::{AllocError, Global};

/// The least position of another cell of the team that has an entry in a widened strip of the row
/// and overlaps the rectangle there. Returns `so_far` if that is less or if there is no such cell.
fn least_in_row(
    marked: &MarkedStrips<'_>,
    row: usize,
    id: &CellId,
    rect: &Rect,
    so_far: Option<u32>,
) -> Option<u32>
    requires { MarkTheirBoxes marked.now }
    ensures { IsLeast (OverlapsInRow (all_widened marked.now.strips.now) (views_in marked.now) row
        id.now.team rect.now id.now.own) so_far result }
{
    let strips = marked.strips;
    let mark_lists = marked.mark_lists;
    let near = widened_strips(strips, row, id.team as usize, rect);
    let mut least = so_far;
    for n in near.start..near.end {
        let strip = MarkedStrip {
            boxes: marked.boxes,
            team: id.team as usize,
            area: widened_area(strips, n),
            mark_list: &mark_lists[n],
        };
        least = least_in_mark_list(&strip, rect, id.own, least);
    }
    least
}

/// The least position of an overlapping cell, in the same sense, in the strips of all rows. `None`
/// if no cell overlaps.
pub(crate) fn least_overlapped(marked: &MarkedStrips<'_>, id: &CellId, rect: &Rect) -> Option<u32>
    requires { MarkTheirBoxes marked.now }
    ensures { IsLeast (OverlapsInOne (all_widened marked.now.strips.now) (views_in marked.now)
        id.now.team rect.now id.now.own) None result }
{
    let strips = marked.strips;
    strips.index.strips_are_placed();
    let mut least = None;
    for entry in strips.index.rows_near(rect) {
        least = least_in_row(marked, entry.row, id, rect, least);
    }
    least
}

/// The spans of the first list, then those of the second. If the first list is empty, returns the
/// second one itself.
fn joined(first: Vec<Span>, second: Vec<Span>) -> Result<Vec<Span>, AllocError>
    ensures { IfOk result (λ all. all.items ≡ first.items ++ second.items) }
{
    if first.is_empty() {
        return Ok(second);
    }
    let mut all = first;
    all.extend_from_slice(&second)?;
    Ok(all)
}

/// The spans of a row's strips, within a window, that the team's cells other than this one leave
/// free, with the padding around each.
pub(crate) fn free_in_strips(
    alloc: Global,
    marked: &MarkedStrips<'_>,
    row: usize,
    id: &CellId,
    window: &Span,
    padding: &CellPadding,
) -> Result<Vec<Span>, AllocError>
    requires mark_lists { MarkTheirBoxes marked.now }
    requires low { negsuc 4611686018427387903 ≤ℤ window.now.lo }
    ensures { IfOk result
        (λ free. AreFreeTo marked.now.strips.now.index.now.strips (views_in marked.now) row id.now.team
        id.now.own window.now padding.now.length (length marked.now.strips.now.index.now.strips) free.items) }
{
    let strips = marked.strips;
    let mark_lists = marked.mark_lists;
    strips.index.strips_are_placed();
    let list = strips.index.strips();
    let near = strips
        .index
        .strips_overlapping(row, id.team as usize, &window.lo, &window.hi);
    let mut free = Vec::new(alloc);
    for n in near.start..near.end {
        let span = x_range_of(&list[n].area);
        let strip = MarkedStrip {
            boxes: marked.boxes,
            team: id.team as usize,
            area: widened_area(strips, n),
            mark_list: &mark_lists[n],
        };
        let part = free_in_mark_list(alloc, &strip, id.own, &span, window, padding)?;
        free = joined(free, part)?;
    }
    Ok(free)
}

/// The spans of the strip with this number that the cells of its team leave free, with the padding
/// around each, except the cell `without`. Empty if there is no such strip.
pub(crate) fn free_in_one(
    alloc: Global,
    marked: &MarkedStrips<'_>,
    number: usize,
    without: &CellId,
    padding: &CellPadding,
) -> Result<Vec<Span>, AllocError>
    requires { MarkTheirBoxes marked.now }
    ensures { IfOk result
        (λ free. AreFreeSpansOfStrip marked.now.strips.now.index.now.strips (views_in marked.now) without.now
        padding.now.length number free.items) }
{
    let strips = marked.strips;
    let mark_lists = marked.mark_lists;
    strips.index.strips_are_placed();
    let list = strips.index.strips();
    if number >= list.len() {
        return Ok(Vec::new(alloc));
    }
    let span = x_range_of(&list[number].area);
    let team = list[number].team;
    let strip = MarkedStrip {
        boxes: marked.boxes,
        team,
        area: widened_area(strips, number),
        mark_list: &mark_lists[number],
    };
    if team == without.team as usize {
        return free_in_mark_list(alloc, &strip, without.own, &span, &span, padding);
    }
    free_of_all(alloc, &strip, &span, padding)
}
