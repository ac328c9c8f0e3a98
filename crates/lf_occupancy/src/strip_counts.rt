//! Counts boxes for each strip, as if some cells were at other places. All strips here are widened.

ghost use Rattle.std.specs.Prelude.{◌≡◌, ◌+◌, ◌≤◌, IfOk, IfSome, OnOk, Some, length, map};
ghost use Rattle.std.specs.Vec.{vec_capacity, vec_len};
ghost use Rattle.lf_occupancy.specs.Views.{KeepsCapacities};
ghost use Rattle.lf_occupancy.specs.Reserving.{IsOneOf};
ghost use Rattle.lf_occupancy.specs.Strips.{AreChanged, KeepMarksOf, IsReached, capacities_in};
ghost use Rattle.lf_occupancy.specs.MarkLists.{KeepsMarksOf};
ghost use Rattle.lf_occupancy.specs.Widened.{all_widened};
ghost use Rattle.lf_occupancy.specs.StripCounting.{AreShifted, HaveRoomForCounts, IsHigher, IsLess, IsLessAt, IsLower, IsMore, IsShiftOf, IsShifted, IsShiftedAt, hull_in};

use crate::strip_marks::{StripMarks, has_points, part_of, reserve_marks};
use crate::widened::{DistinctRows, WidenedStrips, distinct_rows, widened_area, widened_strips};
use lf_segments::StripRange;
use lf_units::Rect;
use std::alloc::{AllocError, Global};
use std::marker::Model;

/// How many boxes each strip of a frame holds, for a real or a planned placement. Contracts see the
/// numbers.
#[derive(Drop)]
pub struct StripCounts {
    pub(crate) counts: Vec<usize>,
}

impl Model for StripCounts {
    ghost use Rattle.std.specs.Prelude.{List, ℕ};

    ghost Value = { List ℕ };

    ghost view = { λ t. t.counts.items };
}

/// The number of marks of each strip.
pub(crate) fn marks_of(alloc: Global, mark_lists: &[StripMarks]) -> Result<Vec<usize>, AllocError>
    ensures { IfOk result (λ counts. counts.items ≡ map (λ l. vec_len l.marks) mark_lists.now) }
{
    let mut counts = Vec::with_capacity(alloc, mark_lists.len())?;
    for mark_list in mark_lists {
        counts.push(mark_list.marks.len())?;
    }
    Ok(counts)
}

/// Decreases the count by one if the rectangle shares a point with the area of the strip.
fn count_less(count: &mut usize, area: &Rect, rect: &Rect)
    ensures { IsLess area.now rect.now count.old count.new }
{
    if has_points(&part_of(area, rect)) {
        *count = count.saturating_sub(1);
    }
}

/// Decreases by one the count of each strip of the range that shares a point with the rectangle.
fn lower_run(counts: &mut Vec<usize>, strips: &WidenedStrips<'_>, near: &StripRange, rect: &Rect)
    requires many { length counts.old.items ≡ length (all_widened strips.now) }
    requires within { near.now.end ≤ length (all_widened strips.now) }
    ensures { AreChanged (IsOneOf near.now)
        (IsLessAt (all_widened strips.now) rect.now) counts.old.items counts.new.items }
{
    for n in near.start..near.end {
        count_less(&mut counts[n], &widened_area(strips, n), rect);
    }
}

/// Decreases counts as `lower_run` does, in the strips of the team in all these rows.
fn lower_rows(
    counts: &mut Vec<usize>,
    strips: &WidenedStrips<'_>,
    rows: &DistinctRows<'_>,
    team: usize,
    rect: &Rect,
)
    requires { length counts.old.items ≡ length (all_widened strips.now) }
    ensures { AreChanged (IsReached (all_widened strips.now) rows.now.rows.now team rect.now)
        (IsLessAt (all_widened strips.now) rect.now)
        counts.old.items counts.new.items }
{
    for entry in rows.rows {
        let near = widened_strips(strips, entry.row, team, rect);
        lower_run(counts, strips, &near, rect);
    }
}

/// Decreases by one the count of each strip of the team that shares a point with the box, if there
/// is one.
pub(crate) fn lower(
    counts: &mut Vec<usize>,
    strips: &WidenedStrips<'_>,
    team: usize,
    from: &Option<Rect>,
)
    requires { length counts.old.items ≡ length (all_widened strips.now) }
    ensures { IsLower (all_widened strips.now) team from.now counts.old.items counts.new.items }
{
    if let Some(rect) = from {
        let rows = distinct_rows(strips, rect);
        lower_rows(counts, strips, &rows, team, rect);
    }
}

/// Increases the count of a strip by one, and makes room for what is counted. `Err` if an
/// allocation fails: the strip then keeps its marks.
fn count_more(mark_list: &mut StripMarks, count: &mut usize) -> Result<(), AllocError>
    ensures kept { KeepsMarksOf mark_list.old mark_list.new }
    ensures more { OnOk result (count.new ≡ count.old + 1) }
    ensures room { OnOk result (count.new ≤ vec_capacity mark_list.new.marks) }
{
    let Some(next) = count.checked_add(1) else {
        return Err(AllocError);
    };
    let marks = &mut mark_list.marks;
    let more = next.saturating_sub(marks.len());
    reserve_marks(mark_list, more)?;
    *count = next;
    Ok(())
}

/// Increases by one the count of each strip of the range.
fn raise_run(
    mark_lists: &mut Vec<StripMarks>,
    counts: &mut Vec<usize>,
    near: &StripRange,
) -> Result<(), AllocError>
    requires room { KeepsCapacities counts.old.items (capacities_in mark_lists.old.items) }
    requires within { near.now.end ≤ length mark_lists.old.items }
    ensures kept { KeepMarksOf mark_lists.old.items mark_lists.new.items }
    ensures more { OnOk result (AreChanged (IsOneOf near.now) IsMore counts.old.items counts.new.items) }
    ensures room { OnOk result (KeepsCapacities counts.new.items (capacities_in mark_lists.new.items)) }
{
    for n in near.start..near.end {
        count_more(&mut mark_lists[n], &mut counts[n])?;
    }
    Ok(())
}

/// Increases by one the count of each strip of the team that shares a point with the rectangle.
fn raise_rows(
    mark_lists: &mut Vec<StripMarks>,
    counts: &mut Vec<usize>,
    strips: &WidenedStrips<'_>,
    team: usize,
    rect: &Rect,
) -> Result<(), AllocError>
    requires { HaveRoomForCounts (all_widened strips.now) mark_lists.old.items counts.old.items }
    ensures kept { KeepMarksOf mark_lists.old.items mark_lists.new.items }
    ensures more { OnOk result
        (IsHigher (all_widened strips.now) team (Some rect.now) counts.old.items counts.new.items) }
    ensures room { OnOk result (KeepsCapacities counts.new.items (capacities_in mark_lists.new.items)) }
{
    strips.index.strips_are_placed();
    let rows = distinct_rows(strips, rect);
    for entry in rows.rows {
        let near = widened_strips(strips, entry.row, team, rect);
        raise_run(mark_lists, counts, &near)?;
    }
    Ok(())
}

/// Increases counts as `raise_rows` does for the box, if there is one.
pub(crate) fn raise(
    mark_lists: &mut Vec<StripMarks>,
    counts: &mut Vec<usize>,
    strips: &WidenedStrips<'_>,
    team: usize,
    to: &Option<Rect>,
) -> Result<(), AllocError>
    requires { HaveRoomForCounts (all_widened strips.now) mark_lists.old.items counts.old.items }
    ensures kept { KeepMarksOf mark_lists.old.items mark_lists.new.items }
    ensures more { OnOk result (IsHigher (all_widened strips.now) team to.now counts.old.items counts.new.items) }
    ensures room { OnOk result (KeepsCapacities counts.new.items (capacities_in mark_lists.new.items)) }
{
    match to {
        Some(rect) => raise_rows(mark_lists, counts, strips, team, rect),
        None => Ok(()),
    }
}

/// An old box of a cell and its new box.
#[derive(Clone, Copy)]
pub(crate) struct BoxChange {
    from: Rect,
    to: Rect,
}

/// The change of box, if both boxes exist and no row lies between them.
pub(crate) fn near_shift(from: &Option<Rect>, to: &Option<Rect>) -> Option<BoxChange>
    ensures { IfSome result (λ shift. IsShiftOf from.now to.now shift) }
{
    let first = (*from)?;
    let second = (*to)?;
    if first.y2 < second.y1 || second.y2 < first.y1 {
        return None;
    }
    Some(BoxChange {
        from: first,
        to: second,
    })
}

/// The rectangle that holds both boxes.
fn hull_of(shift: &BoxChange) -> Rect
    ensures { result ≡ hull_in shift.now }
{
    Rect {
        x1: shift.from.x1.min(shift.to.x1),
        y1: shift.from.y1.min(shift.to.y1),
        x2: shift.from.x2.max(shift.to.x2),
        y2: shift.from.y2.max(shift.to.y2),
    }
}

/// Counts the new box in place of the old one in a strip with this area, and makes room for what is
/// counted. `Err` if an allocation fails: the strip then keeps its marks.
fn count_shift(
    mark_list: &mut StripMarks,
    count: &mut usize,
    area: &Rect,
    shift: &BoxChange,
) -> Result<(), AllocError>
    requires room { count.old ≤ vec_capacity mark_list.old.marks }
    ensures kept { KeepsMarksOf mark_list.old mark_list.new }
    ensures shifted { OnOk result (IsShifted area.now shift.now count.old count.new) }
    ensures room { OnOk result (count.new ≤ vec_capacity mark_list.new.marks) }
{
    if has_points(&part_of(area, &shift.to)) {
        if has_points(&part_of(area, &shift.from)) {
            return Ok(());
        }
        return count_more(mark_list, count);
    }
    count_less(count, area, &shift.from);
    Ok(())
}

/// Counts the new box in place of the old one in each strip of the range.
fn shift_run(
    mark_lists: &mut Vec<StripMarks>,
    counts: &mut Vec<usize>,
    strips: &WidenedStrips<'_>,
    near: &StripRange,
    shift: &BoxChange,
) -> Result<(), AllocError>
    requires counted { HaveRoomForCounts (all_widened strips.now) mark_lists.old.items counts.old.items }
    requires within { near.now.end ≤ length mark_lists.old.items }
    ensures kept { KeepMarksOf mark_lists.old.items mark_lists.new.items }
    ensures shifted { OnOk result (AreChanged (IsOneOf near.now) (IsShiftedAt (all_widened strips.now) shift.now)
        counts.old.items counts.new.items) }
    ensures room { OnOk result (KeepsCapacities counts.new.items (capacities_in mark_lists.new.items)) }
{
    for n in near.start..near.end {
        let area = widened_area(strips, n);
        count_shift(&mut mark_lists[n], &mut counts[n], &area, shift)?;
    }
    Ok(())
}

/// Counts the new box in place of the old one in the strips of the team. Each strip is visited
/// once, because most cells stay in their strips.
pub(crate) fn shift_rows(
    mark_lists: &mut Vec<StripMarks>,
    counts: &mut Vec<usize>,
    strips: &WidenedStrips<'_>,
    team: usize,
    shift: &BoxChange,
) -> Result<(), AllocError>
    requires { HaveRoomForCounts (all_widened strips.now) mark_lists.old.items counts.old.items }
    ensures kept { KeepMarksOf mark_lists.old.items mark_lists.new.items }
    ensures shifted { OnOk result
        (AreShifted (all_widened strips.now) team shift.now counts.old.items counts.new.items) }
    ensures room { OnOk result (KeepsCapacities counts.new.items (capacities_in mark_lists.new.items)) }
{
    strips.index.strips_are_placed();
    let hull = hull_of(shift);
    let rows = distinct_rows(strips, &hull);
    for entry in rows.rows {
        let near = widened_strips(strips, entry.row, team, &hull);
        shift_run(mark_lists, counts, strips, &near, shift)?;
    }
    Ok(())
}
