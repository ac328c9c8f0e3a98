//! Changes the marks of strips. All strips here are widened.

ghost use Rattle.std.specs.Prelude.{IfSome, List, Option, ◌≡◌, ◌≤◌, None, OnErr, OnOk, Some, length};
ghost use Rattle.lf_units.specs.declared.geometry.Rect.{Rect};
ghost use Rattle.lf_occupancy.specs.Reserving.{AreReservedAndMarked, CanTakeInRun, IsOneOf};
ghost use Rattle.lf_occupancy.specs.Strips.{AreChanged, KeepMarksOf, ShowAllBoxes, CanTakeInRow, CanTakeInRows, HaveRoom, HaveRoomForAll};
ghost use Rattle.lf_occupancy.specs.Strips.{HasBoxOrNone, HasNoBox, HasRisingMarks, IsReached, PutsIn};
ghost use Rattle.lf_occupancy.specs.Strips.{IsReachedIn, OverlapsStrip, PruneInRow, PruneInRows, PutInRow, PutInRows, HasOneMark, HasOneMarkInRow};
ghost use Rattle.lf_occupancy.specs.Strips.{HasOneMarkInRows, boxes_set, capacities_in};
ghost use Rattle.lf_occupancy.specs.Widened.{all_widened};

use crate::boxes::CellBox;
use crate::strip_marks::{StripMarks, put_in, reserve_marks, unmark};
use crate::widened::{DistinctRows, WidenedStrips, distinct_rows, widened_area, widened_strips};
use lf_cells::CellId;
use lf_segments::{RowEntry, StripRange};
use lf_units::Rect;
use std::alloc::AllocError;

/// The greatest number of rows in which a cell is marked by a recursive call for each row.
const FEW: usize = 16;

/// Makes room for `more` marks in each strip of the row and the cell's team that the rectangle
/// reaches. Also on `Err`, each strip keeps its marks.
fn make_room_in_row(
    mark_lists: &mut Vec<StripMarks>,
    strips: &WidenedStrips<'_>,
    row: usize,
    id: &CellId,
    rect: &Rect,
    more: usize,
) -> Result<(), AllocError>
    requires { length mark_lists.old.items ≡ length (all_widened strips.now) }
    ensures kept { KeepMarksOf mark_lists.old.items mark_lists.new.items }
    ensures ok { OnOk result
        (HaveRoom (IsReachedIn (all_widened strips.now) row id.now.team rect.now) more mark_lists.new.items) }
{
    let near = widened_strips(strips, row, id.team as usize, rect);
    for n in near.start..near.end {
        reserve_marks(&mut mark_lists[n], more)?;
    }
    Ok(())
}

/// Makes room as `make_room_in_row` does, in all these rows.
fn make_room_in_rows(
    mark_lists: &mut Vec<StripMarks>,
    strips: &WidenedStrips<'_>,
    rows: &[RowEntry],
    id: &CellId,
    rect: &Rect,
    more: usize,
) -> Result<(), AllocError>
    requires { length mark_lists.old.items ≡ length (all_widened strips.now) }
    ensures kept { KeepMarksOf mark_lists.old.items mark_lists.new.items }
    ensures ok { OnOk result
        (HaveRoom (IsReached (all_widened strips.now) rows.now id.now.team rect.now) more mark_lists.new.items) }
{
    for entry in rows {
        make_room_in_row(mark_lists, strips, entry.row, id, rect, more)?;
    }
    Ok(())
}

/// Removes the cell's marks from the strips of the row and the cell's team that its box reaches.
fn prune_row(
    mark_lists: &mut Vec<StripMarks>,
    strips: &WidenedStrips<'_>,
    row: usize,
    id: &CellId,
    rect: &Rect,
)
    requires { HasOneMarkInRow (all_widened strips.now) row id.now rect.now mark_lists.old.items }
    ensures { PruneInRow (all_widened strips.now) row id.now rect.now mark_lists.old.items mark_lists.new.items }
{
    let near = widened_strips(strips, row, id.team as usize, rect);
    for n in near.start..near.end {
        unmark(
            &mut mark_lists[n],
            id.own,
            &widened_area(strips, n).x1.max(rect.x1),
        );
    }
}

/// Removes the cell's marks as `prune_row` does, in all these rows.
fn prune_rows(
    mark_lists: &mut Vec<StripMarks>,
    strips: &WidenedStrips<'_>,
    rows: &DistinctRows<'_>,
    id: &CellId,
    rect: &Rect,
)
    requires { HasOneMarkInRows (all_widened strips.now) rows.now.rows.now id.now rect.now mark_lists.old.items }
    ensures { PruneInRows (all_widened strips.now) rows.now.rows.now id.now rect.now mark_lists.old.items
        mark_lists.new.items }
{
    for entry in rows.rows {
        prune_row(mark_lists, strips, entry.row, id, rect);
    }
}

/// Marks the parts of the cell's box in each strip of the range.
fn put_in_run(
    mark_lists: &mut Vec<StripMarks>,
    strips: &WidenedStrips<'_>,
    near: &StripRange,
    cell: &CellBox<'_>,
)
    requires { CanTakeInRun (all_widened strips.now) near.now cell.now.rect.now mark_lists.old.items }
    ensures { AreChanged (IsOneOf near.now) (PutsIn (all_widened strips.now) cell.now.id.now.own cell.now.rect.now)
        mark_lists.old.items mark_lists.new.items }
{
    for n in near.start..near.end {
        put_in(&mut mark_lists[n], &widened_area(strips, n), cell);
    }
}

/// Marks the parts of the cell's box in the strips of a row and the cell's team that it reaches.
fn put_in_row(
    mark_lists: &mut Vec<StripMarks>,
    strips: &WidenedStrips<'_>,
    row: usize,
    cell: &CellBox<'_>,
)
    requires { CanTakeInRow (all_widened strips.now) row cell.now.id.now cell.now.rect.now mark_lists.old.items }
    ensures { PutInRow (all_widened strips.now) row cell.now.id.now cell.now.rect.now mark_lists.old.items
        mark_lists.new.items }
{
    let near = widened_strips(strips, row, cell.id.team as usize, cell.rect);
    put_in_run(mark_lists, strips, &near, cell);
}

/// Marks the parts of the cell's box in the strips of all these rows.
fn put_in_rows(
    mark_lists: &mut Vec<StripMarks>,
    strips: &WidenedStrips<'_>,
    rows: &DistinctRows<'_>,
    cell: &CellBox<'_>,
)
    requires { CanTakeInRows (all_widened strips.now) rows.now.rows.now cell.now.id.now cell.now.rect.now
        mark_lists.old.items }
    ensures { PutInRows (all_widened strips.now) rows.now.rows.now cell.now.id.now cell.now.rect.now
        mark_lists.old.items mark_lists.new.items }
{
    for entry in rows.rows {
        put_in_row(mark_lists, strips, entry.row, cell);
    }
}

/// Removes the marks of a cell with this box from all strips that the box reaches. A cell without a
/// box has no marks to remove. Each strip keeps its capacity.
pub(crate) fn take_out(
    mark_lists: &mut Vec<StripMarks>,
    strips: &WidenedStrips<'_>,
    id: &CellId,
    rect: &Rect,
)
    requires { HasOneMark (all_widened strips.now) id.now rect.now mark_lists.old.items }
    ensures mark_lists { (boxes : List (List (Option Rect))) → HasBoxOrNone boxes id.now rect.now
        → ShowAllBoxes (all_widened strips.now) boxes mark_lists.old.items
        → ShowAllBoxes (all_widened strips.now) (boxes_set boxes id.now None) mark_lists.new.items }
    ensures rooms { capacities_in mark_lists.new.items ≡ capacities_in mark_lists.old.items }
{
    strips.index.strips_are_placed();
    let rows = distinct_rows(strips, rect);
    prune_rows(mark_lists, strips, &rows, id, rect);
}

/// Marks this box for a cell that has no box. Does not allocate.
pub(crate) fn take_in(
    mark_lists: &mut Vec<StripMarks>,
    strips: &WidenedStrips<'_>,
    cell: &CellBox<'_>,
)
    requires marks { HasRisingMarks (all_widened strips.now) mark_lists.old.items }
    requires room { HaveRoom (OverlapsStrip (all_widened strips.now) cell.now.id.now.team cell.now.rect.now) 1
        mark_lists.old.items }
    ensures mark_lists { (boxes : List (List (Option Rect))) → HasNoBox boxes cell.now.id.now
        → ShowAllBoxes (all_widened strips.now) boxes mark_lists.old.items
        → ShowAllBoxes (all_widened strips.now)
        (boxes_set boxes cell.now.id.now (Some cell.now.rect.now)) mark_lists.new.items }
    ensures rooms { capacities_in mark_lists.new.items ≡ capacities_in mark_lists.old.items }
{
    strips.index.strips_are_placed();
    let rows = distinct_rows(strips, cell.rect);
    put_in_rows(mark_lists, strips, &rows, cell);
}

/// Makes room for `more` marks in each strip of the cell's team that shares a point with its box,
/// if it has one. Also on `Err`, each strip keeps its marks.
fn reserve_box(
    mark_lists: &mut Vec<StripMarks>,
    strips: &WidenedStrips<'_>,
    id: &CellId,
    to: &Option<Rect>,
    more: usize,
) -> Result<(), AllocError>
    requires { length mark_lists.old.items ≡ length (all_widened strips.now) }
    ensures kept { KeepMarksOf mark_lists.old.items mark_lists.new.items }
    ensures ok { OnOk result (IfSome to.now
        (λ rect. HaveRoom (OverlapsStrip (all_widened strips.now) id.now.team rect) more mark_lists.new.items)) }
{
    strips.index.strips_are_placed();
    if let Some(rect) = to {
        make_room_in_rows(
            mark_lists,
            strips,
            strips.index.rows_near(rect),
            id,
            rect,
            more,
        )?;
    }
    Ok(())
}

/// Makes room for the box of each move, for as many marks as there are moves. Also on `Err`, each
/// strip keeps its marks.
pub(crate) fn reserve_moves(
    mark_lists: &mut Vec<StripMarks>,
    strips: &WidenedStrips<'_>,
    moves: &[(CellId, Option<Rect>)],
) -> Result<(), AllocError>
    requires { length mark_lists.old.items ≡ length (all_widened strips.now) }
    ensures kept { KeepMarksOf mark_lists.old.items mark_lists.new.items }
    ensures ok { OnOk result
        (HaveRoomForAll (all_widened strips.now) moves.now (length moves.now) mark_lists.new.items) }
{
    for (id, to) in moves {
        reserve_box(mark_lists, strips, id, to, moves.len())?;
    }
    Ok(())
}

/// Makes room for one more mark in each strip of the range. Also on `Err`, each strip keeps its
/// marks.
fn make_room_in_run(mark_lists: &mut Vec<StripMarks>, near: &StripRange) -> Result<(), AllocError>
    requires within { near.now.end ≤ length mark_lists.old.items }
    ensures kept { KeepMarksOf mark_lists.old.items mark_lists.new.items }
    ensures ok { OnOk result (HaveRoom (IsOneOf near.now) 1 mark_lists.new.items) }
{
    for n in near.start..near.end {
        reserve_marks(&mut mark_lists[n], 1)?;
    }
    Ok(())
}

/// Makes room for the cell's box in a few rows, then marks its parts in the strips of the cell's
/// team. Each row's strips are searched once. Room is made from the last row to the first, and
/// marks are added from the first to the last. On `Err` each strip keeps its marks.
fn settle_in_few(
    mark_lists: &mut Vec<StripMarks>,
    strips: &WidenedStrips<'_>,
    rows: &DistinctRows<'_>,
    cell: &CellBox<'_>,
) -> Result<(), AllocError>
    requires { HasRisingMarks (all_widened strips.now) mark_lists.old.items }
    ensures ok { OnOk result (AreReservedAndMarked (all_widened strips.now) cell.now.id.now.own cell.now.rect.now
        (IsReached (all_widened strips.now) rows.now.rows.now cell.now.id.now.team cell.now.rect.now)
        mark_lists.old.items mark_lists.new.items) }
    ensures err { OnErr result (KeepMarksOf mark_lists.old.items mark_lists.new.items) }
{
    if rows.rows.len() == 0 {
        return Ok(());
    }
    let last = rows.rows.len() - 1;
    let near = widened_strips(
        strips,
        rows.rows[last].row,
        cell.id.team as usize,
        cell.rect,
    );
    make_room_in_run(mark_lists, &near)?;
    let others = DistinctRows {
        rows: &rows.rows[..last],
    };
    settle_in_few(mark_lists, strips, &others, cell)?;
    put_in_run(mark_lists, strips, &near, cell);
    Ok(())
}

/// Makes room and marks the cell's box as `settle_in_few` does, in any number of rows.
fn settle_in_rows(
    mark_lists: &mut Vec<StripMarks>,
    strips: &WidenedStrips<'_>,
    rows: &DistinctRows<'_>,
    cell: &CellBox<'_>,
) -> Result<(), AllocError>
    requires { HasRisingMarks (all_widened strips.now) mark_lists.old.items }
    ensures ok { OnOk result (AreReservedAndMarked (all_widened strips.now) cell.now.id.now.own cell.now.rect.now
        (IsReached (all_widened strips.now) rows.now.rows.now cell.now.id.now.team cell.now.rect.now)
        mark_lists.old.items mark_lists.new.items) }
    ensures err { OnErr result (KeepMarksOf mark_lists.old.items mark_lists.new.items) }
{
    if rows.rows.len() <= FEW {
        return settle_in_few(mark_lists, strips, rows, cell);
    }
    make_room_in_rows(mark_lists, strips, rows.rows, cell.id, cell.rect, 1)?;
    put_in_rows(mark_lists, strips, rows, cell);
    Ok(())
}

/// Makes room for this box of a cell that has no box, then marks it. On `Err` each strip keeps its
/// marks.
pub(crate) fn reserve_and_mark(
    mark_lists: &mut Vec<StripMarks>,
    strips: &WidenedStrips<'_>,
    cell: &CellBox<'_>,
) -> Result<(), AllocError>
    requires { HasRisingMarks (all_widened strips.now) mark_lists.old.items }
    ensures ok { (boxes : List (List (Option Rect))) → HasNoBox boxes cell.now.id.now
        → ShowAllBoxes (all_widened strips.now) boxes mark_lists.old.items
        → OnOk result (ShowAllBoxes (all_widened strips.now)
        (boxes_set boxes cell.now.id.now (Some cell.now.rect.now)) mark_lists.new.items) }
    ensures err { OnErr result (KeepMarksOf mark_lists.old.items mark_lists.new.items) }
{
    strips.index.strips_are_placed();
    let rows = distinct_rows(strips, cell.rect);
    settle_in_rows(mark_lists, strips, &rows, cell)
}
