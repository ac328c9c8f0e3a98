//! Exchanges the places of two cells of equal width if that lowers the cost of their displacements.

ghost use Rattle.std.specs.Prelude.{◌≡◌};

use crate::free_rows::{FreeSpan, PlannerRow};
use crate::packed_cell::PackedCell;
use crate::packed_span::PackedSpan;
use crate::passes::{PlannerInput, displacement_at_site};
use crate::plan::{PlannedSite, PlannerCell};
use crate::plan_state::PlanState;
use crate::search::{clipped, site_at};
use crate::search_limits::{SearchLimits, cost_of, number_of};

/// The greatest distance of the other cell from a cell's target along the row, in sites.
const REACH: i64 = 16;

/// A span, with its position in the list of spans, and its row.
#[derive(Clone, Copy)]
struct SpanOfRow {
    span: usize,
    sites: FreeSpan,
    row: PlannerRow,
}

/// A cell at its place: its position among the cells of its span, and its displacement.
#[derive(Clone, Copy)]
struct PlacedCell {
    planner_cell: PlannerCell,
    along: SpanOfRow,
    position: usize,
    cell: PackedCell,
    displacement: i64,
}

/// The best exchange so far: the other cell, and by how much the cost is lowered.
#[derive(Clone, Copy)]
struct Exchange {
    gain: i64,
    other: Option<PlacedCell>,
}

/// The displacement of a cell with this target at a site of a span.
fn displacement_along(cell: &PlannerCell, along: &SpanOfRow, at: u32) -> i64 {
    displacement_at_site(cell, &along.sites, along.row.y, at)
}

/// The cell of a span at this position, with its target.
fn placed_at(
    planner_cell: &PlannerCell,
    along: &SpanOfRow,
    position: usize,
    cell: &PackedCell,
) -> PlacedCell {
    PlacedCell {
        planner_cell: *planner_cell,
        along: *along,
        position,
        cell: *cell,
        displacement: displacement_along(planner_cell, along, cell.at),
    }
}

/// The span at this position, and the row that contains it.
fn span_of_row(input: &PlannerInput, span: usize) -> Option<SpanOfRow> {
    Some(SpanOfRow {
        span,
        sites: *input.free_rows.spans.get(span)?,
        row: input.row_of(span)?,
    })
}

/// The cell with this number at its place. `None` if it has no place.
fn placed_cell(input: &PlannerInput, board: &PlanState, number: u32) -> Option<PlacedCell> {
    let place = board.place_of(number)?;
    let planner_cell = input.cells.get(number as usize)?;
    let along = span_of_row(input, place.span)?;
    Some(placed_at(planner_cell, &along, place.gap, &place.cell))
}

/// Whether two cells may exchange their places: they differ, are equally wide, and may be placed on
/// the rows of each other.
fn may_exchange(one: &PlacedCell, other: &PlacedCell) -> bool {
    one.cell.number != other.cell.number
        && one.planner_cell.width == other.planner_cell.width
        && one.planner_cell.kinds.has(other.along.row.kind)
        && other.planner_cell.kinds.has(one.along.row.kind)
}

/// By how much an exchange of two cells lowers their cost. 0 if the longer displacement would grow
/// beyond `how.near`.
fn gain_of(one: &PlacedCell, other: &PlacedCell, limits: &SearchLimits) -> i64 {
    let first = displacement_along(&one.planner_cell, &other.along, other.cell.at);
    let second = displacement_along(&other.planner_cell, &one.along, one.cell.at);
    let longest = one.displacement.max(other.displacement).max(limits.near);
    if longest < first.max(second) {
        return 0;
    }
    let before = cost_of(one.displacement, limits).saturating_add(cost_of(
        other.displacement,
        limits,
    ));
    let after = cost_of(first, limits).saturating_add(cost_of(second, limits));
    before.saturating_sub(after)
}

/// Tries an exchange with this cell.
fn try_exchange(one: &PlacedCell, other: &PlacedCell, limits: &SearchLimits, best: &mut Exchange) {
    if !may_exchange(one, other) {
        return;
    }
    let gain = gain_of(one, other, limits);
    if best.gain < gain {
        *best = Exchange {
            gain,
            other: Some(*other),
        };
    }
}

/// Tries an exchange with each cell of a span that is within reach of the cell's target.
fn try_span(
    planner_cells: &[PlannerCell],
    along: &SpanOfRow,
    cells: &[PackedCell],
    one: &PlacedCell,
    limits: &SearchLimits,
    best: &mut Exchange,
) {
    let target = site_at(&along.sites, one.planner_cell.x);
    let (low, high) = (target.saturating_sub(REACH), target.saturating_add(REACH));
    let begin = cells.partition_point(|cell| (cell.at as i64) < low);
    for (away, cell) in cells[begin..].iter().enumerate() {
        if high < cell.at as i64 {
            return;
        }
        if let Some(planner_cell) = planner_cells.get(cell.number as usize) {
            let position = begin.saturating_add(away);
            try_exchange(
                one,
                &placed_at(planner_cell, along, position, cell),
                limits,
                best,
            );
        }
    }
}

/// Tries an exchange with the cells of a row near the cell's target, in the span at the target.
fn try_row(
    input: &PlannerInput,
    board: &PlanState,
    row: &PlannerRow,
    one: &PlacedCell,
    limits: &SearchLimits,
    best: &mut Exchange,
) {
    let spans = input
        .free_rows
        .spans
        .get(row.first..row.last)
        .unwrap_or(&[]);
    let after = spans.partition_point(|span| span.first <= one.planner_cell.x);
    let span = row.first.saturating_add(after.saturating_sub(1));
    let (Some(sites), Some(segment)) = (input.free_rows.spans.get(span), board.segments.get(span))
    else {
        return;
    };
    let along = SpanOfRow {
        span,
        sites: *sites,
        row: *row,
    };
    try_span(input.cells, &along, segment.as_slice(), one, limits, best);
}

/// The best exchange of a cell with one near its target, in the target's row or an adjacent one.
fn best_exchange(
    input: &PlannerInput,
    board: &PlanState,
    one: &PlacedCell,
    limits: &SearchLimits,
) -> Exchange {
    let mut best = Exchange {
        gain: 0,
        other: None,
    };
    let rows = input.free_rows.rows.as_slice();
    let above = rows.partition_point(|row| row.y < one.planner_cell.y);
    let last = above.saturating_add(2).min(rows.len());
    let near = rows.get(above.saturating_sub(1)..last).unwrap_or(&[]);
    for row in near {
        try_row(input, board, row, one, limits, &mut best);
    }
    best
}

/// Replaces the cell of a span at this position by a cell of the same width.
fn replace_in(segment: &mut PackedSpan, position: usize, number: u32, wanted: u32) {
    if segment.len() <= position {
        return;
    }
    let old = segment.as_slice()[position];
    segment.replace(
        position,
        PackedCell {
            number,
            wanted,
            ..old
        },
    );
}

/// Puts a cell at the place of another one, which is equally wide.
fn put_at_place(board: &mut PlanState, cell: &PlacedCell, place: &PlacedCell) {
    let number = cell.cell.number;
    let along = &place.along;
    let last = (along.sites.count as i64).saturating_sub(place.cell.width as i64);
    let wanted = site_at(&along.sites, cell.planner_cell.x).min(last);
    if let Some(segment) = board.segments.get_mut(along.span) {
        replace_in(segment, place.position, number, clipped(wanted));
    }
    if let Some(planned) = board.planned.get_mut(number as usize) {
        *planned = Some(PlannedSite {
            span: number_of(along.span),
            at: place.cell.at,
        });
    }
}

/// Lets each cell that is more than a site from its target exchange places with another cell if
/// that lowers their cost, in this order.
pub(crate) fn swap_cells(
    input: &PlannerInput,
    order: &[u32],
    limits: &SearchLimits,
    board: &mut PlanState,
) {
    for number in order {
        let Some(one) = placed_cell(input, board, *number) else {
            continue;
        };
        if one.displacement <= one.along.sites.pitch() {
            continue;
        }
        if let Some(other) = best_exchange(input, board, &one, limits).other {
            put_at_place(board, &one, &other);
            put_at_place(board, &other, &one);
        }
    }
}
