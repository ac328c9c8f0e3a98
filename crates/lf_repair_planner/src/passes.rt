//! Places all cells, and improves their places in passes.

use crate::cost_curve::CostCurve;
use crate::free_rows::{FreeRows, FreeSpan, PlannerRow};
use crate::packed_cell::PackedCell;
use crate::packed_span::PackedSpan;
use crate::plan::PlannerCell;
use crate::plan_state::{Gap, PlanState};
use crate::search::{Best, Search, best_gap};
use crate::search_limits::{SearchLimits, apart, cost_of, number_of};
use std::alloc::{AllocError, Global};

/// The input that all steps read.
#[derive(Clone, Copy)]
pub(crate) struct PlannerInput<'a> {
    pub(crate) free_rows: &'a FreeRows,
    /// The position of the row of each span.
    pub(crate) rows: &'a [u32],
    pub(crate) cells: &'a [PlannerCell],
    pub(crate) height: u32,
}

/// The position of the row of each span: the last row whose spans begin at the span's position or
/// in front of it.
pub(crate) fn rows_of_spans(alloc: Global, free_rows: &FreeRows) -> Result<Vec<u32>, AllocError> {
    let mut rows = Vec::with_capacity(alloc, free_rows.spans.len())?;
    for span in 0..free_rows.spans.len() {
        let after = free_rows.rows.partition_point(|row| row.first <= span);
        rows.push(number_of(after.saturating_sub(1)))?;
    }
    Ok(rows)
}

impl<'a> PlannerInput<'a> {
    /// The row of the span at this position.
    pub(crate) fn row_of(&self, span: usize) -> Option<PlannerRow> {
        let row = *self.rows.get(span)?;
        Some(*self.free_rows.rows.get(row as usize)?)
    }
}

/// The displacement of a cell at a site of a span whose row has this y, in database units.
pub(crate) fn displacement_at_site(cell: &PlannerCell, sites: &FreeSpan, y: i32, at: u32) -> i64 {
    let x = (sites.first as i64).saturating_add(sites.pitch().saturating_mul(at as i64));
    let dx = x.saturating_sub(cell.x as i64).saturating_abs();
    dx.saturating_add(apart(y, cell.y))
}

/// The displacement of a cell in a gap, in database units.
pub(crate) fn displacement_at(input: &PlannerInput, cell: &PlannerCell, gap: &Gap) -> i64 {
    let (Some(sites), Some(row)) = (input.free_rows.spans.get(gap.span), input.row_of(gap.span))
    else {
        return i64::MAX;
    };
    displacement_at_site(cell, sites, row.y, gap.cell.at)
}

/// The best gap. If it costs more than one and a half rows, the best gap with more cells pushed.
fn find_gap(
    search: &Search,
    limit: i64,
    height: u32,
    curve: &mut CostCurve,
) -> Result<Best, AllocError> {
    let best = best_gap(search, limit, curve)?;
    let far = (height as i64) * 3 / 2;
    if best.cost <= far || search.limits.most == 160 {
        return Ok(best);
    }
    let limits = SearchLimits {
        most: 80,
        ..*search.limits
    };
    let wider = Search {
        limits: &limits,
        ..*search
    };
    let second = best_gap(&wider, best.cost, curve)?;
    if second.gap.is_some() {
        return Ok(second);
    }
    Ok(best)
}

/// The cost of a cell's nearest place in these segments, which have no cells. 0 if there is no such
/// place.
pub(crate) fn nearest_alone(
    input: &PlannerInput,
    segments: &[PackedSpan],
    number: u32,
    cell: &PlannerCell,
    limits: &SearchLimits,
    curve: &mut CostCurve,
) -> Result<i64, AllocError> {
    let search = Search {
        free_rows: input.free_rows,
        segments,
        number,
        planner_cell: cell,
        limits,
        height: input.height,
        exact: false,
    };
    let best = best_gap(&search, i64::MAX, curve)?;
    Ok(if best.gap.is_some() { best.cost } else { 0 })
}

/// Places one cell after the other where the total displacement grows least.
pub(crate) fn place_all(
    input: &PlannerInput,
    order: &[u32],
    limits: &SearchLimits,
    board: &mut PlanState,
    curve: &mut CostCurve,
) -> Result<(), AllocError> {
    for number in order {
        let Some(planner_cell) = input.cells.get(*number as usize) else {
            continue;
        };
        let search = Search {
            free_rows: input.free_rows,
            segments: board.segments.as_slice(),
            number: *number,
            planner_cell,
            limits,
            height: input.height,
            exact: false,
        };
        let best = find_gap(&search, i64::MAX, input.height, curve)?;
        if let Some(gap) = best.gap {
            board.put(&gap)?;
        }
    }
    Ok(())
}

/// Removes a cell from its old place, if it has one, and inserts it where that costs less than
/// `limit`. If no gap costs less, it is inserted at its old place.
fn place_again(
    search: &LimitedSearch,
    old: Option<Gap>,
    input: &PlannerInput,
    board: &mut PlanState,
    curve: &mut CostCurve,
) -> Result<(), AllocError> {
    if let Some(gap) = &old {
        board.take(gap);
    }
    let open = Search {
        free_rows: input.free_rows,
        segments: board.segments.as_slice(),
        number: search.number,
        planner_cell: search.planner_cell,
        limits: search.limits,
        height: input.height,
        exact: false,
    };
    let best = find_gap(&open, search.limit, input.height, curve)?;
    if let Some(gap) = best.gap {
        return board.put(&gap);
    }
    if let Some(gap) = old {
        return board.put(&gap);
    }
    Ok(())
}

/// A cell to place again, and the cost that its new place must be below.
#[derive(Clone, Copy)]
struct LimitedSearch<'a> {
    number: u32,
    planner_cell: &'a PlannerCell,
    limits: &'a SearchLimits,
    limit: i64,
}

/// Places each cell again that has no place or a longer displacement than `longer`, in this order.
pub(crate) fn pass(
    input: &PlannerInput,
    order: &[u32],
    longer: i64,
    limits: &SearchLimits,
    board: &mut PlanState,
    curve: &mut CostCurve,
) -> Result<(), AllocError> {
    for number in order {
        let Some(planner_cell) = input.cells.get(*number as usize) else {
            continue;
        };
        let old = board.place_of(*number);
        let displacement = match &old {
            Some(gap) => displacement_at(input, planner_cell, gap),
            None => i64::MAX,
        };
        if old.is_some() && displacement <= longer {
            continue;
        }
        let search = LimitedSearch {
            number: *number,
            planner_cell,
            limits,
            limit: cost_of(displacement, limits),
        };
        place_again(&search, old, input, board, curve)?;
    }
    Ok(())
}

/// Appends the displacements of the cells of a span whose row has this y.
fn push_displacements(
    input: &PlannerInput,
    sites: &FreeSpan,
    y: i32,
    cells: &[PackedCell],
    displacements: &mut Vec<i64>,
) -> Result<(), AllocError> {
    for cell in cells {
        if let Some(planner_cell) = input.cells.get(cell.number as usize) {
            displacements.push(displacement_at_site(planner_cell, sites, y, cell.at))?;
        }
    }
    Ok(())
}

/// The displacements of the placed cells, span by span.
fn all_displacements(
    alloc: Global,
    input: &PlannerInput,
    board: &PlanState,
) -> Result<Vec<i64>, AllocError> {
    let mut displacements = Vec::with_capacity(alloc, input.cells.len())?;
    for (span, segment) in board.segments.iter().enumerate() {
        if let (Some(sites), Some(row)) = (input.free_rows.spans.get(span), input.row_of(span)) {
            push_displacements(input, sites, row.y, segment.as_slice(), &mut displacements)?;
        }
    }
    Ok(displacements)
}

/// The displacement that only the longest exceed: a thousandth of all, or `fewest` if that is more,
/// but at most an eighth of all.
pub(crate) fn long_displacement(
    alloc: Global,
    input: &PlannerInput,
    board: &PlanState,
    fewest: usize,
) -> Result<i64, AllocError> {
    let mut ways = all_displacements(alloc, input, board)?;
    ways.sort_unstable();
    let last = ways.len().saturating_sub(1);
    let longest = (last / 1000).max(fewest).min(last / 8);
    let place = last.saturating_sub(longest);
    match ways.get(place) {
        Some(way) => Ok(*way),
        None => Ok(0),
    }
}

/// The cost of a plan. The less, the better; fields are compared in their order.
#[derive(Clone, Copy, PartialEq, Eq, PartialOrd, Ord)]
pub(crate) struct PlanCost {
    /// The number of cells without a place.
    pub(crate) left: u64,
    /// The longest displacement, and the sum of all.
    pub(crate) longest: i64,
    pub(crate) sum: i64,
}

/// Counts the cells of a span whose row has this y as placed.
fn add_cells(
    input: &PlannerInput,
    sites: &FreeSpan,
    y: i32,
    cells: &[PackedCell],
    worth: &mut PlanCost,
) {
    for cell in cells {
        if let Some(planner_cell) = input.cells.get(cell.number as usize) {
            let way = displacement_at_site(planner_cell, sites, y, cell.at);
            worth.left = worth.left.saturating_sub(1);
            worth.longest = worth.longest.max(way);
            worth.sum = worth.sum.saturating_add(way);
        }
    }
}

/// The cost of the current places.
pub(crate) fn cost_of_plan(input: &PlannerInput, board: &PlanState) -> PlanCost {
    let mut worth = PlanCost {
        left: input.cells.len() as u64,
        longest: 0,
        sum: 0,
    };
    for (span, segment) in board.segments.iter().enumerate() {
        if let (Some(sites), Some(row)) = (input.free_rows.spans.get(span), input.row_of(span)) {
            add_cells(input, sites, row.y, segment.as_slice(), &mut worth);
        }
    }
    worth
}
