//! A plan: a place or `None` for each cell.

ghost use Rattle.std.specs.Prelude.{◌≡◌, ◌⊎◌, ◌+◌, ◌-◌, ◌*◌, ◌<◌, ◌^◌, IfOk, IsTrue, None, Some, length, set, slice_get, vec_len};
ghost use Rattle.lf_repair_planner.specs.Plans.{IsFilledTo, IsPlan};

use crate::cost_curve::CostCurve;
use crate::free_rows::{FreeRows, RowKinds};
use crate::order::{OrderKeys, widest_first};
use crate::packed_cell::PackedCell;
use crate::packed_span::PackedSpan;
use crate::passes::{PlanCost, PlannerInput, nearest_alone, rows_of_spans};
use crate::plan_state::{PlanState, empty_segments};
use crate::scored_plan::{ScoredPlan, initial_limits, try_order};
use crate::search_limits::number_of;
use std::alloc::{AllocError, Global};

/// A cell: its target and its width, in database units, and the rows on which it may be placed. If
/// it covers several rows, this is said of the lowest one.
#[derive(Clone, Copy)]
pub struct PlannerCell {
    pub x: i32,
    pub y: i32,
    pub width: u32,
    pub kinds: RowKinds,
    /// The number of rows that it covers.
    pub rows: u32,
    /// How often its displacement counts.
    pub factor: u32,
}

/// A place of a plan: the position of a span in the list of spans, and a site of the span. That of
/// a cell of several rows is in its lowest row.
#[derive(Clone, Copy, Debug, PartialEq, Eq)]
pub struct PlannedSite {
    pub span: u32,
    pub at: u32,
}

/// The number of passes over all cells, and of rounds over those with the longest displacements.
/// `two_orders` allows a second order of the cells, which is tried if the first leaves a cell
/// without a place or moves one far.
#[derive(Clone, Copy)]
pub struct PlanOptions {
    pub passes: usize,
    pub rounds: usize,
    pub two_orders: bool,
}

/// The length of `count` sites.
fn length_of(count: u32, step: u32) -> u64
    ensures is { result ≡ count * step }
    ensures short { result < 2 ^ 64 - 2 ^ 32 }
{
    count as u64 * step as u64
}

/// Gives the cell at position `own` this site.
fn set_site(planned: &mut Vec<Option<PlannedSite>>, own: usize, planned_site: PlannedSite)
    requires { own < vec_len planned.old }
    ensures { planned.new.items ≡ set planned.old.items own (Some planned_site) }
{
    planned[own] = Some(planned_site);
}

/// Whether the cell at position `own` exists and has no site.
fn is_open(planned: &[Option<PlannedSite>], own: usize) -> bool
    ensures is { IsTrue result → slice_get planned.now own ≡ Some None }
    ensures within { IsTrue result → own < length planned.now }
{
    match planned.get(own) {
        Some(planned_site) => planned_site.is_none(),
        None => false,
    }
}

/// Records the site of a cell of a span, which is right of the previous ones, and returns its end.
/// A cell is skipped if it is not one of the plan, overlaps another, or reaches past the span's
/// end, and if the span's position has more than 32 bits.
fn note_cell(
    planned: &mut Vec<Option<PlannedSite>>,
    input: &PlannerInput,
    span: usize,
    cell: &PackedCell,
    free: u64,
) -> u64
    requires { IsFilledTo input.now.free_rows.now.spans.items input.now.cells.now span free planned.old.items }
    ensures filled { IsFilledTo input.now.free_rows.now.spans.items input.now.cells.now span result planned.new.items }
    ensures count { vec_len planned.new ≡ vec_len planned.old }
{
    let own = cell.number as usize;
    let (Some(sites), Some(planner_cell)) = (input.free_rows.spans.get(span), input.cells.get(own))
    else {
        return free;
    };
    let start = length_of(cell.at, sites.step);
    let end = start + planner_cell.width as u64;
    if start < free || length_of(sites.count, sites.step) < end || !is_open(planned, own) {
        return free;
    }
    let Ok(span) = u32::try_from(span) else {
        return free;
    };
    set_site(planned, own, PlannedSite { span, at: cell.at });
    end
}

/// Records the sites of the cells of a span.
fn note_span(
    planned: &mut Vec<Option<PlannedSite>>,
    input: &PlannerInput,
    span: usize,
    cells: &[PackedCell],
)
    requires { IsFilledTo input.now.free_rows.now.spans.items input.now.cells.now span 0 planned.old.items }
    ensures filled { IsFilledTo input.now.free_rows.now.spans.items input.now.cells.now (span + 1) 0 planned.new.items }
    ensures count { vec_len planned.new ≡ vec_len planned.old }
{
    let mut free = 0;
    for cell in cells {
        free = note_cell(planned, input, span, cell, free);
    }
}

/// Records the sites of the cells of all spans.
fn note_spans(planned: &mut Vec<Option<PlannedSite>>, input: &PlannerInput, segments: &[PackedSpan])
    requires { IsFilledTo input.now.free_rows.now.spans.items input.now.cells.now 0 0 planned.old.items }
    ensures plan { IsPlan input.now.free_rows.now.spans.items input.now.cells.now planned.new.items }
    ensures count { vec_len planned.new ≡ vec_len planned.old }
{
    for (span, segment) in segments.iter().enumerate() {
        note_span(planned, input, span, segment.as_slice());
    }
}

/// The site of each cell. The list of the state's sites is used again.
pub(crate) fn spots_of(
    input: &PlannerInput,
    board: PlanState,
) -> Result<Vec<Option<PlannedSite>>, AllocError>
    ensures plan { IfOk result (λ planned_sites. IsPlan input.now.free_rows.now.spans.items input.now.cells.now planned_sites.items) }
    ensures count { IfOk result (λ planned_sites. vec_len planned_sites ≡ length input.now.cells.now) }
{
    let PlanState {
        segments,
        planned: mut planned_sites,
    } = board;
    planned_sites.clear();
    planned_sites.resize(input.cells.len(), None)?;
    note_spans(&mut planned_sites, input, segments.as_slice());
    Ok(planned_sites)
}

/// The least distance of two consecutive rows. 1 if there are no two rows.
fn row_height(free_rows: &FreeRows) -> u32 {
    let mut height = u32::MAX;
    let mut last = None;
    for row in &free_rows.rows {
        if let Some(y) = last {
            let step = row.y.abs_diff(y);
            if 0 < step {
                height = height.min(step);
            }
        }
        last = Some(row.y);
    }
    if height == u32::MAX { 1 } else { height }
}

/// The first order of the cells: those that are far from any place come first.
fn first_order(alloc: Global, input: &PlannerInput) -> Result<Vec<u32>, AllocError> {
    let segments = empty_segments(alloc, input.free_rows)?;
    let limits = initial_limits(input.height);
    let mut curve = CostCurve::new(alloc);
    let mut keys = OrderKeys::with_capacity(alloc, input)?;
    for (number, planner_cell) in input.cells.iter().enumerate() {
        let number = number_of(number);
        let away = nearest_alone(
            input,
            segments.as_slice(),
            number,
            planner_cell,
            &limits,
            &mut curve,
        )?;
        keys.push(number, planner_cell, away)?;
    }
    drop(segments);
    keys.into_order(alloc)
}

/// A plan moves a cell far if its displacement is more than this number of rows.
const FAR: i64 = 8;

/// Whether a plan leaves a cell without a site, or moves one far.
fn goes_far(worth: &PlanCost, height: u32) -> bool {
    0 < worth.left || FAR * (height as i64) < worth.longest
}

/// The sites of the better of two plans; of the first if their costs are equal.
fn better(first: ScoredPlan, second: ScoredPlan) -> Vec<Option<PlannedSite>>
    ensures { (result ≡ first.planned) ⊎ (result ≡ second.planned) }
{
    if second.worth < first.worth {
        second.planned
    } else {
        first.planned
    }
}

/// Plans a place for each cell: all in turn, then passes, then rounds over the cells with the
/// longest displacements, then exchanges of two cells. That may leave a cell without a place or
/// move one far. Then, if `two_orders` is set, it plans again with the widest cells first, and
/// returns the better plan. A cell without a site found no room. Each cell that has one lies within
/// its span there, and two cells of one span lie apart. `Err` if an allocation fails.
pub fn plan_cells(
    alloc: Global,
    free_rows: &FreeRows,
    cells: &[PlannerCell],
    options: &PlanOptions,
) -> Result<Vec<Option<PlannedSite>>, AllocError>
    ensures plan { IfOk result (λ planned_sites. IsPlan free_rows.now.spans.items cells.now planned_sites.items) }
    ensures count { IfOk result (λ planned_sites. vec_len planned_sites ≡ length cells.now) }
{
    let height = row_height(free_rows);
    let rows = rows_of_spans(alloc, free_rows)?;
    let input = PlannerInput {
        free_rows,
        rows: rows.as_slice(),
        cells,
        height,
    };
    let order = first_order(alloc, &input)?;
    let first = try_order(alloc, &input, order.as_slice(), options)?;
    if !options.two_orders || !goes_far(&first.worth, height) {
        return Ok(first.planned);
    }
    let order = widest_first(alloc, cells)?;
    let second = try_order(alloc, &input, order.as_slice(), options)?;
    Ok(better(first, second))
}
