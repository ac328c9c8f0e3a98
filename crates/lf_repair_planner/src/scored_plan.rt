//! One attempt at a plan: the cells in one order, passes that improve it, and its cost.

ghost use Rattle.std.specs.Prelude.{◌≡◌, IfOk, length, vec_len};
ghost use Rattle.lf_repair_planner.specs.Plans.{IsPlan};

use crate::cost_curve::CostCurve;
use crate::passes::{PlanCost, PlannerInput, cost_of_plan, long_displacement, pass, place_all};
use crate::plan::{PlanOptions, PlannedSite, spots_of};
use crate::plan_state::PlanState;
use crate::search_limits::SearchLimits;
use crate::swaps::swap_cells;
use std::alloc::{AllocError, Global};

/// A plan and its cost.
#[derive(Drop)]
pub(crate) struct ScoredPlan {
    pub(crate) planned: Vec<Option<PlannedSite>>,
    pub(crate) worth: PlanCost,
}

/// The limits of the first searches, for rows of this height.
pub(crate) fn initial_limits(height: u32) -> SearchLimits {
    SearchLimits {
        gaps: 1,
        most: 10,
        near: 2 * height as i64,
        weight: 3,
        reach: i64::MAX,
    }
}

/// Makes passes over all cells, and rounds over those with the longest displacements. Then it lets
/// cells exchange their places.
fn improve(
    alloc: Global,
    input: &PlannerInput,
    order: &[u32],
    options: &PlanOptions,
    board: &mut PlanState,
) -> Result<(), AllocError> {
    let mut curve = CostCurve::new(alloc);
    let limits = initial_limits(input.height);
    for _ in 0..options.passes {
        pass(input, order, 0, &limits, board, &mut curve)?;
    }
    let long = long_displacement(alloc, input, board, 8)?;
    let last = SearchLimits {
        gaps: 12,
        most: 160,
        near: long,
        weight: 10,
        reach: i64::MAX,
    };
    for _ in 0..options.rounds {
        pass(input, order, long, &last, board, &mut curve)?;
    }
    swap_cells(input, order, &last, board);
    Ok(())
}

/// The state after all cells are placed in turn and their places improved.
fn placed_state(
    alloc: Global,
    input: &PlannerInput,
    order: &[u32],
    options: &PlanOptions,
) -> Result<PlanState, AllocError> {
    let mut curve = CostCurve::new(alloc);
    let mut board = PlanState::new(alloc, input.free_rows, input.cells.len())?;
    place_all(
        input,
        order,
        &initial_limits(input.height),
        &mut board,
        &mut curve,
    )?;
    improve(alloc, input, order, options, &mut board)?;
    Ok(board)
}

/// The plan by this order of the cells.
pub(crate) fn try_order(
    alloc: Global,
    input: &PlannerInput,
    order: &[u32],
    options: &PlanOptions,
) -> Result<ScoredPlan, AllocError>
    ensures plan { IfOk result (λ tried. IsPlan input.now.free_rows.now.spans.items input.now.cells.now tried.planned.items) }
    ensures count { IfOk result (λ tried. vec_len tried.planned ≡ length input.now.cells.now) }
{
    let board = placed_state(alloc, input, order, options)?;
    let worth = cost_of_plan(input, &board);
    let planned = spots_of(input, board)?;
    Ok(ScoredPlan { planned, worth })
}
