//! Improves a plan by ruin and recreate.
//!
//! A try takes a cell and others of a window around it out of the plan, and inserts them again in
//! another order, each where the total displacement grows least. It is kept if the cost of all
//! displacements is not greater than before; otherwise the spans that it has changed get their old
//! cells back. Many tries anneal: they may also raise the cost a little, the less the later.

ghost use Rattle.std.specs.Prelude.{◌≡◌, IfOk, length, vec_len};
ghost use Rattle.lf_repair_planner.specs.Plans.{IsPlan};

use crate::changes::Changes;
use crate::cost_curve::CostCurve;
use crate::free_rows::FreeRows;
use crate::passes::{
    PlannerInput, displacement_at, displacement_at_site, long_displacement, rows_of_spans,
};
use crate::plan::{PlannedSite, PlannerCell, spots_of};
use crate::plan_state::{Gap, PlanState};
use crate::scramble::Scramble;
use crate::search::{Best, Search, best_gap};
use crate::search_limits::{SearchLimits, cost_of, number_of};
use crate::window::list_window;
use std::alloc::{AllocError, Global};

/// How a plan is improved.
#[derive(Clone, Copy)]
pub struct RecreateOptions<'a> {
    /// The distance of adjacent rows, in database units.
    pub height: u32,
    /// The numbers of the cells whose places are improved. Others move beside them.
    pub centers: &'a [u32],
    /// The tries for a hundred of these.
    pub tries: u32,
    /// Whether a try is kept only if it lowers the cost.
    pub lowers: bool,
    /// The longest displacement of a cell, in database units. `None`: any.
    pub reach: Option<i64>,
}

/// The most cells of a try besides the one with which it begins.
const MOST_OTHERS: u32 = 15;

/// The tries for a hundred cells from which on they anneal.
const MANY: u32 = 1000;

/// The cost of a cell without a place, which is more than that of any displacement.
const NO_PLACE: i64 = 1 << 48;

/// A cell of a try with its place before it. The less the key, the sooner it is inserted.
#[derive(Clone, Copy)]
struct TriedCell {
    key: u64,
    number: u32,
    place: Option<Gap>,
}

/// The lists that tries use, and the next random number.
#[derive(Drop)]
struct Workspace {
    random: Scramble,
    pool: Vec<u32>,
    tried: Vec<TriedCell>,
    changes: Changes,
    curve: CostCurve,
}

/// The limits of all tries.
#[derive(Clone, Copy)]
struct TryLimits {
    search: SearchLimits,
    pitch: i64,
    lowers: bool,
}

/// The cost of a cell's displacement at a place.
fn cost_at(input: &PlannerInput, number: u32, place: Option<Gap>, limits: &SearchLimits) -> i64 {
    let (Some(planner_cell), Some(gap)) = (input.cells.get(number as usize), place) else {
        return NO_PLACE;
    };
    cost_of(displacement_at(input, planner_cell, &gap), limits).saturating_mul(
        planner_cell.factor as i64,
    )
}

/// The cost of all cells.
fn total_cost(input: &PlannerInput, state: &PlanState, limits: &SearchLimits) -> i64 {
    let mut total = 0i64;
    for number in 0..input.cells.len() {
        let number = number_of(number);
        total = total.saturating_add(cost_at(input, number, state.place_of(number), limits));
    }
    total
}

/// Adds a cell to those of a try. Large cells come first, more or less, or any order is as good.
fn add_tried(
    input: &PlannerInput,
    state: &PlanState,
    number: u32,
    by_size: bool,
    work: &mut Workspace,
) -> Result<(), AllocError> {
    let area = match input.cells.get(number as usize) {
        Some(planner_cell) => (planner_cell.width as u64).saturating_mul(planner_cell.rows as u64),
        None => 0,
    };
    let key = if by_size {
        let chance = 77 + work.random.below(256);
        u64::MAX - area.saturating_mul(chance as u64)
    } else {
        work.random.next()
    };
    work.tried.push(TriedCell {
        key,
        number,
        place: state.place_of(number),
    })?;
    Ok(())
}

/// Chooses the cells of a try: this one and some of the pool.
fn choose_cells(
    input: &PlannerInput,
    state: &PlanState,
    number: u32,
    work: &mut Workspace,
) -> Result<(), AllocError> {
    let by_size = work.random.below(2) == 0;
    work.tried.clear();
    add_tried(input, state, number, by_size, work)?;
    for _ in 0..1 + work.random.below(MOST_OTHERS) {
        let count = work.pool.len().min(1_000_000);
        if count == 0 {
            return Ok(());
        }
        let position = work.random.below(count as u32) as usize;
        let other = work.pool.swap_remove(position);
        add_tried(input, state, other, by_size, work)?;
    }
    Ok(())
}

/// The cost of the chosen cells at their places.
fn cost_of_tried(input: &PlannerInput, tried: &[TriedCell], limits: &SearchLimits) -> i64 {
    let mut cost = 0i64;
    for cell in tried {
        cost = cost.saturating_add(cost_at(input, cell.number, cell.place, limits));
    }
    cost
}

/// Takes the chosen cells out of the plan.
fn take_tried(
    input: &PlannerInput,
    state: &mut PlanState,
    tried: &[TriedCell],
    changes: &mut Changes,
) -> Result<(), AllocError> {
    for cell in tried {
        if let Some(gap) = &cell.place {
            changes.keep_covered(input, gap, state.segments.as_slice())?;
            state.take_cell(input, gap);
        }
    }
    Ok(())
}

/// The best gap for a cell, if it costs less than the limit.
fn find_gap(
    input: &PlannerInput,
    state: &PlanState,
    number: u32,
    limits: &TryLimits,
    limit: i64,
    curve: &mut CostCurve,
) -> Result<Best, AllocError> {
    let none = Best {
        cost: limit,
        gap: None,
    };
    let Some(planner_cell) = input.cells.get(number as usize) else {
        return Ok(none);
    };
    let search = Search {
        free_rows: input.free_rows,
        segments: state.segments.as_slice(),
        number,
        planner_cell,
        limits: &limits.search,
        height: input.height,
        exact: true,
    };
    best_gap(&search, limit, curve)
}

/// Inserts the chosen cells again, one after the other. Returns false if they cost as much as the
/// limit.
fn insert_tried(
    input: &PlannerInput,
    state: &mut PlanState,
    limits: &TryLimits,
    limit: i64,
    work: &mut Workspace,
) -> Result<bool, AllocError> {
    let mut limit = limit;
    for cell in &work.tried {
        let best = find_gap(input, state, cell.number, limits, limit, &mut work.curve)?;
        let Some(gap) = best.gap else {
            return Ok(false);
        };
        work.changes
            .keep_covered(input, &gap, state.segments.as_slice())?;
        state.put_cell(input, &gap)?;
        limit = limit.saturating_sub(best.cost);
    }
    Ok(true)
}

/// Makes a try around a cell, which may raise the cost by less than `slack`.
fn try_once(
    input: &PlannerInput,
    state: &mut PlanState,
    limits: &TryLimits,
    number: u32,
    slack: i64,
    work: &mut Workspace,
) -> Result<(), AllocError> {
    let place = state.place_of(number);
    list_window(
        input,
        state,
        number,
        place,
        &mut work.random,
        &mut work.pool,
    )?;
    choose_cells(input, state, number, work)?;
    let cost = cost_of_tried(input, work.tried.as_slice(), &limits.search);
    if cost < limits.pitch {
        return Ok(());
    }
    work.tried.sort_unstable_by_key(|cell| cell.key);
    work.changes.clear();
    take_tried(input, state, work.tried.as_slice(), &mut work.changes)?;
    let limit = cost.saturating_add(slack);
    if insert_tried(input, state, limits, limit, work)? {
        return Ok(());
    }
    work.changes.take_back(state.segments.as_mut_slice());
    for cell in &work.tried {
        state.set_place(cell.number, cell.place);
    }
    Ok(())
}

/// By how much a try may raise the cost: `heat` times minus the logarithm of a random number between
/// 0 and 1, which is approximated by a line between powers of two.
fn random_slack(heat: i64, random: &mut Scramble) -> i64 {
    if heat == 0 {
        return 0;
    }
    let bits = random.next() | 1;
    let zeros = bits.leading_zeros() as i64;
    let below = bits.leading_zeros().min(52);
    let fraction = ((bits >> (53 - below)) % 1024) as i64;
    let halvings = ((zeros + 1) * 1024 - fraction).max(0);
    heat.saturating_mul(halvings).saturating_mul(710) / 1_048_576
}

/// The heat of a try: three sites at first, and none in the last tenth of the tries.
fn heat_at(turn: u64, tries: u64, pitch: i64) -> i64 {
    let all = tries.min(1_000_000_000_000).max(1) as i64;
    let turn = turn.min(1_000_000_000_000) as i64;
    let rest = (10 * all - 11 * turn).max(0);
    pitch.saturating_mul(3).saturating_mul(rest) / 10 / all
}

/// Makes all tries. First each cell without a place has one, or up to twenty if a reach is given.
fn make_tries(
    alloc: Global,
    input: &PlannerInput,
    options: &RecreateOptions<'_>,
    limits: &TryLimits,
    state: &mut PlanState,
) -> Result<(), AllocError> {
    let mut work = Workspace {
        random: Scramble::new(),
        pool: Vec::new(alloc),
        tried: Vec::new(alloc),
        changes: Changes::new(alloc),
        curve: CostCurve::new(alloc),
    };
    let count = options.centers.len().min(4_000_000_000) as u32;
    if count == 0 {
        return Ok(());
    }
    let tries = (count as u64).saturating_mul(options.tries as u64) / 100;
    let lowest = if limits.lowers { 0 } else { 1 };
    let rounds = if options.reach.is_some() { 20 } else { 1 };
    for _ in 0..rounds {
        for number in options.centers {
            if state.place_of(*number).is_none() {
                try_once(input, state, limits, *number, lowest, &mut work)?;
            }
        }
    }
    for turn in 0..tries {
        let Some(number) = options.centers.get(work.random.below(count) as usize) else {
            continue;
        };
        let cost = cost_at(input, *number, state.place_of(*number), &limits.search);
        if cost < limits.pitch && work.random.below(4) != 0 {
            continue;
        }
        let heat = if MANY <= options.tries {
            heat_at(turn, tries, limits.pitch)
        } else {
            0
        };
        let slack = random_slack(heat, &mut work.random).saturating_add(lowest);
        try_once(input, state, limits, *number, slack, &mut work)?;
    }
    Ok(())
}

/// The displacement of a cell at a site of a plan. `None` if there is no such site.
fn displacement_at_start(
    input: &PlannerInput,
    cell: &PlannerCell,
    start: Option<PlannedSite>,
) -> Option<i64> {
    let site = start?;
    let span = site.span as usize;
    let sites = input.free_rows.spans.get(span)?;
    let row = input.row_of(span)?;
    Some(displacement_at_site(cell, sites, row.y, site.at))
}

/// The longest displacement that a search may give to a cell: at most the longest of the start, if
/// each cell has a place there within reach.
fn reach_of(
    input: &PlannerInput,
    starts: &[Option<PlannedSite>],
    options: &RecreateOptions<'_>,
) -> i64 {
    let reach = options.reach.unwrap_or(i64::MAX);
    let mut longest = 0;
    for (planner_cell, start) in input.cells.iter().zip(starts.iter()) {
        match displacement_at_start(input, planner_cell, *start) {
            Some(displacement) => longest = longest.max(displacement),
            None => return reach,
        }
    }
    reach.min(longest)
}

/// The better of the start and of the state after all tries.
fn improved_state(
    alloc: Global,
    input: &PlannerInput,
    starts: &[Option<PlannedSite>],
    options: &RecreateOptions<'_>,
) -> Result<PlanState, AllocError> {
    let reach = reach_of(input, starts, options);
    let mut state = PlanState::with_spots(alloc, input, starts, reach)?;
    let limits = TryLimits {
        search: SearchLimits {
            gaps: 1,
            most: 10,
            near: long_displacement(alloc, input, &state, 0)?,
            weight: 4,
            reach,
        },
        pitch: match input.free_rows.spans.first() {
            Some(span) => span.pitch(),
            None => 1,
        },
        lowers: options.lowers,
    };
    let before = total_cost(input, &state, &limits.search);
    make_tries(alloc, input, options, &limits, &mut state)?;
    if before < total_cost(input, &state, &limits.search) {
        return PlanState::with_spots(alloc, input, starts, reach);
    }
    Ok(state)
}

/// Improves the plan with these places by ruin and recreate. A cell without a place gets one if there
/// is room. The lowest row of each cell that has a place lies within its span there, and two cells
/// with places in one span lie apart. The plan is not worse than the one at the start, where long
/// displacements count more. `Err` if an allocation fails.
pub fn recreate_plan(
    alloc: Global,
    free_rows: &FreeRows,
    cells: &[PlannerCell],
    starts: &[Option<PlannedSite>],
    options: &RecreateOptions<'_>,
) -> Result<Vec<Option<PlannedSite>>, AllocError>
    ensures plan { IfOk result (λ planned_sites. IsPlan free_rows.now.spans.items cells.now planned_sites.items) }
    ensures count { IfOk result (λ planned_sites. vec_len planned_sites ≡ length cells.now) }
{
    let rows = rows_of_spans(alloc, free_rows)?;
    let input = PlannerInput {
        free_rows,
        rows: rows.as_slice(),
        cells,
        height: options.height,
    };
    let state = improved_state(alloc, &input, starts, options)?;
    spots_of(&input, state)
}
