//! The planned places of a team's cells.

use crate::free_space::PaddedTeam;
use crate::pass::Pass;
use crate::rounds::{
    MovableCell, free_rows_without, is_high, may_move_tall, movable_cell, movable_count, orient_on,
};
use crate::search::RepairSearch;
use lf_floorplan::{Frame, Macro, Place};
use lf_orient::{Orient, row_rail};
use lf_placement::Placement;
use lf_repair_planner::{
    FreeRows, PlanOptions, PlannedSite, PlannerCell, RecreateOptions, RowKind, RowKinds,
    plan_cells, recreate_plan,
};
use std::alloc::{AllocError, Global};

/// The options of a plan for `loose` cells of a team. It tries two orders if these are at most half
/// of the team's cells.
fn steps_of(placement: &Placement, team: usize, loose: usize) -> PlanOptions {
    PlanOptions {
        passes: 1,
        rounds: 2,
        two_orders: loose <= placement.cells().cells_of(team).len() / 2,
    }
}

/// A site of a span, and the position in the team of the cell placed there.
#[derive(Clone, Copy, PartialEq, Eq, PartialOrd, Ord)]
pub(crate) struct PlannedCell {
    pub(crate) span: u32,
    pub(crate) at: u32,
    pub(crate) own: u32,
}

/// The free sites of a team, and the planned cells row by row from left to right. `moves_tall` says
/// whether cells of several rows are in the plan.
#[derive(Drop)]
pub(crate) struct TeamPlan {
    pub(crate) free_rows: FreeRows,
    pub(crate) stops: Vec<PlannedCell>,
    pub(crate) moves_tall: bool,
}

/// The positions of cells, the planner's input for each, and their places so far.
#[derive(Drop)]
pub(crate) struct PlannerCells {
    pub(crate) owns: Vec<u32>,
    pub(crate) cells: Vec<PlannerCell>,
    starts: Vec<Option<PlannedSite>>,
}

/// The orientation of a row of this kind.
pub(crate) fn orient_of(kind: RowKind) -> Orient {
    match kind {
        RowKind::N => Orient::N,
        RowKind::S => Orient::S,
        RowKind::FN => Orient::FN,
        RowKind::FS => Orient::FS,
    }
}

/// The number of rows that a cell covers. `None` if its height is not a multiple of that of rows.
fn rows_of(frame: &Frame, cell: &MovableCell<'_>) -> Option<u32> {
    let high = frame.pitch.y.max(1);
    if cell.height <= high {
        return Some(1);
    }
    if cell.height.rem_euclid(high) != 0 {
        return None;
    }
    u32::try_from(cell.height.div_euclid(high)).ok()
}

/// Whether a cell that covers this number of rows may be placed on rows of this kind. If it covers
/// several, this is said of the lowest one.
fn may_be_on(frame: &Frame, mac: &Macro, rows: u32, kind: RowKind) -> bool {
    let row = orient_of(kind);
    if orient_on(frame, mac, Orient::N, row).is_none() {
        return false;
    }
    rows % 2 == 1 || row_rail(row) == Some(mac.rail)
}

/// The kinds of rows on which a cell may be placed.
fn kinds_of(frame: &Frame, mac: &Macro, rows: u32) -> RowKinds {
    RowKinds {
        n: may_be_on(frame, mac, rows, RowKind::N),
        s: may_be_on(frame, mac, rows, RowKind::S),
        fn_: may_be_on(frame, mac, rows, RowKind::FN),
        fs: may_be_on(frame, mac, rows, RowKind::FS),
    }
}

/// The planner's input for a cell with this target place.
fn planner_cell(
    frame: &Frame,
    cell: &MovableCell<'_>,
    wanted_place: &Place,
    pad: i64,
    rows: u32,
    factor: u32,
) -> PlannerCell {
    PlannerCell {
        x: wanted_place.x,
        y: wanted_place.y,
        width: cell.width.saturating_add(pad).clamp(0, 4_294_967_295) as u32,
        kinds: kinds_of(frame, cell.mac, rows),
        rows,
        factor,
    }
}

/// The cells of one row's height that may move and have a target place. They have no places yet.
pub(crate) fn low_cells(
    alloc: Global,
    placement: &Placement,
    team: &PaddedTeam,
    pass: &Pass,
) -> Result<PlannerCells, AllocError> {
    let frame = placement.frame();
    let most = movable_count(pass);
    let mut owns = Vec::with_capacity(alloc, most)?;
    let mut wishes = Vec::with_capacity(alloc, most)?;
    for id in placement.cells().cells_of(team.team) {
        let Some(cell) = movable_cell(placement, pass, *id) else {
            continue;
        };
        let Some(wanted_place) = cell.wanted_place else {
            continue;
        };
        if !is_high(frame, &cell) {
            owns.push(id.own)?;
            wishes.push(planner_cell(frame, &cell, &wanted_place, team.pad, 1, 1))?;
        }
    }
    Ok(PlannerCells {
        owns,
        cells: wishes,
        starts: Vec::new(alloc),
    })
}

/// The number of cells of each height in the team, in rows, up to eight.
fn counts_by_height(
    alloc: Global,
    placement: &Placement,
    team: &PaddedTeam,
    pass: &Pass,
) -> Result<Vec<u32>, AllocError> {
    let mut counts = vec![in alloc; 0u32; 9]?;
    for id in placement.cells().cells_of(team.team) {
        let Some(cell) = movable_cell(placement, pass, *id) else {
            continue;
        };
        let rows = rows_of(placement.frame(), &cell).unwrap_or(0);
        if let Some(count) = counts.get_mut(rows as usize) {
            *count = count.saturating_add(1);
        }
    }
    Ok(counts)
}

/// How often the displacement of a cell of this height counts if heights are balanced: the cells of
/// one row's height by those of this height, from 1 to 1000.
fn factor_of(counts: &[u32], rows: u32) -> u32 {
    let (Some(low), Some(high)) = (counts.get(1), counts.get(rows as usize)) else {
        return 1;
    };
    (*low / (*high).max(1)).max(1).min(1000)
}

/// Appends the cells of several rows that may move and have a target place. Those that have places
/// on free sites begin there.
fn push_tall_cells(
    alloc: Global,
    placement: &Placement,
    team: &PaddedTeam,
    pass: &Pass,
    search: &RepairSearch<'_>,
    free_rows: &FreeRows,
    cells: &mut PlannerCells,
) -> Result<(), AllocError> {
    let frame = placement.frame();
    let counts = counts_by_height(alloc, placement, team, pass)?;
    for id in placement.cells().cells_of(team.team) {
        let Some(cell) = movable_cell(placement, pass, *id) else {
            continue;
        };
        let (Some(wanted_place), Some(rows)) = (cell.wanted_place, rows_of(frame, &cell)) else {
            continue;
        };
        if !is_high(frame, &cell) {
            continue;
        }
        let factor = if search.balances_heights {
            factor_of(counts.as_slice(), rows)
        } else {
            1
        };
        let start = match placement.cells().working(*id) {
            Some(place) => free_rows.site_at(place.x as i64, place.y as i64),
            None => None,
        };
        cells.owns.push(id.own)?;
        cells.cells.push(planner_cell(frame, &cell, &wanted_place, team.pad, rows, factor))?;
        cells.starts.push(start)?;
    }
    Ok(())
}

/// A site of one list of free rows, as a site of another one.
fn same_site(site: &PlannedSite, free_rows: &FreeRows, other: &FreeRows) -> Option<PlannedSite> {
    let position = site.span as usize;
    let span = free_rows.spans.get(position)?;
    let after = free_rows.rows.partition_point(|row| row.first <= position);
    let row = free_rows.rows.get(after.checked_sub(1)?)?;
    let along = (span.step as i64).saturating_mul(site.at as i64);
    other.site_at((span.first as i64).saturating_add(along), row.y as i64)
}

/// The places of a plan on other free rows.
fn same_sites(
    alloc: Global,
    planned: &[Option<PlannedSite>],
    free_rows: &FreeRows,
    other: &FreeRows,
) -> Result<Vec<Option<PlannedSite>>, AllocError> {
    let mut sites = Vec::with_capacity(alloc, planned.len())?;
    for spot in planned {
        sites.push(match spot {
            Some(site) => same_site(site, free_rows, other),
            None => None,
        })?;
    }
    Ok(sites)
}

/// Whether a cell covers several rows and takes part in plans: it has a target place, and its height
/// is a multiple of that of rows.
pub(crate) fn is_planned_tall(frame: &Frame, cell: &MovableCell<'_>) -> bool {
    is_high(frame, cell) && cell.wanted_place.is_some() && rows_of(frame, cell).is_some()
}

/// Whether each cell may move, and covers one row or takes part in plans.
fn planned_marks(
    alloc: Global,
    placement: &Placement,
    team: &PaddedTeam,
    pass: &Pass,
) -> Result<Vec<bool>, AllocError> {
    let frame = placement.frame();
    let cells = placement.cells().cells_of(team.team);
    let mut marks = Vec::with_capacity(alloc, cells.len())?;
    for id in cells {
        marks.push(match movable_cell(placement, pass, *id) {
            Some(cell) => !is_high(frame, &cell) || is_planned_tall(frame, &cell),
            None => false,
        })?;
    }
    Ok(marks)
}

/// The height of rows, in database units.
pub(crate) fn row_height(frame: &Frame) -> u32 {
    frame.pitch.y.max(1).clamp(0, 4_294_967_295) as u32
}

/// The improved places of cells that have places on these free rows.
fn improved_sites(
    alloc: Global,
    placement: &Placement,
    search: &RepairSearch<'_>,
    free_rows: &FreeRows,
    cells: &PlannerCells,
) -> Result<Vec<Option<PlannedSite>>, AllocError> {
    let mut centers = Vec::with_capacity(alloc, cells.owns.len())?;
    for position in 0..cells.owns.len() {
        centers.push(position.min(4_294_967_295) as u32)?;
    }
    let options = RecreateOptions {
        height: row_height(placement.frame()),
        centers: centers.as_slice(),
        tries: search.tries,
        lowers: false,
        reach: search.reach,
    };
    recreate_plan(
        alloc,
        free_rows,
        cells.cells.as_slice(),
        cells.starts.as_slice(),
        &options,
    )
}

/// The sites of a plan for the cells at these positions, row by row from left to right.
pub(crate) fn planned_cells(
    alloc: Global,
    owns: &[u32],
    planned: &[Option<PlannedSite>],
) -> Result<Vec<PlannedCell>, AllocError> {
    let mut stops = Vec::with_capacity(alloc, planned.len())?;
    for (own, spot) in owns.iter().zip(planned.iter()) {
        if let Some(spot) = spot {
            stops.push(PlannedCell {
                span: spot.span,
                at: spot.at,
                own: *own,
            })?;
        }
    }
    stops.sort_unstable();
    Ok(stops)
}

/// The plan of all cells that may move, from the first plan of those of one row's height. Those of
/// several rows begin at their places.
fn plan_with_tall(
    alloc: Global,
    placement: &Placement,
    team: &PaddedTeam,
    pass: &Pass,
    search: &RepairSearch<'_>,
    first: &FreeRows,
    mut cells: PlannerCells,
) -> Result<TeamPlan, AllocError> {
    let loose = planned_marks(alloc, placement, team, pass)?;
    let free_rows = free_rows_without(alloc, placement, team, loose.as_slice())?;
    cells.starts = same_sites(alloc, cells.starts.as_slice(), first, &free_rows)?;
    push_tall_cells(alloc, placement, team, pass, search, &free_rows, &mut cells)?;
    let planned = improved_sites(alloc, placement, search, &free_rows, &cells)?;
    Ok(TeamPlan {
        stops: planned_cells(alloc, cells.owns.as_slice(), planned.as_slice())?,
        free_rows,
        moves_tall: true,
    })
}

/// The plan of the cells that may move. `loose` says whether each cell may move and covers one row.
/// The first plan is for these alone. If the search improves plans, those of several rows take part.
pub(crate) fn team_plan(
    alloc: Global,
    placement: &Placement,
    team: &PaddedTeam,
    pass: &Pass,
    loose: &[bool],
    search: &RepairSearch<'_>,
) -> Result<TeamPlan, AllocError> {
    let free_rows = free_rows_without(alloc, placement, team, loose)?;
    let mut cells = low_cells(alloc, placement, team, pass)?;
    let options = steps_of(placement, team.team, cells.owns.len());
    cells.starts = plan_cells(alloc, &free_rows, cells.cells.as_slice(), &options)?;
    if search.improves_plans() {
        if may_move_tall(placement, team.team, pass) {
            return plan_with_tall(alloc, placement, team, pass, search, &free_rows, cells);
        }
        cells.starts = improved_sites(alloc, placement, search, &free_rows, &cells)?;
    }
    Ok(TeamPlan {
        stops: planned_cells(alloc, cells.owns.as_slice(), cells.starts.as_slice())?,
        free_rows,
        moves_tall: false,
    })
}
