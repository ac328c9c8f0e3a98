//! Plans a pass in which legal cells make room for those at fault, if that lowers the total
//! displacement.

use crate::free_space::PaddedTeam;
use crate::local_pass::{LocalPass, new_local_pass, target_places};
use crate::pass::{MovePolicy, Pass, RepairInput, copied, stays_if_legal, working_places};
use crate::rounds::{free_rows_without, is_high, loose_cells, movable_cell, planned_place};
use crate::search::RepairSearch;
use crate::team_plan::{PlannerCells, low_cells, planned_cells, row_height};
use lf_floorplan::{Place, same_place};
use lf_placement::Placement;
use lf_repair_planner::{FreeRows, PlannedSite, RecreateOptions, recreate_plan};
use std::alloc::{AllocError, Global};

/// How many times the tries of the search a window pass makes for a cell at fault, at most.
const MORE_TRIES: usize = 10;

/// Whether at least half of the cells were legal, but not all, and legal ones may move.
fn has_legal_half(input: &RepairInput) -> bool {
    let mut legal = 0usize;
    for is_legal in &input.legal {
        if *is_legal {
            legal = legal.saturating_add(1);
        }
    }
    if matches!(input.policy, MovePolicy::KeepLegal) || input.legal.len() == legal {
        return false;
    }
    input.legal.len() <= legal.saturating_mul(2)
}

/// The pass in which the cells of one row's height may move, and legal ones on soft blockages may
/// not.
fn open_pass(
    alloc: Global,
    placement: &Placement,
    team: &PaddedTeam,
    input: &RepairInput,
    search: &RepairSearch<'_>,
) -> Result<Pass, AllocError> {
    let ids = placement.cells().cells_of(team.team);
    let mut locked = Vec::with_capacity(alloc, ids.len())?;
    for (id, legal) in ids.iter().zip(input.legal.iter()) {
        locked.push(*legal && stays_if_legal(placement, *id))?;
    }
    let originals = input.pass.targets.as_slice();
    Ok(Pass {
        locked,
        impossible: copied(alloc, input.pass.impossible.as_slice())?,
        targets: target_places(alloc, placement, team.team, originals, search)?,
    })
}

/// The sites at which the cells of a plan are.
fn working_sites(
    alloc: Global,
    placement: &Placement,
    team: &PaddedTeam,
    free_rows: &FreeRows,
    owns: &[u32],
) -> Result<Vec<Option<PlannedSite>>, AllocError> {
    let mut sites = Vec::with_capacity(alloc, owns.len())?;
    for own in owns {
        let place = match placement.cells().cell_of(team.team, *own as usize) {
            Some(id) => placement.cells().working(id),
            None => None,
        };
        sites.push(match place {
            Some(place) => free_rows.site_at(place.x as i64, place.y as i64),
            None => None,
        })?;
    }
    Ok(sites)
}

/// The numbers of the planned cells that were not legal.
fn faulty_cells(alloc: Global, owns: &[u32], legal: &[bool]) -> Result<Vec<u32>, AllocError> {
    let mut numbers = Vec::new(alloc);
    for (number, own) in owns.iter().enumerate() {
        if let Some(false) = legal.get(*own as usize) {
            numbers.push(number.min(4_294_967_295) as u32)?;
        }
    }
    Ok(numbers)
}

/// The tries for a hundred of the cells at fault: more than the search's, if there are few of them.
fn tries_of(search: &RepairSearch<'_>, cells: usize, faulty: usize) -> u32 {
    let share = (cells / faulty.max(1)).min(MORE_TRIES) as u32;
    search.tries.saturating_mul(share.max(1))
}

/// The places of the cells of one row's height after tries around those that were not legal.
fn window_sites(
    alloc: Global,
    placement: &Placement,
    team: &PaddedTeam,
    input: &RepairInput,
    search: &RepairSearch<'_>,
    free_rows: &FreeRows,
    cells: &PlannerCells,
) -> Result<Vec<Option<PlannedSite>>, AllocError> {
    let owns = cells.owns.as_slice();
    let starts = working_sites(alloc, placement, team, free_rows, owns)?;
    let faulty = faulty_cells(alloc, owns, input.legal.as_slice())?;
    let options = RecreateOptions {
        height: row_height(placement.frame()),
        centers: faulty.as_slice(),
        tries: tries_of(search, input.legal.len(), faulty.len()),
        lowers: true,
        reach: search.reach,
    };
    recreate_plan(
        alloc,
        free_rows,
        cells.cells.as_slice(),
        starts.as_slice(),
        &options,
    )
}

/// The pass that moves the cells whose planned places are not their working places to these, and
/// nothing else. `None` if there is no such cell.
fn pass_of_moves(
    alloc: Global,
    placement: &Placement,
    team: &PaddedTeam,
    open: &Pass,
    free_rows: &FreeRows,
    owns: &[u32],
    planned: &[Option<PlannedSite>],
) -> Result<Option<Pass>, AllocError> {
    let mut targets = working_places(alloc, placement, team.team)?;
    let mut locked = vec![in alloc; true; targets.len()]?;
    let mut moves = false;
    for stop in &planned_cells(alloc, owns, planned)? {
        let own = stop.own as usize;
        let Some(id) = placement.cells().cell_of(team.team, own) else {
            continue;
        };
        let Some(cell) = movable_cell(placement, open, id) else {
            continue;
        };
        let to = planned_place(placement, &cell, free_rows, stop);
        if is_high(placement.frame(), &cell) || to.is_none() {
            continue;
        }
        if let (Some(target), Some(mark)) = (targets.get_mut(own), locked.get_mut(own)) {
            if !same_place(*target, to) {
                *target = to;
                *mark = false;
                moves = true;
            }
        }
    }
    if !moves {
        return Ok(None);
    }
    Ok(Some(Pass {
        locked,
        impossible: copied(alloc, open.impossible.as_slice())?,
        targets,
    }))
}

/// The pass in which legal cells of one row's height make room for the cells at fault of the team, in windows around
/// these, if that lowers the total displacement. The targets of its cells are their planned places. `None` if less than
/// half of the cells were legal, if legal cells may not move, or if no cell would move. `Err` if an allocation fails.
pub fn plan_window_pass(
    alloc: Global,
    placement: &Placement,
    team: &PaddedTeam,
    input: &RepairInput,
    search: &RepairSearch<'_>,
) -> Result<Option<LocalPass>, AllocError> {
    if search.tries == 0 || !has_legal_half(input) {
        return Ok(None);
    }
    let open = open_pass(alloc, placement, team, input, search)?;
    let loose = loose_cells(alloc, placement, team.team, &open)?;
    let free_rows = free_rows_without(alloc, placement, team, loose.as_slice())?;
    let cells = low_cells(alloc, placement, team, &open)?;
    let planned = window_sites(alloc, placement, team, input, search, &free_rows, &cells)?;
    let owns = cells.owns.as_slice();
    match pass_of_moves(
        alloc,
        placement,
        team,
        &open,
        &free_rows,
        owns,
        planned.as_slice(),
    )? {
        Some(pass) => Ok(Some(new_local_pass(alloc, placement, team.team, input, pass, search)?)),
        None => Ok(None),
    }
}
