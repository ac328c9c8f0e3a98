//! Lists the edits of each phase of a pass.

use crate::edit::{CellEdit, Edit, push_move};
use crate::free_space::{
    Area, BlockedSpan, PaddedTeam, coordinate, free_rows_beside, take_area, take_soft,
};
use crate::ordered_moves::{Bands, CellMove, MoveList, with_moves};
use crate::pass::Pass;
use crate::search::RepairSearch;
use crate::team_plan::{PlannedCell, TeamPlan, is_planned_tall, orient_of, team_plan};
use lf_cells::CellId;
use lf_floorplan::{Frame, Macro, Place, same_place};
use lf_orient::{Orient, equal_under, is_candidate, row_rail};
use lf_placement::Placement;
use lf_repair_planner::FreeRows;
use lf_units::Point;
use std::alloc::{AllocError, Global};

/// The phases of a pass.
#[derive(Clone, Copy)]
pub enum Phase {
    /// Unplaces each cell that may move, if one of these covers several rows.
    UnplaceForTall,
    /// Moves those that cover several rows to their best places, the largest area first.
    PlaceTall,
    /// Moves those of one row to their planned places, row by row from left to right. A cell that
    /// blocks another one moves first. Those without a planned place are unplaced.
    PlacePlanned,
    /// Moves those that are still unplaced to their best places, the largest area first.
    PlaceRemaining,
}

/// A cell that may move: its id, its target place, and its macro with the macro's size in database
/// units.
#[derive(Clone, Copy)]
pub(crate) struct MovableCell<'a> {
    pub(crate) id: CellId,
    pub(crate) wanted_place: Option<Place>,
    pub(crate) mac: &'a Macro,
    pub(crate) width: i64,
    pub(crate) height: i64,
}

/// Whether a cell covers several rows.
pub(crate) fn is_high(frame: &Frame, cell: &MovableCell<'_>) -> bool {
    frame.pitch.y < cell.height
}

/// A length of LEF, converted to database units.
fn length_of(frame: &Frame, micros: i64) -> i64 {
    micros.saturating_mul(frame.header.units as i64) / 1_000_000
}

/// The width of a cell, in database units.
pub fn width_of(placement: &Placement, id: CellId) -> i64 {
    let frame = placement.frame();
    let Some(facts) = placement.cells().cell(id) else {
        return 0;
    };
    match frame.macros.as_slice().get(facts.mac) {
        Some(mac) => length_of(frame, mac.size.x),
        None => 0,
    }
}

/// The cell as one that may move. `None` if it is locked, if no place can hold it, or if there is no
/// such cell.
pub(crate) fn movable_cell<'a>(
    placement: &'a Placement,
    pass: &Pass,
    id: CellId,
) -> Option<MovableCell<'a>> {
    let frame = placement.frame();
    let own = id.own as usize;
    if *pass.locked.get(own)? || pass.is_impossible(own) {
        return None;
    }
    let wanted_place = *pass.targets.get(own)?;
    let facts = placement.cells().cell(id)?;
    let mac = frame.macros.as_slice().get(facts.mac)?;
    Some(MovableCell {
        id,
        wanted_place,
        mac,
        width: length_of(frame, mac.size.x),
        height: length_of(frame, mac.size.y),
    })
}

/// The number of cells that may move.
pub(crate) fn movable_count(pass: &Pass) -> usize {
    let mut count = 0usize;
    for held in &pass.locked {
        if !*held {
            count = count.saturating_add(1);
        }
    }
    count
}

/// The target of a cell: its target place, or that of the search if it has no target place.
fn target_of(frame: &Frame, cell: &MovableCell<'_>, search: &RepairSearch<'_>) -> Point {
    match cell.wanted_place {
        Some(place) => Point {
            x: place.x as i64,
            y: place.y as i64,
        },
        None => search.target_without_place(frame, cell.id),
    }
}

/// The sort key of cells that are moved to their best places.
#[derive(Clone, Copy, PartialEq, Eq, PartialOrd, Ord)]
struct Key {
    /// The larger the area, the less.
    area: i64,
    own: u32,
    x: i64,
    y: i64,
}

fn key_of(frame: &Frame, cell: &MovableCell<'_>, search: &RepairSearch<'_>) -> Key {
    let target = target_of(frame, cell, search);
    Key {
        area: 0i64.saturating_sub(cell.width.saturating_mul(cell.height)),
        own: cell.id.own,
        x: target.x,
        y: target.y,
    }
}

/// Edits that move these cells to their best places, in the order of their keys.
fn best_places(alloc: Global, keys: &mut Vec<Key>) -> Result<Vec<CellEdit>, AllocError> {
    keys.sort_unstable();
    let mut cell_edits = Vec::with_capacity(alloc, keys.len())?;
    for key in keys.iter() {
        cell_edits.push(CellEdit {
            own: key.own,
            step: Edit::Legalize(Point { x: key.x, y: key.y }),
        })?;
    }
    Ok(cell_edits)
}

/// Whether a cell that may move covers several rows.
pub(crate) fn may_move_tall(placement: &Placement, number: usize, pass: &Pass) -> bool {
    let high = placement.frame().pitch.y;
    for id in placement.cells().cells_of(number) {
        if let Some(cell) = movable_cell(placement, pass, *id) {
            if high < cell.height {
                return true;
            }
        }
    }
    false
}

/// Edits that unplace all cells that may move. No edits if none of these covers several rows.
fn unplace_for_tall(
    alloc: Global,
    placement: &Placement,
    number: usize,
    pass: &Pass,
) -> Result<Vec<CellEdit>, AllocError> {
    if !may_move_tall(placement, number, pass) {
        return Ok(Vec::new(alloc));
    }
    let mut cell_edits = Vec::with_capacity(alloc, movable_count(pass))?;
    for id in placement.cells().cells_of(number) {
        if let Some(cell) = movable_cell(placement, pass, *id) {
            if placement.cells().working(*id).is_some() {
                cell_edits.push(CellEdit {
                    own: cell.id.own,
                    step: Edit::Unplace,
                })?;
            }
        }
    }
    Ok(cell_edits)
}

/// Edits that move the cells that cover several rows to their best places.
fn legalize_tall(
    alloc: Global,
    placement: &Placement,
    number: usize,
    pass: &Pass,
    search: &RepairSearch<'_>,
) -> Result<Vec<CellEdit>, AllocError> {
    let frame = placement.frame();
    let mut keys = Vec::new(alloc);
    for id in placement.cells().cells_of(number) {
        if let Some(cell) = movable_cell(placement, pass, *id) {
            if frame.pitch.y < cell.height {
                keys.push(key_of(frame, &cell, search))?;
            }
        }
    }
    best_places(alloc, &mut keys)
}

/// Edits that move the cells without a place to their best places.
fn legalize_unplaced(
    alloc: Global,
    placement: &Placement,
    number: usize,
    pass: &Pass,
    search: &RepairSearch<'_>,
) -> Result<Vec<CellEdit>, AllocError> {
    let frame = placement.frame();
    let mut keys = Vec::new(alloc);
    for id in placement.cells().cells_of(number) {
        if let Some(cell) = movable_cell(placement, pass, *id) {
            if placement.cells().working(*id).is_none() {
                keys.push(key_of(frame, &cell, search))?;
            }
        }
    }
    best_places(alloc, &mut keys)
}

/// Whether the entry of the cell at position `own` is true.
fn is_loose(loose: &[bool], own: u32) -> bool {
    match loose.get(own as usize) {
        Some(is_loose) => *is_loose,
        None => false,
    }
}

/// The spans of rows that soft blockages or the team's placed cells cover. Cells whose entry in
/// `loose` is true are skipped.
fn blocked_spans(
    alloc: Global,
    placement: &Placement,
    team: &PaddedTeam,
    loose: &[bool],
) -> Result<Vec<BlockedSpan>, AllocError> {
    let plan = placement.indexed_frame();
    let frame = placement.frame();
    let mut taken = Vec::new(alloc);
    for id in placement.cells().cells_of(team.team) {
        if is_loose(loose, id.own) {
            continue;
        }
        let (Some(place), Some(facts)) = (
            placement.cells().working(*id),
            placement.cells().cell(*id),
        ) else {
            continue;
        };
        let Some(mac) = frame.macros.as_slice().get(facts.mac) else {
            continue;
        };
        take_area(&plan, &area_of(frame, mac, &place), team.pad, &mut taken)?;
    }
    take_soft(&plan, team.team, &mut taken)?;
    Ok(taken)
}

/// The free sites of the team if the cells whose entry in `loose` is true were unplaced.
pub fn free_rows_without(
    alloc: Global,
    placement: &Placement,
    team: &PaddedTeam,
    loose: &[bool],
) -> Result<FreeRows, AllocError> {
    let mut taken = blocked_spans(alloc, placement, team, loose)?;
    free_rows_beside(
        alloc,
        &placement.indexed_frame(),
        placement.frame(),
        team,
        &mut taken,
    )
}

/// The area of a cell at this place. The cell is not rotated by 90 degrees.
fn area_of(frame: &Frame, mac: &Macro, place: &Place) -> Area {
    let (x, y) = (place.x as i64, place.y as i64);
    Area {
        x1: x,
        x2: x.saturating_add(length_of(frame, mac.size.x)),
        y1: y,
        y2: y.saturating_add(length_of(frame, mac.size.y)),
    }
}

/// Whether a cell of one row's height may have this orientation on a row of that one.
pub fn fits_on(frame: &Frame, mac: &Macro, orient: Orient, row: Orient) -> bool {
    is_candidate(mac.symmetry, orient) && equal_under(frame.site.symmetry, orient, row)
}

/// The orientation of a cell on a row of this orientation: its own if allowed, otherwise the first
/// allowed one of N, S, FN and FS.
pub(crate) fn orient_on(frame: &Frame, mac: &Macro, wanted: Orient, row: Orient) -> Option<Orient> {
    if fits_on(frame, mac, wanted, row) {
        return Some(wanted);
    }
    for orient in [Orient::N, Orient::S, Orient::FN, Orient::FS] {
        if fits_on(frame, mac, orient, row) {
            return Some(orient);
        }
    }
    None
}

/// The place of a cell at a planned site.
fn place_at(
    frame: &Frame,
    free_rows: &FreeRows,
    stop: &PlannedCell,
    cell: &MovableCell<'_>,
) -> Option<Place> {
    let wanted_place = cell.wanted_place?;
    let span = stop.span as usize;
    let sites = free_rows.spans.get(span)?;
    let after = free_rows.rows.partition_point(|row| row.first <= span);
    let row = free_rows.rows.get(after.checked_sub(1)?)?;
    let orient = orient_on(frame, cell.mac, wanted_place.orient, orient_of(row.kind))?;
    let x = (sites.first as i64).saturating_add((sites.step as i64).saturating_mul(stop.at as i64));
    Some(Place::new(coordinate(x), coordinate(row.y as i64), orient))
}

/// Whether each cell may move and covers one row.
pub(crate) fn loose_cells(
    alloc: Global,
    placement: &Placement,
    number: usize,
    pass: &Pass,
) -> Result<Vec<bool>, AllocError> {
    let high = placement.frame().pitch.y;
    let cells = placement.cells().cells_of(number);
    let mut marks = Vec::with_capacity(alloc, cells.len())?;
    for id in cells {
        marks.push(match movable_cell(placement, pass, *id) {
            Some(cell) => cell.height <= high,
            None => false,
        })?;
    }
    Ok(marks)
}

/// The working place of a cell. `None` if it has none, or lies on its side there.
fn upright_place(placement: &Placement, id: CellId) -> Option<Place> {
    let place = placement.cells().working(id)?;
    row_rail(place.orient)?;
    Some(place)
}

/// The planned place of a cell. `None` if it breaks a rule there.
pub(crate) fn planned_place(
    placement: &Placement,
    cell: &MovableCell<'_>,
    free_rows: &FreeRows,
    stop: &PlannedCell,
) -> Option<Place> {
    let to = place_at(placement.frame(), free_rows, stop, cell)?;
    if placement.broken_frame_rule(cell.id, &to).is_some() {
        return None;
    }
    Some(to)
}

/// The move of a cell of one row's height to its planned site. `None` if it covers several rows, or
/// breaks a rule there.
fn planned_move(
    placement: &Placement,
    team: usize,
    pass: &Pass,
    free_rows: &FreeRows,
    stop: &PlannedCell,
) -> Option<CellMove> {
    let id = placement.cells().cell_of(team, stop.own as usize)?;
    let cell = movable_cell(placement, pass, id)?;
    if is_high(placement.frame(), &cell) {
        return None;
    }
    Some(CellMove {
        own: stop.own,
        width: cell.width.clamp(0, 4_294_967_295) as u32,
        from: upright_place(placement, id),
        to: planned_place(placement, &cell, free_rows, stop)?,
    })
}

/// The bands of rows in which cells of the team are moved.
pub fn bands_of(frame: &Frame, team: &PaddedTeam, free_rows: &FreeRows) -> Bands {
    Bands {
        origin: match free_rows.rows.first() {
            Some(row) => row.y as i64,
            None => 0,
        },
        height: frame.pitch.y,
        pad: team.pad,
    }
}

/// Clears the entry of a cell that moves from its place.
fn clear_moved(loose: &mut [bool], one: &CellMove) {
    if let Some(is_loose) = loose.get_mut(one.own as usize) {
        *is_loose = one.from.is_none();
    }
}

/// The moves of the cells whose entry is true to their planned sites, row by row from left to
/// right. Clears the entries of those that move from their places.
fn planned_moves(
    alloc: Global,
    placement: &Placement,
    team: &PaddedTeam,
    pass: &Pass,
    plan: &TeamPlan,
    loose: &mut Vec<bool>,
) -> Result<MoveList, AllocError> {
    let bands = bands_of(placement.frame(), team, &plan.free_rows);
    let mut list = MoveList::with_capacity(alloc, bands, plan.stops.len())?;
    for stop in &plan.stops {
        if let Some(one) = planned_move(placement, team.team, pass, &plan.free_rows, stop) {
            clear_moved(loose.as_mut_slice(), &one);
            list.push(&one)?;
        }
    }
    Ok(list)
}

/// The planned places of the cells of several rows, by their positions in the team.
fn tall_places(
    alloc: Global,
    placement: &Placement,
    team: &PaddedTeam,
    pass: &Pass,
    plan: &TeamPlan,
) -> Result<Vec<Option<Place>>, AllocError> {
    let cells = placement.cells().cells_of(team.team);
    let mut places = vec![in alloc; None; cells.len()]?;
    for stop in &plan.stops {
        let own = stop.own as usize;
        let Some(id) = placement.cells().cell_of(team.team, own) else {
            continue;
        };
        let (Some(cell), Some(place)) = (movable_cell(placement, pass, id), places.get_mut(own))
        else {
            continue;
        };
        if is_high(placement.frame(), &cell) {
            *place = planned_place(placement, &cell, &plan.free_rows, stop);
        }
    }
    Ok(places)
}

/// Appends the edits that move the cells of several rows as planned: all that move are unplaced, and
/// then placed at their planned places. None if the plan moves no such cell.
fn push_tall_edits(
    alloc: Global,
    placement: &Placement,
    team: &PaddedTeam,
    pass: &Pass,
    plan: &TeamPlan,
    cell_edits: &mut Vec<CellEdit>,
) -> Result<(), AllocError> {
    if !plan.moves_tall {
        return Ok(());
    }
    let places = tall_places(alloc, placement, team, pass, plan)?;
    let mut placed = Vec::new(alloc);
    let ids = placement.cells().cells_of(team.team);
    for (id, place) in ids.iter().zip(places.iter()) {
        let Some(cell) = movable_cell(placement, pass, *id) else {
            continue;
        };
        let now = placement.cells().working(*id);
        if is_planned_tall(placement.frame(), &cell) && !same_place(now, *place) {
            push_move(id.own, now, *place, cell_edits, &mut placed)?;
        }
    }
    cell_edits.extend_from_slice(placed.as_slice())?;
    Ok(())
}

/// Edits that unplace the cells whose entry is true.
fn unplace_loose(
    alloc: Global,
    placement: &Placement,
    number: usize,
    loose: &[bool],
) -> Result<Vec<CellEdit>, AllocError> {
    let mut cell_edits = Vec::new(alloc);
    for id in placement.cells().cells_of(number) {
        if is_loose(loose, id.own) && placement.cells().working(*id).is_some() {
            cell_edits.push(CellEdit {
                own: id.own,
                step: Edit::Unplace,
            })?;
        }
    }
    Ok(cell_edits)
}

/// Edits that move the cells as planned. Those of one row's height that keep no planned place are
/// unplaced.
fn place_by_plan(
    alloc: Global,
    placement: &Placement,
    team: &PaddedTeam,
    pass: &Pass,
    search: &RepairSearch<'_>,
) -> Result<Vec<CellEdit>, AllocError> {
    let mut loose = loose_cells(alloc, placement, team.team, pass)?;
    let plan = team_plan(alloc, placement, team, pass, loose.as_slice(), search)?;
    let list = planned_moves(alloc, placement, team, pass, &plan, &mut loose)?;
    let mut cell_edits = unplace_loose(alloc, placement, team.team, loose.as_slice())?;
    push_tall_edits(alloc, placement, team, pass, &plan, &mut cell_edits)?;
    with_moves(alloc, cell_edits.as_slice(), list)
}

/// The edits of a phase for the cells of the team. Locked cells, and those that no place can hold,
/// have no edits. `Err` if an allocation fails.
pub fn edits_for(
    alloc: Global,
    placement: &Placement,
    team: &PaddedTeam,
    pass: &Pass,
    phase: Phase,
    search: &RepairSearch<'_>,
) -> Result<Vec<CellEdit>, AllocError> {
    match phase {
        Phase::UnplaceForTall => unplace_for_tall(alloc, placement, team.team, pass),
        Phase::PlaceTall => legalize_tall(alloc, placement, team.team, pass, search),
        Phase::PlacePlanned => place_by_plan(alloc, placement, team, pass, search),
        Phase::PlaceRemaining => legalize_unplaced(alloc, placement, team.team, pass, search),
    }
}
