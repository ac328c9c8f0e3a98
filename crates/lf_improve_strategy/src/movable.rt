//! The cells that may move, and their free sites.

use crate::cells::{CellPlace, ImprovableCell, Orientations, RowOrientations};
use lf_cells::CellId;
use lf_floorplan::{Frame, Macro, Place};
use lf_orient::Orient;
use lf_placement::Placement;
use lf_repair_planner::{FreeRows, FreeSpan, PlannerRow, RowKind};
use lf_repair_strategy::{PaddedTeam, fits_on, free_rows_without, width_of};
use std::alloc::{AllocError, Global};

/// Marks a cell that may not move, in place of its position in a list of cells.
const NONE: u32 = 4_294_967_295;

/// The cells of a team that may move, and the free sites if all of these were unplaced.
#[derive(Drop)]
pub(crate) struct MovableCells {
    pub(crate) free_rows: FreeRows,
    pub(crate) cells: Vec<ImprovableCell>,
    /// The position in the team of each of the cells.
    pub(crate) owns: Vec<u32>,
    /// The position in `cells` of each of the team's cells, or `NONE`.
    positions: Vec<u32>,
}

impl MovableCells {
    /// The position in `cells` of the team's cell at position `own`. `None` if it may not move.
    pub(crate) fn position_of(&self, own: u32) -> Option<u32> {
        let position = *self.positions.get(own as usize)?;
        if position == NONE {
            None
        } else {
            Some(position)
        }
    }
}

/// The kind of a row with this orientation. `None` for W, E, FW and FE.
pub(crate) fn kind_of(orient: Orient) -> Option<RowKind> {
    match orient {
        Orient::N => Some(RowKind::N),
        Orient::S => Some(RowKind::S),
        Orient::FN => Some(RowKind::FN),
        Orient::FS => Some(RowKind::FS),
        _ => None,
    }
}

/// The orientations that a macro of one row's height may have on a row of this orientation.
fn orientations_on(frame: &Frame, mac: &Macro, row: Orient) -> Orientations {
    Orientations {
        n: fits_on(frame, mac, Orient::N, row),
        s: fits_on(frame, mac, Orient::S, row),
        fn_: fits_on(frame, mac, Orient::FN, row),
        fs: fits_on(frame, mac, Orient::FS, row),
    }
}

/// The same, on rows of each kind.
fn orientations_of(frame: &Frame, mac: &Macro) -> RowOrientations {
    RowOrientations {
        in_n: orientations_on(frame, mac, Orient::N),
        in_s: orientations_on(frame, mac, Orient::S),
        in_fn: orientations_on(frame, mac, Orient::FN),
        in_fs: orientations_on(frame, mac, Orient::FS),
    }
}

/// The macro of a cell. `None` if there is none.
fn macro_of(placement: &Placement, id: CellId) -> Option<&Macro> {
    let number = placement.cells().cell(id)?.mac;
    placement.frame().macros.as_slice().get(number)
}

/// The cell as one that may move. `None` if it is unplaced, does not cover this number of rows, or
/// has an orientation that no row has.
fn cell_of(
    placement: &Placement,
    team: &PaddedTeam,
    id: CellId,
    rows: i64,
) -> Option<ImprovableCell> {
    let frame = placement.frame();
    let place = placement.cells().working(id)?;
    let mac = macro_of(placement, id)?;
    if mac.size.y != frame.site.size.y.saturating_mul(rows) {
        return None;
    }
    let width = width_of(placement, id).saturating_add(team.padding());
    Some(ImprovableCell {
        place: CellPlace {
            x: place.x,
            y: place.y,
            orientation: kind_of(place.orient)?,
        },
        width: width.clamp(0, 4_294_967_295) as u32,
        orientations: orientations_of(frame, mac),
    })
}

/// Whether a cell of this width at this x is on sites of the span.
fn is_on_span(span: &FreeSpan, x: i32, width: u32) -> bool {
    let step = span.step.max(1) as i64;
    let away = (x as i64).saturating_sub(span.first as i64);
    let room = step.saturating_mul(span.count as i64);
    0 <= away && away.rem_euclid(step) == 0 && away.saturating_add(width as i64) <= room
}

/// The row at this y with free sites for a cell of this width at this x.
fn row_under(free_rows: &FreeRows, x: i32, y: i64, width: u32) -> Option<&PlannerRow> {
    let first = free_rows.rows.partition_point(|row| (row.y as i64) < y);
    for row in free_rows.rows.get(first..)? {
        if row.y as i64 != y {
            return None;
        }
        let spans = free_rows.spans.get(row.first..row.last)?;
        let at = spans.partition_point(|span| span.first <= x);
        if let Some(span) = spans.get(at.saturating_sub(1)) {
            if is_on_span(span, x, width) {
                return Some(row);
            }
        }
    }
    None
}

/// The number of sites of this distance that a width takes.
fn sites_under(width: u32, step: u32) -> u32 {
    let step = step.max(1) as u64;
    ((width as u64).saturating_add(step - 1) / step).min(4_294_967_295) as u32
}

/// Whether the cell is on free sites in each of its rows, the heights of which are `step`.
fn is_on_sites(free_rows: &FreeRows, cell: &ImprovableCell, rows: i64, step: i64) -> bool {
    let place = &cell.place;
    (0..rows).all(|up| {
        let y = (place.y as i64).saturating_add(step.saturating_mul(up));
        row_under(free_rows, place.x, y, cell.width).is_some()
    })
}

/// Whether each cell of the team may move: it is placed, and covers this number of rows.
fn cells_over(
    alloc: Global,
    placement: &Placement,
    team: &PaddedTeam,
    rows: i64,
) -> Result<Vec<bool>, AllocError> {
    let ids = placement.cells().cells_of(team.team);
    let mut loose = Vec::with_capacity(alloc, ids.len())?;
    for id in ids {
        loose.push(cell_of(placement, team, *id, rows).is_some())?;
    }
    Ok(loose)
}

/// Clears the entries of the cells that are not on these sites. Returns whether there are any.
fn clear_others(
    placement: &Placement,
    team: &PaddedTeam,
    rows: i64,
    free_rows: &FreeRows,
    loose: &mut [bool],
) -> bool {
    let step = placement.frame().pitch.y;
    let mut is_cleared = false;
    for id in placement.cells().cells_of(team.team) {
        let Some(cell) = cell_of(placement, team, *id, rows) else {
            continue;
        };
        if let Some(is_loose) = loose.get_mut(id.own as usize) {
            if !is_on_sites(free_rows, &cell, rows, step) {
                *is_loose = false;
                is_cleared = true;
            }
        }
    }
    is_cleared
}

/// Whether the entry of the cell at position `own` is true.
fn is_loose(loose: &[bool], own: u32) -> bool {
    match loose.get(own as usize) {
        Some(is_loose) => *is_loose,
        None => false,
    }
}

/// Lists the cells whose entry is true. These are the free sites if they were unplaced.
fn listed_cells(
    alloc: Global,
    placement: &Placement,
    team: &PaddedTeam,
    rows: i64,
    free_rows: FreeRows,
    loose: &[bool],
) -> Result<MovableCells, AllocError> {
    let ids = placement.cells().cells_of(team.team);
    let mut cells = Vec::new(alloc);
    let mut owns = Vec::new(alloc);
    let mut positions = Vec::with_capacity(alloc, ids.len())?;
    for id in ids {
        let found = cell_of(placement, team, *id, rows);
        if let (Some(cell), true) = (found, is_loose(loose, id.own)) {
            positions.push(cells.len().min(4_294_967_295) as u32)?;
            cells.push(cell)?;
            owns.push(id.own)?;
        } else {
            positions.push(NONE)?;
        }
    }
    Ok(MovableCells {
        free_rows,
        cells,
        owns,
        positions,
    })
}

/// The team's cells over this number of rows that may move. `Err` if an allocation fails.
pub(crate) fn movable_cells(
    alloc: Global,
    placement: &Placement,
    team: &PaddedTeam,
    rows: i64,
) -> Result<MovableCells, AllocError> {
    let mut loose = cells_over(alloc, placement, team, rows)?;
    let mut free_rows = free_rows_without(alloc, placement, team, loose.as_slice())?;
    if clear_others(placement, team, rows, &free_rows, loose.as_mut_slice()) {
        free_rows = free_rows_without(alloc, placement, team, loose.as_slice())?;
    }
    listed_cells(alloc, placement, team, rows, free_rows, loose.as_slice())
}

/// Appends the sites that a cell covers in its lowest row, which is in the last row of the list or
/// after it.
fn push_footprint(
    free_rows: &FreeRows,
    cell: &ImprovableCell,
    covered: &mut FreeRows,
) -> Result<(), AllocError> {
    let CellPlace { x, y, .. } = cell.place;
    let Some(row) = row_under(free_rows, x, y as i64, cell.width) else {
        return Ok(());
    };
    let Some(span) = free_rows.spans.get(row.first) else {
        return Ok(());
    };
    let first = covered.spans.len();
    covered.spans.push(FreeSpan {
        first: x,
        step: span.step,
        count: sites_under(cell.width, span.step),
    })?;
    let last = first.saturating_add(1);
    if let Some(below) = covered.rows.last_mut() {
        if below.y == y && below.kind == row.kind {
            below.last = last;
            return Ok(());
        }
    }
    covered.rows.push(PlannerRow {
        y,
        kind: row.kind,
        first,
        last,
    })?;
    Ok(())
}

/// The sites that cells cover in their lowest rows: a span for each cell.
pub(crate) fn footprints(
    alloc: Global,
    free_rows: &FreeRows,
    cells: &[ImprovableCell],
) -> Result<FreeRows, AllocError> {
    let mut keys = Vec::with_capacity(alloc, cells.len())?;
    for (number, cell) in cells.iter().enumerate() {
        keys.push((cell.place.y, cell.place.x, number))?;
    }
    keys.sort_unstable();
    let mut covered = FreeRows::new(alloc);
    for (_, _, number) in &keys {
        if let Some(cell) = cells.get(*number) {
            push_footprint(free_rows, cell, &mut covered)?;
        }
    }
    Ok(covered)
}

/// The numbers of rows, above one, that cells of the team cover, each once.
pub(crate) fn tall_heights(
    alloc: Global,
    placement: &Placement,
    team: &PaddedTeam,
) -> Result<Vec<i64>, AllocError> {
    let height = placement.frame().site.size.y.max(1);
    let mut heights = Vec::new(alloc);
    for id in placement.cells().cells_of(team.team) {
        let Some(mac) = macro_of(placement, *id) else {
            continue;
        };
        let rows = mac.size.y.div_euclid(height);
        if 1 < rows && heights.last() != Some(&rows) {
            heights.push(rows)?;
        }
    }
    heights.sort_unstable();
    let mut each = Vec::new(alloc);
    for rows in &heights {
        if each.last() != Some(rows) {
            each.push(*rows)?;
        }
    }
    Ok(each)
}

/// The place of a cell that has moved.
pub(crate) fn place_of(place: &CellPlace) -> Place {
    let orient = match place.orientation {
        RowKind::N => Orient::N,
        RowKind::S => Orient::S,
        RowKind::FN => Orient::FN,
        RowKind::FS => Orient::FS,
    };
    Place::new(
        place.x.max(-2_147_483_647),
        place.y.max(-2_147_483_647),
        orient,
    )
}
