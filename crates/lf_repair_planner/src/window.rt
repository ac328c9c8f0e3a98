//! The cells of a window around a cell or around its target.

use crate::free_rows::{FreeSpan, PlannerRow};
use crate::packed_cell::PackedCell;
use crate::passes::PlannerInput;
use crate::plan::PlannerCell;
use crate::plan_state::{Gap, PlanState};
use crate::scramble::Scramble;
use crate::tall::upper_number;
use std::alloc::AllocError;

/// The least number of sites of a window on each side of its middle.
const LEAST_SITES: u32 = 12;

/// The middle of a window, and its width on each side, in database units.
#[derive(Clone, Copy)]
struct Window {
    x: i64,
    y: i64,
    half: i64,
}

/// A window around the cell's place or around its target, by chance.
fn random_window(
    input: &PlannerInput,
    number: u32,
    place: Option<Gap>,
    random: &mut Scramble,
) -> Option<Window> {
    let planner_cell = input.cells.get(number as usize)?;
    let around_place = random.below(2) == 0;
    let sites = LEAST_SITES + random.below(2 * LEAST_SITES);
    let pitch = input.free_rows.spans.first()?.pitch();
    let half = pitch.saturating_mul(sites as i64);
    if around_place {
        if let Some(gap) = place {
            let span = input.free_rows.spans.get(gap.span)?;
            let x = span.pitch().saturating_mul(gap.cell.at as i64);
            return Some(Window {
                x: x.saturating_add(span.first as i64),
                y: input.row_of(gap.span)?.y as i64,
                half,
            });
        }
    }
    Some(Window {
        x: planner_cell.x as i64,
        y: planner_cell.y as i64,
        half,
    })
}

/// Lists the cells of a span that begin in the window, each once, and not the cell with this number.
fn list_cells(
    planner_cells: &[PlannerCell],
    sites: &FreeSpan,
    cells: &[PackedCell],
    window: &Window,
    number: u32,
    pool: &mut Vec<u32>,
) -> Result<(), AllocError> {
    let pitch = sites.pitch();
    let middle = window.x.saturating_sub(sites.first as i64);
    let low = middle.saturating_sub(window.half).div_euclid(pitch);
    let high = middle.saturating_add(window.half).div_euclid(pitch);
    let begin = cells.partition_point(|cell| (cell.at as i64) < low);
    for cell in &cells[begin..] {
        if high < cell.at as i64 {
            return Ok(());
        }
        let (listed, rows) = match planner_cells.get(cell.number as usize) {
            Some(planner_cell) => (cell.number, planner_cell.rows),
            None => (upper_number(cell.number), 2),
        };
        if listed == number || (1 < rows && pool.contains(&listed)) {
            continue;
        }
        pool.push(listed)?;
    }
    Ok(())
}

/// Lists the cells of a row that begin in the window.
fn list_row(
    input: &PlannerInput,
    state: &PlanState,
    row: &PlannerRow,
    window: &Window,
    number: u32,
    pool: &mut Vec<u32>,
) -> Result<(), AllocError> {
    let spans = input
        .free_rows
        .spans
        .get(row.first..row.last)
        .unwrap_or(&[]);
    let low = window.x.saturating_sub(window.half);
    let high = window.x.saturating_add(window.half);
    let begin = spans.partition_point(|span| span.end() <= low);
    for (away, sites) in spans[begin..].iter().enumerate() {
        if high < sites.first as i64 {
            return Ok(());
        }
        let span = row.first.saturating_add(begin).saturating_add(away);
        if let Some(segment) = state.segments.get(span) {
            let cells = segment.as_slice();
            list_cells(input.cells, sites, cells, window, number, pool)?;
        }
    }
    Ok(())
}

/// Lists the other cells of a window of three rows around a cell's place or around its target.
pub(crate) fn list_window(
    input: &PlannerInput,
    state: &PlanState,
    number: u32,
    place: Option<Gap>,
    random: &mut Scramble,
    pool: &mut Vec<u32>,
) -> Result<(), AllocError> {
    pool.clear();
    let Some(window) = random_window(input, number, place, random) else {
        return Ok(());
    };
    let height = input.height as i64;
    let up = height.saturating_mul(random.below(2) as i64);
    let below = window.y.saturating_add(up).saturating_sub(2 * height);
    let above = window.y.saturating_add(up).saturating_add(height);
    let begin = input
        .free_rows
        .rows
        .partition_point(|row| row.y as i64 <= below);
    for row in &input.free_rows.rows.as_slice()[begin..] {
        if above < row.y as i64 {
            return Ok(());
        }
        list_row(input, state, row, &window, number, pool)?;
    }
    Ok(())
}
