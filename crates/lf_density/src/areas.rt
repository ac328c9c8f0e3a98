//! The areas of boxes in bins.

ghost use Rattle.std.specs.Prelude.{◌≡◌, ◌≢◌, ◌+◌, ◌*◌, ◌≤◌, ◌<◌, ℕ, IfOk, length, slice_index, slice_set};
ghost use Rattle.lf_density.specs.Bins.{IsSmallGrid, area_in, bin_areas, capped, shared as shared_length, shared_with as shared_part};

use crate::grid::{BinGrid, past};
use lf_units::Rect;
use std::alloc::{AllocError, Global};

/// Returns the length that the range from `a` to `b` shares with the range from `c` to `d`.
fn shared(a: u64, b: u64, c: u64, d: u64) -> u64
    ensures { result ≡ shared_length a b c d }
{
    b.min(d).saturating_sub(a.max(c))
}

/// Returns the length that the range from `a` to `b` shares with the part of this number, of all
/// parts of this length.
fn shared_with(part: u64, a: u64, b: u64, number: u64) -> u64
    requires low { number ≤ 4000000 }
    requires short { part ≤ 1000000000 }
    ensures is { result ≡ shared_part part a b number }
    ensures short { result ≤ 1000000000 }
{
    let edge = number * part;
    shared(a, b, edge, edge + part)
}

/// Adds the area to the one at this position.
pub(crate) fn add_at(areas: &mut Vec<u64>, at: usize, area: u64)
    requires { at < length areas.old.items }
    ensures { areas.new.items ≡ slice_set areas.old.items at (capped (slice_index areas.old.items at + area)) }
{
    areas[at] = areas[at].saturating_add(area);
}

/// Adds, for each bin of a row of the grid, the area that it shares with a box from `x1` to `x2`
/// that covers `high` of the row's height.
fn add_to_row(grid: &BinGrid, areas: &mut Vec<u64>, row: u64, x1: u64, x2: u64, high: u64)
    requires small { IsSmallGrid grid.now }
    requires many { length areas.old.items ≡ grid.now.columns * grid.now.rows }
    requires row { row < grid.now.rows }
    requires high { high ≤ 1000000000 }
    ensures many { length areas.new.items ≡ length areas.old.items }
    ensures here { (column : ℕ) → column < grid.now.columns
        → slice_index areas.new.items (row * grid.now.columns + column)
        ≡ capped (slice_index areas.old.items (row * grid.now.columns + column)
        + shared_part grid.now.side x1 x2 column * high) }
    ensures others { (column other : ℕ) → column < grid.now.columns → other ≢ row
        → slice_index areas.new.items (other * grid.now.columns + column)
        ≡ slice_index areas.old.items (other * grid.now.columns + column) }
{
    let first = x1 / grid.side;
    let end = (x2 / grid.side).saturating_add(1).min(grid.columns);
    for column in first..end {
        let wide = shared_with(grid.side, x1, x2, column);
        add_at(areas, (row * grid.columns + column) as usize, wide * high);
    }
}

/// Adds, for each bin, the area that it shares with the box.
fn add_box(grid: &BinGrid, areas: &mut Vec<u64>, rect: &Rect)
    requires small { IsSmallGrid grid.now }
    requires many { length areas.old.items ≡ grid.now.columns * grid.now.rows }
    ensures many { length areas.new.items ≡ length areas.old.items }
    ensures each { (column row : ℕ) → column < grid.now.columns → row < grid.now.rows
        → slice_index areas.new.items (row * grid.now.columns + column)
        ≡ capped (slice_index areas.old.items (row * grid.now.columns + column)
        + area_in grid.now column row rect.now) }
{
    let (x1, x2) = (past(&grid.left, &rect.x1), past(&grid.left, &rect.x2));
    let (y1, y2) = (past(&grid.bottom, &rect.y1), past(&grid.bottom, &rect.y2));
    let first = y1 / grid.side;
    let end = (y2 / grid.side).saturating_add(1).min(grid.rows);
    for row in first..end {
        let high = shared_with(grid.side, y1, y2, row);
        add_to_row(grid, areas, row, x1, x2, high);
    }
}

/// Returns the area of the boxes in each bin, row by row. `Err` if an allocation fails.
pub(crate) fn areas_of(
    alloc: Global,
    grid: &BinGrid,
    boxes: &[Rect],
) -> Result<Vec<u64>, AllocError>
    requires small { IsSmallGrid grid.now }
    ensures is { IfOk result (λ areas. areas.items ≡ bin_areas grid.now boxes.now) }
    ensures many { IfOk result (λ areas. length areas.items ≡ grid.now.columns * grid.now.rows) }
{
    let mut areas = vec![in alloc; 0; (grid.columns * grid.rows) as usize]?;
    for rect in boxes {
        add_box(grid, &mut areas, rect);
    }
    Ok(areas)
}
