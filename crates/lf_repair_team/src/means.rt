//! Means of the displacements of a team's cells, over all cells and by height.

ghost use Rattle.std.specs.Prelude.{◌≡◌, ◌==◌, ◌≤◌, ◌+◌, ◌*◌, if◌then◌else◌, length};
ghost use Rattle.lf_cells.specs.Cells.{cells_of, working_at};
ghost use Rattle.lf_floorplan.specs.Boxes.{IsSized, size_of};
ghost use Rattle.lf_repair_strategy.specs.Targets.{target_at};
ghost use Rattle.lf_repair_team.specs.Stats.{count_of_height, displacement, mean_by_height, mean_in_rows, quotient, row_height, rows_at, total_of_height};
ghost use Rattle.std.specs.Int.RustNames.{unsigned_abs};

use crate::misplaced_pass::{macro_at, place_at};
use crate::outcome::target_place;
use crate::stats::displacement;
use lf_floorplan::{Frame, Macro, Place, size_in_units};
use lf_placement::Placement;

/// The first number divided by the second, rounded down. 0 if the second is 0.
fn quotient(a: u64, b: u64) -> u64
    ensures { result ≡ quotient a b }
{
    if b == 0 {
        return 0;
    }
    a / b
}

/// The mean of `count` displacements with this total, in thousandths of the height of a row.
pub(crate) fn mean_in_rows(row: u64, total: u64, count: u64) -> u64
    ensures mean { result ≡ mean_in_rows row total count }
    ensures short { total ≤ count * 8589934590 → result ≤ 8589934590000 }
{
    quotient(quotient(total.saturating_mul(1000), row), count)
}

/// The height of a row, in database units.
pub(crate) fn row_height(frame: &Frame) -> u64
    ensures { result ≡ row_height frame.now }
{
    frame.pitch.y.unsigned_abs()
}

/// The height of the macro, in database units.
fn height_of(frame: &Frame, mac: &Macro) -> u64
    requires { IsSized frame.now mac.now }
    ensures { result ≡ unsigned_abs (size_of frame.now mac.now).y }
{
    size_in_units(&mac.size, frame.header.units)
        .y
        .unsigned_abs()
}

/// How many rows high the cell at position `own` of the team with this number is, rounded down. 0 if
/// there is no such cell.
fn rows_of(placement: &Placement, number: usize, own: usize) -> u64
    ensures { result ≡ rows_at placement.now.frame (cells_of placement.now.cells number) own }
{
    let frame = placement.frame();
    match macro_at(placement, number, own) {
        Some(mac) => quotient(height_of(frame, mac), row_height(frame)),
        None => 0,
    }
}

/// The cells of one height: their number, and their total displacement.
#[derive(Clone, Copy)]
struct HeightTotals {
    count: u64,
    total: u64,
}

/// The totals with one more cell, if it is of this height.
fn with_cell(height: &HeightTotals, is_so_high: bool, way: u64) -> HeightTotals
    requires few { height.now.count ≤ 4000000 }
    requires short { height.now.total ≤ height.now.count * 8589934590 }
    requires way { way ≤ 8589934590 }
    ensures count { result.count ≡ height.now.count + (if is_so_high then 1 else 0) }
    ensures total { result.total ≡ height.now.total + (if is_so_high then way else 0) }
    ensures short { result.total ≤ result.count * 8589934590 }
{
    if !is_so_high {
        return *height;
    }
    HeightTotals {
        count: height.count + 1,
        total: height.total + way,
    }
}

/// Whether the cell at position `own` is so many rows high.
fn is_so_high(placement: &Placement, number: usize, own: usize, rows: u64) -> bool
    ensures { result ≡ (rows_at placement.now.frame (cells_of placement.now.cells number) own == rows) }
{
    rows_of(placement, number, own) == rows
}

/// The totals over the team's cells that are so many rows high, given each cell's original place.
fn totals_of_height(
    placement: &Placement,
    number: usize,
    targets: &[Option<Place>],
    rows: u64,
) -> HeightTotals
    ensures count { result.count ≡ count_of_height
        (rows_at placement.now.frame (cells_of placement.now.cells number)) (length (cells_of placement.now.cells number))
        rows }
    ensures total { result.total ≡ total_of_height
        (rows_at placement.now.frame (cells_of placement.now.cells number))
        (λ own. displacement (target_at targets.now own) (working_at (cells_of placement.now.cells number) own))
        (length (cells_of placement.now.cells number)) rows }
    ensures short { result.total ≤ result.count * 8589934590 }
{
    placement.cells_are_sized();
    let mut height = HeightTotals { count: 0, total: 0 };
    let count = placement.cells().cells_of(number).len();
    for own in 0..count {
        let is_counted = is_so_high(placement, number, own, rows);
        let way = displacement(target_place(targets, own), place_at(placement, number, own));
        height = with_cell(&height, is_counted, way);
    }
    height
}

/// The mean over the heights from 1 to 8 rows that occur, of the means over the team's cells of each
/// height, given each cell's original place.
pub(crate) fn mean_by_height(placement: &Placement, number: usize, targets: &[Option<Place>]) -> u64
    ensures { result ≡ mean_by_height (row_height placement.now.frame)
        (rows_at placement.now.frame (cells_of placement.now.cells number))
        (λ own. displacement (target_at targets.now own) (working_at (cells_of placement.now.cells number) own))
        (length (cells_of placement.now.cells number)) }
{
    let row = row_height(placement.frame());
    let mut heights = 0u64;
    let mut means = 0u64;
    for lower in 0..8u64 {
        let height = totals_of_height(placement, number, targets, lower + 1);
        heights += height.count.min(1);
        means += mean_in_rows(row, height.total, height.count);
    }
    quotient(means, heights)
}
