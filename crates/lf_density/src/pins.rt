//! The number of pins in the fullest bins.

ghost use Rattle.std.specs.Prelude.{◌≡◌, ◌+◌, ◌*◌, ◌<◌, ◌≤◌, IfOk, IfSome, length};
ghost use Rattle.lf_density.specs.Bins.{IsSmallGrid};
ghost use Rattle.lf_density.specs.Pins.{IsPinDensityIn, IsPinDensityOf, bin_at, bin_counts, no_pin_density, part_at, pin_density_by, with_point};

use crate::areas::add_at;
use crate::fullest::mean_of_fullest;
use crate::grid::{BinGrid, grid_of, past};
use lf_floorplan::Frame;
use lf_units::Point;
use std::alloc::{AllocError, Global};

/// How many pins the fullest bins of a design have. A mean is rounded down.
#[derive(Clone, Copy, Debug, PartialEq, Eq)]
pub struct PinDensity {
    /// The mean number of pins of the fullest 2 % of all bins.
    pub fullest_2: u64,
    /// The same of the fullest 5 %.
    pub fullest_5: u64,
    /// The same of the fullest 10 %.
    pub fullest_10: u64,
    /// The same of the fullest 20 %.
    pub fullest_20: u64,
}

/// Returns the number of the part that contains the coordinate, of as many parts of this length
/// from the edge on. `None` if no part contains it.
fn part_at(edge: &i64, part: u64, parts: u64, z: &i64) -> Option<u64>
    requires { 0 < part }
    ensures is { result ≡ part_at edge.now part parts z.now }
    ensures below { IfSome result (λ number. number < parts) }
{
    if *z < *edge {
        return None;
    }
    let number = past(edge, z) / part;
    if number < parts { Some(number) } else { None }
}

/// Returns the number of the bin in this column and row.
fn bin_in(grid: &BinGrid, column: u64, row: u64) -> u64
    requires small { IsSmallGrid grid.now }
    requires column { column < grid.now.columns }
    requires row { row < grid.now.rows }
    ensures is { result ≡ row * grid.now.columns + column }
    ensures below { result < grid.now.columns * grid.now.rows }
{
    row * grid.columns + column
}

/// Returns the number of the bin that contains the point. `None` if no bin contains it.
fn bin_at(grid: &BinGrid, point: &Point) -> Option<u64>
    requires { IsSmallGrid grid.now }
    ensures is { result ≡ bin_at grid.now point.now }
    ensures below { IfSome result (λ number. number < grid.now.columns * grid.now.rows) }
{
    let column = part_at(&grid.left, grid.side, grid.columns, &point.x)?;
    let row = part_at(&grid.bottom, grid.side, grid.rows, &point.y)?;
    Some(bin_in(grid, column, row))
}

/// Counts the point in the bin that contains it, if there is one.
fn count_point(grid: &BinGrid, counts: &mut Vec<u64>, point: &Point)
    requires small { IsSmallGrid grid.now }
    requires many { length counts.old.items ≡ grid.now.columns * grid.now.rows }
    ensures many { length counts.new.items ≡ length counts.old.items }
    ensures is { counts.new.items ≡ with_point (bin_at grid.now point.now) counts.old.items }
{
    let Some(number) = bin_at(grid, point) else {
        return;
    };
    add_at(counts, number as usize, 1);
}

/// Returns the number of points in each bin, row by row. `Err` if an allocation fails.
#[tactic(auto, using(crate::proofs::PinLists::next_point))]
fn counts_of(alloc: Global, grid: &BinGrid, points: &[Point]) -> Result<Vec<u64>, AllocError>
    requires small { IsSmallGrid grid.now }
    ensures is { IfOk result (λ counts. counts.items ≡ bin_counts grid.now points.now) }
    ensures many { IfOk result (λ counts. length counts.items ≡ grid.now.columns * grid.now.rows) }
{
    let mut counts = vec![in alloc; 0; (grid.columns * grid.rows) as usize]?;
    for point in points {
        count_point(grid, &mut counts, point);
    }
    Ok(counts)
}

/// Returns the pin density of bins with these numbers of pins, in rising order.
fn pin_density_from(rising: &[u64]) -> PinDensity
    requires { length rising.now ≤ 4000000 }
    ensures { result ≡ pin_density_by rising.now }
{
    PinDensity {
        fullest_2: mean_of_fullest(rising, 2),
        fullest_5: mean_of_fullest(rising, 5),
        fullest_10: mean_of_fullest(rising, 10),
        fullest_20: mean_of_fullest(rising, 20),
    }
}

/// Returns the pin density of pins at these points over these bins. `Err` if an allocation fails.
fn pin_density_in(alloc: Global, grid: &BinGrid, points: &[Point]) -> Result<PinDensity, AllocError>
    requires { IsSmallGrid grid.now }
    ensures { IfOk result (IsPinDensityIn grid.now points.now) }
{
    let mut rising = counts_of(alloc, grid, points)?;
    rising.sort_unstable();
    Ok(pin_density_from(rising.as_slice()))
}

/// Returns the pin density of a frame whose bins are not measured.
fn unmeasured() -> PinDensity
    ensures { result ≡ no_pin_density }
{
    PinDensity {
        fullest_2: 0,
        fullest_5: 0,
        fullest_10: 0,
        fullest_20: 0,
    }
}

/// Returns the pin density of a design, given the points of its pins: how many pins the fullest
/// bins of the frame have. `Err` if an allocation fails.
///
/// A bin contains its left and lower edges, and not its right and upper ones. A point outside the
/// bins does not count. All numbers are 0 if the bins are not measured (`density_of`).
pub fn pin_density_of(
    alloc: Global,
    frame: &Frame,
    points: &[Point],
) -> Result<PinDensity, AllocError>
    ensures { IfOk result (IsPinDensityOf frame.now points.now) }
{
    match grid_of(frame) {
        Some(grid) => pin_density_in(alloc, &grid, points),
        None => Ok(unmeasured()),
    }
}
