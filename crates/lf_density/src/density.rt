//! The density of a design.

ghost use Rattle.std.specs.Prelude.{◌≡◌, ◌≤◌, IfOk, length, map};
ghost use Rattle.std.specs.List.Sorted.{IsNonDecreasing};
ghost use Rattle.lf_segments.specs.Indexes.{IsIndexOf};
ghost use Rattle.lf_density.specs.Bins.{IsSmallGrid};
ghost use Rattle.lf_density.specs.Density.{IsDensityIn, IsDensityOf, density_by, no_density};

use crate::areas::areas_of;
use crate::fullest::{mean_of_fullest, utilizations};
use crate::grid::{BinGrid, grid_of};
use lf_floorplan::Frame;
use lf_segments::{FrameIndex, Strip};
use lf_units::Rect;
use std::alloc::{AllocError, Global};

/// How full the fullest bins of a design are. A utilization is in thousandths, rounded down.
#[derive(Clone, Copy, Debug, PartialEq, Eq)]
pub struct Density {
    /// The number of bins that count.
    pub bins: u64,
    /// The side of a bin, in database units. 0 if the bins are not measured.
    pub side: u64,
    /// The mean utilization of the fullest 2 % of the bins that count.
    pub fullest_2: u64,
    /// The same of the fullest 5 %.
    pub fullest_5: u64,
    /// The same of the fullest 10 %.
    pub fullest_10: u64,
    /// The same of the fullest 20 %.
    pub fullest_20: u64,
}

/// Returns the areas of the strips. `Err` if an allocation fails.
fn strip_boxes(alloc: Global, strips: &[Strip]) -> Result<Vec<Rect>, AllocError>
    ensures { IfOk result (λ boxes. boxes.items ≡ map (λ g. g.area) strips.now) }
{
    let mut boxes = Vec::with_capacity(alloc, strips.len())?;
    for strip in strips {
        boxes.push(strip.area)?;
    }
    Ok(boxes)
}

/// Returns the density of bins with these utilizations, in rising order.
fn density_from(side: u64, rising: &[u64]) -> Density
    requires { length rising.now ≤ 4000000 }
    ensures { result ≡ density_by side rising.now }
{
    Density {
        bins: rising.len() as u64,
        side,
        fullest_2: mean_of_fullest(rising, 2),
        fullest_5: mean_of_fullest(rising, 5),
        fullest_10: mean_of_fullest(rising, 10),
        fullest_20: mean_of_fullest(rising, 20),
    }
}

/// Returns the density of boxes over these bins, given the usable areas of rows. `Err` if an
/// allocation fails.
fn density_in(
    alloc: Global,
    grid: &BinGrid,
    usable: &[Rect],
    boxes: &[Rect],
) -> Result<Density, AllocError>
    requires { IsSmallGrid grid.now }
    ensures { IfOk result (IsDensityIn grid.now usable.now boxes.now) }
{
    let usable_areas = areas_of(alloc, grid, usable)?;
    let used_areas = areas_of(alloc, grid, boxes)?;
    let mut rising = utilizations(
        alloc,
        grid.side * grid.side,
        usable_areas.as_slice(),
        used_areas.as_slice(),
    )?;
    rising.sort_unstable();
    Ok(density_from(grid.side, rising.as_slice()))
}

/// Returns the density of a frame whose bins are not measured.
fn unmeasured() -> Density
    ensures { result ≡ no_density }
{
    Density {
        bins: 0,
        side: 0,
        fullest_2: 0,
        fullest_5: 0,
        fullest_10: 0,
        fullest_20: 0,
    }
}

/// Returns the density of a design: how full the fullest bins of the frame are with the boxes of
/// placed cells. `index` is the frame's. `Err` if an allocation fails.
///
/// The bins are not measured if a row is higher than 200,000,000 database units, or if there are
/// more than 4,000,000 bins. Then all numbers are 0.
pub fn density_of(
    alloc: Global,
    frame: &Frame,
    index: &FrameIndex,
    boxes: &[Rect],
) -> Result<Density, AllocError>
    requires { IsIndexOf frame.now index.now }
    ensures { IfOk result (IsDensityOf frame.now boxes.now) }
{
    let Some(grid) = grid_of(frame) else {
        return Ok(unmeasured());
    };
    let usable = strip_boxes(alloc, index.strips())?;
    density_in(alloc, &grid, usable.as_slice(), boxes)
}
