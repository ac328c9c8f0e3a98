//! The order in which cells are placed. Wide cells come first, and cells near each other are far
//! apart in the order.

ghost use Rattle.std.specs.Prelude.{◌<◌};

use crate::passes::PlannerInput;
use crate::plan::PlannerCell;
use crate::search_limits::number_of;
use std::alloc::{AllocError, Global};

/// The side of a tile, in rows.
const TILE: i64 = 64;

/// The sort key of a cell.
#[derive(Clone, Copy, PartialEq, Eq, PartialOrd, Ord)]
struct Key {
    /// The farther the cell's nearest place on empty rows, the less. It is the same for all cells
    /// that have a near place.
    nearness: i64,
    class: u8,
    tile_y: i32,
    tile_x: i32,
    /// The cell's number, scrambled.
    scattered: u32,
    number: u32,
}

/// The mean width of the cells, at least 1.
fn mean_width(cells: &[PlannerCell]) -> u64
    ensures { 0 < result }
{
    let mut sum: u64 = 0;
    for cell in cells {
        sum = sum.saturating_add(cell.width as u64);
    }
    (sum / (cells.len() as u64).max(1)).max(1)
}

/// The class of a width: at least four times the mean, at least twice, at least once, or less.
fn class_of(width: u32, mean: u64) -> u8 {
    let width = width as u64;
    if mean.saturating_mul(4) <= width {
        0
    } else if mean.saturating_mul(2) <= width {
        1
    } else if mean <= width {
        2
    } else {
        3
    }
}

/// The number of the tile in which a coordinate lies.
fn tile_of(coordinate: i32, height: u32) -> i32 {
    let tile = (coordinate as i64).div_euclid((height.max(1) as i64) * TILE);
    tile.clamp(-2_147_483_648, 2_147_483_647) as i32
}

fn key_of(cell: &PlannerCell, number: u32, away: i64, mean: u64, height: u32) -> Key {
    let nearness = if (height as i64) < away {
        -away.max(0)
    } else {
        0
    };
    Key {
        nearness,
        class: class_of(cell.width, mean),
        tile_y: tile_of(cell.y, height),
        tile_x: tile_of(cell.x, height),
        scattered: number.wrapping_mul(2_654_435_761),
        number,
    }
}

/// The sort keys of cells.
#[derive(Drop)]
pub(crate) struct OrderKeys {
    mean: u64,
    height: u32,
    keys: Vec<Key>,
}

impl OrderKeys {
    /// No keys, with room for those of all cells.
    pub(crate) fn with_capacity(
        alloc: Global,
        input: &PlannerInput,
    ) -> Result<OrderKeys, AllocError> {
        Ok(OrderKeys {
            mean: mean_width(input.cells),
            height: input.height,
            keys: Vec::with_capacity(alloc, input.cells.len())?,
        })
    }

    /// Adds a cell. `away` is the distance of its nearest place on empty rows.
    pub(crate) fn push(
        &mut self,
        number: u32,
        cell: &PlannerCell,
        away: i64,
    ) -> Result<(), AllocError> {
        let key = key_of(cell, number, away, self.mean, self.height);
        self.keys.push(key)?;
        Ok(())
    }

    /// The numbers of the cells in the order of their keys.
    pub(crate) fn into_order(self, alloc: Global) -> Result<Vec<u32>, AllocError> {
        let OrderKeys { mut keys, .. } = self;
        keys.sort_unstable();
        let mut order = Vec::with_capacity(alloc, keys.len())?;
        for key in &keys {
            order.push(key.number)?;
        }
        Ok(order)
    }
}

/// The sort key of a cell in the order by widths.
#[derive(Clone, Copy, PartialEq, Eq, PartialOrd, Ord)]
struct Width {
    /// The wider, the less.
    narrowness: u32,
    /// The cell's number, scrambled.
    scattered: u32,
    number: u32,
}

/// The numbers of the cells, the widest first.
pub(crate) fn widest_first(alloc: Global, cells: &[PlannerCell]) -> Result<Vec<u32>, AllocError> {
    let mut widths = Vec::with_capacity(alloc, cells.len())?;
    for (number, cell) in cells.iter().enumerate() {
        let number = number_of(number);
        widths.push(Width {
            narrowness: u32::MAX - cell.width,
            scattered: number.wrapping_mul(2_654_435_761),
            number,
        })?;
    }
    widths.sort_unstable();
    let mut order = Vec::with_capacity(alloc, widths.len())?;
    for width in &widths {
        order.push(width.number)?;
    }
    Ok(order)
}
