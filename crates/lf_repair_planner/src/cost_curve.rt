//! The cost of the displacements of cells while one cell moves along its row.

ghost use Rattle.std.specs.Prelude.{◌≡◌, ◌≤◌, ◌<◌};

use crate::packed_cell::PackedCell;
use crate::packed_insertion::SearchEffort;
use std::alloc::{AllocError, Global};

/// A site at which the slope changes, and the change.
#[derive(Clone, Copy)]
struct Breakpoint {
    at: u32,
    bend: i64,
}

/// A cost in database units over the sites of a range, as a piecewise linear function. It has the
/// value and the slope at the first site, and the breakpoints after it in rising order. Cells that
/// are added to it count their sites from a site `shift` to the left of those of the curve. Sums
/// saturate.
#[derive(Drop)]
pub struct CostCurve {
    low: u32,
    high: u32,
    /// The distance of sites, in database units.
    pitch: i64,
    shift: i64,
    value: i64,
    slope: i64,
    kinks: Vec<Breakpoint>,
}

/// A site where a curve is least, and its value there.
#[derive(Clone, Copy)]
pub struct Least {
    pub at: u32,
    pub value: i64,
}

/// The lesser of the least value so far and the curve's value at a site.
fn lesser(least: Least, at: u32, value: i64) -> Least {
    if value < least.value {
        Least { at, value }
    } else {
        least
    }
}

/// The site at or right of the cell's target.
fn site_after(cell: &PackedCell) -> i64 {
    let wanted = cell.wanted as i64;
    if cell.offset == 0 { wanted } else { wanted + 1 }
}

/// Moves the last breakpoint in front of those that are right of it.
fn sift_last(kinks: &mut [Breakpoint]) {
    let mut place = kinks.len();
    while 1 < place {
        place -= 1;
        let (before, kink) = (kinks[place - 1], kinks[place]);
        if before.at <= kink.at {
            return;
        }
        kinks[place - 1] = kink;
        kinks[place] = before;
    }
}

/// Inserts a breakpoint after those that are not right of it.
fn insert_breakpoint(kinks: &mut Vec<Breakpoint>, kink: Breakpoint) -> Result<(), AllocError> {
    kinks.push(kink)?;
    sift_last(kinks.as_mut_slice());
    Ok(())
}

impl CostCurve {
    /// The curve of no cells, which allocates nothing. It serves as working memory for
    /// `try_insertion`.
    pub fn new(alloc: Global) -> CostCurve {
        CostCurve {
            low: 0,
            high: 0,
            pitch: 1,
            shift: 0,
            value: 0,
            slope: 0,
            kinks: Vec::new(alloc),
        }
    }

    /// Restarts with no cells, over these sites, which are `pitch` database units apart.
    pub fn begin(&mut self, low: u32, high: u32, pitch: u32) {
        self.low = low;
        self.high = high;
        self.pitch = pitch as i64;
        self.shift = 0;
        self.value = 0;
        self.slope = 0;
        self.kinks.clear();
    }

    /// Sets the distance from the first site of the cells that are added next to that of the curve.
    pub(crate) fn set_shift(&mut self, shift: i64) {
        self.shift = shift;
    }

    /// Adds to the value and to the slope at the first site.
    fn raise(&mut self, value: i64, slope: i64) {
        self.value = self.value.saturating_add(value);
        self.slope = self.slope.saturating_add(slope);
    }

    /// Increases the slope by `bend` from this site on.
    fn bend(&mut self, at: i64, bend: i64) -> Result<(), AllocError> {
        if at <= self.low as i64 {
            self.raise(0, bend);
            return Ok(());
        }
        if self.high as i64 <= at {
            return Ok(());
        }
        insert_breakpoint(
            &mut self.kinks,
            Breakpoint {
                at: at as u32,
                bend,
            },
        )
    }

    /// Turns the slope from left to right where a cell passes its target: at `wanted` and, if the
    /// target is between two sites, at the next one. The slope is `unit` on both sides.
    fn turn(&mut self, wanted: i64, unit: i64, offset: i64) -> Result<(), AllocError> {
        self.bend(wanted, unit.saturating_sub(offset).saturating_mul(2))?;
        if offset == 0 {
            return Ok(());
        }
        self.bend(wanted.saturating_add(1), offset.saturating_mul(2))
    }

    /// The displacement of a cell that is this number of sites right of its target's site.
    fn displacement(&self, sites: i64, offset: u32) -> i64 {
        sites
            .saturating_mul(self.pitch)
            .saturating_sub(offset as i64)
            .saturating_abs()
    }

    /// Adds the displacement of the moved cell.
    pub fn add_own(&mut self, cell: &PackedCell, effort: &SearchEffort) -> Result<(), AllocError> {
        let (wanted, near, low) = (cell.wanted as i64, effort.near as i64, self.low as i64);
        let after = site_after(cell);
        let factor = effort.factor as i64;
        let unit = self.pitch.saturating_mul(factor);
        let more = (effort.weight as i64 - 1).saturating_mul(unit);
        let left = wanted.saturating_sub(near);
        let right = after.saturating_add(near);
        let beyond = left
            .saturating_sub(low)
            .max(low.saturating_sub(right))
            .max(0);
        let way = self
            .displacement(low.saturating_sub(wanted), cell.offset)
            .saturating_mul(factor);
        self.raise(
            way.saturating_add(beyond.saturating_mul(more)),
            0i64.saturating_sub(unit).saturating_sub(more),
        );
        self.bend(left, more)?;
        self.turn(wanted, unit, (cell.offset as i64).saturating_mul(factor))?;
        self.bend(right, more)
    }

    /// Adds a cell that is pushed to the left if the moved one comes nearer than this distance.
    pub(crate) fn add_left(&mut self, cell: &PackedCell, distance: u32) -> Result<(), AllocError> {
        let (at, wanted, distance) = (cell.at as i64, cell.wanted as i64, distance as i64);
        let low = (self.low as i64).saturating_add(self.shift);
        let pushed = at.min(low.saturating_sub(distance));
        let grown = self
            .displacement(pushed.saturating_sub(wanted), cell.offset)
            .saturating_sub(self.displacement(at - wanted, cell.offset));
        let pitch = self.pitch;
        self.raise(grown, 0i64.saturating_sub(pitch));
        let free = (at + distance).saturating_sub(self.shift);
        if at <= wanted {
            return self.bend(free, pitch);
        }
        let target = (wanted + distance).saturating_sub(self.shift);
        self.turn(target, pitch, cell.offset as i64)?;
        self.bend(free, 0i64.saturating_sub(pitch))
    }

    /// Adds a cell that is pushed to the right if the moved one comes nearer than this distance.
    pub(crate) fn add_right(&mut self, cell: &PackedCell, distance: u32) -> Result<(), AllocError> {
        let (at, wanted, distance) = (cell.at as i64, cell.wanted as i64, distance as i64);
        let low = (self.low as i64).saturating_add(self.shift);
        let pushed = at.max(low.saturating_add(distance));
        let grown = self
            .displacement(pushed.saturating_sub(wanted), cell.offset)
            .saturating_sub(self.displacement(at - wanted, cell.offset));
        let pitch = self.pitch;
        self.raise(grown, 0);
        let free = (at - distance).saturating_sub(self.shift);
        if site_after(cell) <= at {
            return self.bend(free, pitch);
        }
        self.bend(free, 0i64.saturating_sub(pitch))?;
        let target = (wanted - distance).saturating_sub(self.shift);
        self.turn(target, pitch, cell.offset as i64)
    }

    /// The site where the curve is least; the first if there are several.
    pub fn least(&self) -> Least {
        let mut at = self.low;
        let mut value = self.value;
        let mut slope = self.slope;
        let mut least = Least { at, value };
        for kink in &self.kinks {
            value = value.saturating_add(slope.saturating_mul(kink.at as i64 - at as i64));
            at = kink.at;
            slope = slope.saturating_add(kink.bend);
            least = lesser(least, at, value);
        }
        let rest = self.high as i64 - at as i64;
        value = value.saturating_add(slope.saturating_mul(rest));
        lesser(least, self.high, value)
    }
}
