//! Runs of free sites, and the levels that they form.

ghost use Rattle.std.specs.Prelude.{◌<ℤ◌, pos};

use crate::limits::{coordinate, count_of, doubled, number_of};
use lf_repair_planner::{FreeRows, FreeSpan, PlannerRow, RowKind};
use std::alloc::{AllocError, Global};

/// A free span of a row: `count` sites at a distance of `step` database units, the first at
/// (`first`, `y`). `base` is the position of the first site in the list of all sites.
#[derive(Clone, Copy)]
pub struct SiteRun {
    pub(crate) first: i32,
    pub(crate) y: i32,
    pub(crate) step: u32,
    pub count: u32,
    pub(crate) base: usize,
    pub kind: RowKind,
}

impl SiteRun {
    /// The distance of neighboring sites, at least 1.
    pub(crate) fn pitch(&self) -> i64
        ensures some { pos 0 <ℤ result }
        ensures short { result <ℤ pos 4294967296 }
    {
        self.step.max(1) as i64
    }

    /// The x of a site, in database units.
    pub(crate) fn x_of(&self, site: u32) -> i64 {
        (self.first as i64).saturating_add(self.pitch().saturating_mul(site as i64))
    }

    /// The x of a site, in half database units.
    pub fn doubled_x(&self, site: u32) -> i32 {
        doubled(self.x_of(site))
    }

    /// The y of the run, in half database units.
    pub fn doubled_y(&self) -> i32 {
        doubled(self.y as i64)
    }

    /// The number of the site at an x in database units. `None` if there is none.
    fn site_at(&self, x: i32) -> Option<u32> {
        let site = count_of(self.site_near(doubled(x as i64)));
        if site < self.count && self.x_of(site) == x as i64 {
            Some(site)
        } else {
            None
        }
    }

    /// The number of the site nearest to an x in half database units. It may be less than 0, or
    /// past the last site.
    pub fn site_near(&self, x: i32) -> i64 {
        let pitch = self.pitch();
        (x as i64 - 2 * self.first as i64 + pitch).div_euclid(2 * pitch)
    }

    /// The x that is `reach` sites after the last site, in half database units.
    pub fn last_near(&self, reach: i64) -> i32 {
        let sites = (self.count as i64).saturating_add(reach);
        doubled((self.first as i64).saturating_add(self.pitch().saturating_mul(sites)))
    }

    /// The number of sites that a width in database units takes.
    pub(crate) fn sites_for(&self, width: u32) -> i64 {
        let pitch = self.pitch();
        (width as i64 + pitch - 1) / pitch
    }
}

/// The runs of one y, by their positions in the list of runs: from `first` on and below `last`.
#[derive(Clone, Copy)]
pub struct Level {
    pub(crate) y: i32,
    pub(crate) first: usize,
    pub(crate) last: usize,
}

impl Level {
    /// The number of the level's run at this position.
    pub fn run_at(&self, position: usize) -> u32 {
        number_of(self.first.saturating_add(position))
    }
}

/// Runs of free sites by rising y and x, and their levels by rising y.
#[derive(Drop)]
pub struct SiteRuns {
    runs: Vec<SiteRun>,
    levels: Vec<Level>,
    /// The number of all sites.
    pub(crate) sites: usize,
}

/// The order of a run: its y and x, and the positions of its row and its span.
#[derive(Clone, Copy, PartialEq, Eq, PartialOrd, Ord)]
struct RunKey {
    y: i32,
    first: i32,
    row: usize,
    span: usize,
}

/// The keys of the spans of a row.
fn push_keys(
    keys: &mut Vec<RunKey>,
    free_rows: &FreeRows,
    number: usize,
    row: &PlannerRow,
) -> Result<(), AllocError> {
    for span in row.first..row.last.min(free_rows.spans.len()) {
        if let Some(sites) = free_rows.spans.get(span) {
            keys.push(RunKey {
                y: row.y,
                first: sites.first,
                row: number,
                span,
            })?;
        }
    }
    Ok(())
}

/// The keys of the spans of all rows, in their order.
fn sorted_keys(alloc: Global, free_rows: &FreeRows) -> Result<Vec<RunKey>, AllocError> {
    let mut keys = Vec::with_capacity(alloc, free_rows.spans.len())?;
    for (number, row) in free_rows.rows.iter().enumerate() {
        push_keys(&mut keys, free_rows, number, row)?;
    }
    keys.sort_unstable();
    Ok(keys)
}

impl SiteRuns {
    /// The runs of all rows.
    pub(crate) fn new(alloc: Global, free_rows: &FreeRows) -> Result<SiteRuns, AllocError> {
        let keys = sorted_keys(alloc, free_rows)?;
        let mut made = SiteRuns {
            runs: Vec::with_capacity(alloc, keys.len())?,
            levels: Vec::new(alloc),
            sites: 0,
        };
        for key in &keys {
            if let (Some(row), Some(span)) = (
                free_rows.rows.get(key.row),
                free_rows.spans.get(key.span),
            ) {
                made.push(row, span)?;
            }
        }
        Ok(made)
    }

    /// Adds a span of a row. It is in the last level or above it.
    fn push(&mut self, row: &PlannerRow, span: &FreeSpan) -> Result<(), AllocError> {
        let number = self.runs.len();
        self.runs.push(SiteRun {
            first: span.first,
            y: row.y,
            step: span.step,
            count: span.count,
            base: self.sites,
            kind: row.kind,
        })?;
        self.sites = self.sites.saturating_add(span.count as usize);
        if let Some(level) = self.levels.last_mut() {
            if level.y == row.y {
                level.last = number.saturating_add(1);
                return Ok(());
            }
        }
        self.levels.push(Level {
            y: row.y,
            first: number,
            last: number.saturating_add(1),
        })?;
        Ok(())
    }

    /// The run at this position.
    pub fn get(&self, run: u32) -> Option<&SiteRun> {
        self.runs.get(run as usize)
    }

    /// The runs of a level.
    pub fn of_level(&self, level: &Level) -> &[SiteRun] {
        self.runs.get(level.first..level.last).unwrap_or(&[])
    }

    /// The number of the run of a level that is nearest to an x in half database units.
    pub fn run_near(&self, level: &Level, x: i32) -> Option<u32> {
        let runs = self.of_level(level);
        let after = runs.partition_point(|run| doubled(run.first as i64) <= x);
        let mut position = after.saturating_sub(1);
        if let (Some(left), Some(right)) = (runs.get(position), runs.get(after)) {
            let away = (x as i64).saturating_sub(left.last_near(0) as i64);
            if (doubled(right.first as i64) as i64).saturating_sub(x as i64) < away {
                position = after;
            }
        }
        Some(level.run_at(position))
    }

    /// The level at this y, in database units.
    fn level_at(&self, y: i32) -> Option<&Level> {
        let position = self.levels.as_slice().partition_point(|level| level.y < y);
        let level = self.levels.get(position)?;
        if level.y == y { Some(level) } else { None }
    }

    /// The position of the level nearest to a y in half database units.
    pub fn level_near(&self, y: i32) -> usize {
        let levels = self.levels.as_slice();
        let above = levels.partition_point(|level| doubled(level.y as i64) < y);
        let Some(below) = above.checked_sub(1) else {
            return above;
        };
        let (Some(lower), Some(upper)) = (levels.get(below), levels.get(above)) else {
            return below;
        };
        let down = y as i64 - doubled(lower.y as i64) as i64;
        let up = doubled(upper.y as i64) as i64 - y as i64;
        if down < up { below } else { above }
    }

    /// The level that is visited in this step of a search outward from `middle`: this one, the one
    /// above, the one below, the second above, and so on.
    pub fn level_by(&self, middle: usize, step: u32) -> Option<Level> {
        let away = (step / 2) as usize;
        let position = if step % 2 == 0 {
            middle.checked_sub(away)?
        } else {
            middle.checked_add(away)?.checked_add(1)?
        };
        self.levels.get(position).copied()
    }

    /// The run that has a site at this point in database units, by its position, and the number of
    /// the site.
    pub(crate) fn site_at(&self, x: i32, y: i32) -> Option<(u32, u32)> {
        let level = self.level_at(y)?;
        let runs = self.of_level(level);
        let after = runs.partition_point(|run| run.first <= x);
        let position = after.checked_sub(1)?;
        let run = runs.get(position)?;
        Some((level.run_at(position), run.site_at(x)?))
    }

    /// The least difference of two levels' y, at least 1: the height of a row.
    pub fn height(&self) -> i64
        ensures some { pos 0 <ℤ result }
        ensures short { result <ℤ pos 4294967296 }
    {
        let mut height = u32::MAX;
        let mut last = None;
        for level in &self.levels {
            if let Some(y) = last {
                height = height.min(level.y.abs_diff(y));
            }
            last = Some(level.y);
        }
        height.max(1) as i64
    }

    /// The place of a site in database units.
    pub fn point_of(&self, run: u32, site: u32) -> Option<(i32, i32)> {
        let run = self.get(run)?;
        Some((coordinate(run.x_of(site)), run.y))
    }
}
