//! The cost of one more cell in a gap between others, and its best site there.
//!
//! A cell of several rows is inserted in a gap of each of its rows. `reachable_sites` narrows the sites that it may
//! take, row by row, and `add_pushed` adds what the cells of each row cost that it then pushes.

ghost use Rattle.std.specs.Prelude.{◌≡◌, ◌+◌, ◌≤◌, ◌<◌, ◌↔◌, IfOk, IfSome, length};

use crate::cost_curve::CostCurve;
use crate::packed_cell::PackedCell;
use std::alloc::AllocError;

/// The limits of the search for an insertion, and the weight of the inserted cell's own
/// displacement.
#[derive(Clone, Copy)]
pub struct SearchEffort {
    /// The greatest distance of the cell from its target, in sites.
    pub reach: u32,
    /// The greatest number of cells pushed on each side.
    pub most: usize,
    /// The cell's displacement up to this many sites counts once;
    pub near: u32,
    /// beyond that, `weight` times.
    pub weight: u16,
    /// The distance of sites, in database units.
    pub pitch: u32,
    /// How often the displacement of the cell itself counts.
    pub factor: u32,
}

/// A place in a gap, and by how much the total displacement grows if a cell is placed there, in
/// database units.
#[derive(Clone, Copy, Debug, PartialEq, Eq)]
pub struct Insertion {
    pub gap: usize,
    pub at: u32,
    pub cost: i64,
}

/// One side of a gap. `count` is the number of cells that can be pushed on it. `extent` is the
/// distance from the site of the cell in the gap to the outer edge of the pushed cells, packed next
/// to it. `limit` is the last site that the cell can then reach on this side.
#[derive(Clone, Copy)]
struct Side {
    count: usize,
    extent: u32,
    limit: i64,
}

/// The cells on the left of a gap that conflict with a cell as far left as site `lowest`.
fn left_side(cells: &[PackedCell], gap: usize, lowest: i64, most: usize) -> Side
    requires { gap ≤ length cells.now }
    ensures { result.count ≤ gap }
{
    let mut lowest = lowest;
    let mut distance = 0u32;
    let mut count = 0;
    while count < gap {
        let cell = &cells[gap - count - 1];
        let touched = cell.at as i64 + cell.width as i64 + distance as i64;
        if touched <= lowest || most <= count {
            let limit = touched.max(lowest);
            return Side {
                count,
                extent: distance,
                limit,
            };
        }
        distance = distance.saturating_add(cell.width);
        count += 1;
        let farthest = (cell.wanted as i64 - cell.reach as i64).min(cell.at as i64);
        lowest = lowest.max(farthest + distance as i64);
    }
    let limit = lowest.max(distance as i64);
    Side {
        count,
        extent: distance,
        limit,
    }
}

/// The cells on the right of a gap that conflict with a cell of this width as far right as site
/// `highest`.
fn right_side(cells: &[PackedCell], width: u32, highest: i64, most: usize, room: u32) -> Side
    ensures { result.count ≤ length cells.now }
{
    let mut highest = highest;
    let mut distance = width;
    let mut count = 0;
    for cell in cells {
        let touched = cell.at as i64 - distance as i64;
        if highest <= touched || most <= count {
            let limit = touched.min(highest);
            return Side {
                count,
                extent: distance,
                limit,
            };
        }
        let farthest = (cell.wanted as i64 + cell.reach as i64).max(cell.at as i64);
        highest = highest.min(farthest - distance as i64);
        distance = distance.saturating_add(cell.width);
        count += 1;
    }
    let limit = highest.min(room as i64 - distance as i64);
    Side {
        count,
        extent: distance,
        limit,
    }
}

/// Adds the cells of a gap's left side, which has this extent, to the curve, from left to right.
fn add_left_side(
    curve: &mut CostCurve,
    cells: &[PackedCell],
    extent: u32,
) -> Result<(), AllocError> {
    let mut distance = extent;
    for cell in cells {
        curve.add_left(cell, distance)?;
        distance = distance.saturating_sub(cell.width);
    }
    Ok(())
}

/// Adds the cells on the right side of a gap with a cell of this width to the curve.
fn add_right_side(
    curve: &mut CostCurve,
    cells: &[PackedCell],
    width: u32,
) -> Result<(), AllocError> {
    let mut distance = width;
    for cell in cells {
        curve.add_right(cell, distance)?;
        distance = distance.saturating_add(cell.width);
    }
    Ok(())
}

/// The place in a gap at which the displacements of a cell there and of the cells that it pushes
/// grow least. `None` if it finds no room within the limits of the search. `Err` if an allocation
/// fails.
pub(crate) fn try_gap(
    cells: &[PackedCell],
    room: u32,
    gap: usize,
    cell: &PackedCell,
    effort: &SearchEffort,
    curve: &mut CostCurve,
) -> Result<Option<Insertion>, AllocError>
    requires gap { gap ≤ length cells.now }
    ensures gap { IfOk result (λ found. IfSome found (λ candidate_cell. candidate_cell.gap ≡ gap)) }
{
    let (wanted, reach) = (cell.wanted as i64, effort.reach as i64);
    let left = left_side(cells, gap, wanted - reach, effort.most);
    let right = right_side(&cells[gap..], cell.width, wanted + reach, effort.most, room);
    let low = left.limit.max(0);
    let high = right.limit.min(room as i64 - cell.width as i64);
    if high < low {
        return Ok(None);
    }
    curve.begin(low as u32, high as u32, effort.pitch);
    add_left_side(curve, &cells[gap - left.count..gap], left.extent)?;
    curve.add_own(cell, effort)?;
    add_right_side(curve, &cells[gap..gap + right.count], cell.width)?;
    let least = curve.least();
    Ok(Some(Insertion {
        gap,
        at: least.at,
        cost: least.value,
    }))
}

/// The sites that a cell may take, from `low` to `high`. It has none if `high` is less.
#[derive(Clone, Copy, Debug, PartialEq, Eq)]
pub struct SiteRange {
    pub low: i64,
    pub high: i64,
}

/// The two sides of a gap for a cell of this width at the sites of a range. Its first site is
/// `shift` sites left of that of the range.
fn sides_of(cells: &[PackedCell], room: u32, gap: &RowGap, sites: &SiteRange) -> (Side, Side)
    requires gap { gap.now.gap ≤ length cells.now }
    ensures left { result.0.count ≤ gap.now.gap }
    ensures right { gap.now.gap + result.1.count ≤ length cells.now }
{
    let lowest = sites.low.saturating_add(gap.shift);
    let highest = sites.high.saturating_add(gap.shift);
    (
        left_side(cells, gap.gap, lowest, gap.most),
        right_side(&cells[gap.gap..], gap.width, highest, gap.most, room),
    )
}

/// A gap in one of the rows of a cell that covers several rows. The gap's first site is `shift`
/// sites left of the site from which the cell's sites are counted.
#[derive(Clone, Copy)]
pub struct RowGap {
    pub gap: usize,
    pub shift: i64,
    /// The width of the cell, in sites.
    pub width: u32,
    /// The greatest number of cells pushed on each side.
    pub most: usize,
}

/// The sites of a range that the cell may take in this gap.
pub(crate) fn reachable_sites(
    cells: &[PackedCell],
    room: u32,
    gap: &RowGap,
    sites: &SiteRange,
) -> SiteRange
    requires gap { gap.now.gap ≤ length cells.now }
{
    let (left, right) = sides_of(cells, room, gap, sites);
    let last = room as i64 - gap.width as i64;
    SiteRange {
        low: left.limit.max(0).saturating_sub(gap.shift),
        high: right.limit.min(last).saturating_sub(gap.shift),
    }
}

/// Adds the cells that are pushed if the cell takes a site of this range in this gap.
pub(crate) fn add_pushed(
    cells: &[PackedCell],
    room: u32,
    gap: &RowGap,
    sites: &SiteRange,
    curve: &mut CostCurve,
) -> Result<(), AllocError>
    requires gap { gap.now.gap ≤ length cells.now }
{
    let (left, right) = sides_of(cells, room, gap, sites);
    curve.set_shift(gap.shift);
    add_left_side(curve, &cells[gap.gap - left.count..gap.gap], left.extent)?;
    add_right_side(curve, &cells[gap.gap..gap.gap + right.count], gap.width)?;
    curve.set_shift(0);
    Ok(())
}
