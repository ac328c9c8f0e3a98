//! The bins of a frame.

ghost use Rattle.std.specs.Prelude.{◌≡◌, ◌*◌, ◌/◌, ◌+◌, ◌%◌, ◌≤◌, ◌<◌, All, IfSome, IsTrue, map, min, pos, ◌<ℤ◌, ◌≤ℤ◌};
ghost use Rattle.std.specs.Int.RustNames.{unsigned_abs};
ghost use Rattle.std.specs.Int.{int_max, int_min};
ghost use Rattle.lf_floorplan.specs.Rows.{IsCoreRow, row_area};
ghost use Rattle.lf_segments.specs.Indexes.{hull as hull_of};
ghost use Rattle.lf_density.specs.Bins.{IsSmallGrid, box_around, core_box as box_of_core, grid_of as grid_in, grid_over as grid_on, is_small, past as past_of, row_boxes};

use lf_floorplan::{Frame, Row};
use lf_units::{Point, Rect};

/// The greatest height of a row whose bins are measured, in database units.
const HIGHEST: u64 = 200_000_000;

/// The greatest number of bins that are measured.
const MOST: u64 = 4_000_000;

/// The bins over the core of a design: squares in columns and rows, from a corner on to the right
/// and up. The last ones may reach past the core. Lengths are in database units.
#[derive(Clone, Copy)]
pub(crate) struct BinGrid {
    /// The left edge of the first column.
    pub(crate) left: i64,
    /// The lower edge of the first row.
    pub(crate) bottom: i64,
    /// The side of a bin.
    pub(crate) side: u64,
    pub(crate) columns: u64,
    pub(crate) rows: u64,
}

/// Returns the lesser of the two.
fn lesser(a: &i64, b: &i64) -> i64
    ensures { result ≡ int_min a.now b.now }
{
    if *b < *a { *b } else { *a }
}

/// Returns the greater of the two.
fn greater(a: &i64, b: &i64) -> i64
    ensures { result ≡ int_max a.now b.now }
{
    if *b < *a { *a } else { *b }
}

/// Returns the least box that holds both.
fn hull(a: &Rect, b: &Rect) -> Rect
    ensures { result ≡ hull_of a.now b.now }
{
    Rect {
        x1: lesser(&a.x1, &b.x1),
        y1: lesser(&a.y1, &b.y1),
        x2: greater(&a.x2, &b.x2),
        y2: greater(&a.y2, &b.y2),
    }
}

/// Returns the least box that holds the box and all rows.
fn hull_with(rect: Rect, rows: &[Row], pitch: &Point) -> Rect
    requires core_ones { All (λ r. IsCoreRow pitch.now r) rows.now }
    requires wide { pos 0 <ℤ pitch.now.x }
    requires high { pos 0 <ℤ pitch.now.y }
    requires low { pitch.now.y ≤ℤ pos 20000000000 }
    ensures { result ≡ box_around rect (row_boxes pitch.now rows.now) }
{
    let mut around = rect;
    for row in rows {
        around = hull(&around, &row.area(pitch));
    }
    around
}

/// Returns the least box that holds all core rows.
fn core_box(frame: &Frame) -> Rect
    ensures { result ≡ box_of_core frame.now }
{
    let rows = frame.rows.as_slice();
    hull_with(rows[0].area(&frame.pitch), rows, &frame.pitch)
}

/// Returns how far `x` is past `from`. 0 if it is not past it.
pub(crate) fn past(from: &i64, x: &i64) -> u64
    ensures { result ≡ past_of from.now x.now }
{
    if *x <= *from { 0 } else { x.abs_diff(*from) }
}

/// Returns the bins over the box, for rows of this height.
fn grid_over(core: &Rect, height: u64) -> BinGrid
    requires low { height ≤ 200000000 }
    requires high { 0 < height }
    ensures is { result ≡ grid_on core.now height }
    ensures positive { 0 < result.side }
    ensures short { result.side ≤ 1000000000 }
{
    let side = height * 5;
    BinGrid {
        left: core.x1,
        bottom: core.y1,
        side,
        columns: past(&core.x1, &core.x2).div_ceil(side),
        rows: past(&core.y1, &core.y2).div_ceil(side),
    }
}

/// Returns whether there are few enough bins.
fn is_few(grid: &BinGrid) -> bool
    ensures is { result ≡ is_small grid.now }
    ensures few_columns { IsTrue result → grid.now.columns ≤ 4000000 }
    ensures few_rows { IsTrue result → grid.now.rows ≤ 4000000 }
    ensures few { IsTrue result → grid.now.columns * grid.now.rows ≤ 4000000 }
{
    if grid.columns > MOST {
        return false;
    }
    if grid.rows > MOST {
        return false;
    }
    grid.columns * grid.rows <= MOST
}

/// Returns the bins over the core of the frame. `None` if a row is higher than 200,000,000 database
/// units, or there are more than 4,000,000 bins.
pub(crate) fn grid_of(frame: &Frame) -> Option<BinGrid>
    ensures is { result ≡ grid_in frame.now }
    ensures small { IfSome result IsSmallGrid }
{
    let height = frame.pitch.y.unsigned_abs();
    if height > HIGHEST {
        return None;
    }
    let grid = grid_over(&core_box(frame), height);
    if is_few(&grid) { Some(grid) } else { None }
}
