//! The best place of a cell on one row.

ghost use Rattle.std.specs.Prelude.{◌≡◌, ◌↔◌, ◌<◌, ◌<ℤ◌, ℕ, [], All, IfOk, IsTrue, Some, pos, option_map, slice_get, slice_index_or, length, map};
ghost use Rattle.lf_floorplan.specs.declared.parts.Row.{Row};
ghost use Rattle.lf_floorplan.specs.Bounds.{IsDefNumber};
ghost use Rattle.lf_rules.specs.Choice.{spot_of};
ghost use Rattle.lf_gaps.specs.Gaps.{FitsRows};
ghost use Rattle.lf_units.specs.Grids.{FindsNearest, IsBounded, IsBoundedSpan, IsGrid, grid_of};
ghost use Rattle.lf_units.specs.Spans.{IsRising};
ghost use Rattle.lf_legalize.specs.Levels.{AreLevels, FindsFreeX, FindsOrient, IsFirstOrient, IsEquivalentTarget, FitsRow};
ghost use Rattle.lf_legalize.specs.RowSearches.{IsChoiceAmong, IsOnRowIn, query_of_search};

use crate::levels::{BottomRow, free_by_level};
use crate::open_spans::{open_in_row, padding_length};
use crate::row_search::{RowSearch, SearchWindow, search_is_occupied};
use lf_floorplan::{Frame, Place, Row, mac_at};
use lf_gaps::{GapTarget, best_in_row};
use lf_orient::Orient;
use lf_rules::{is_on_rail, is_oriented};
use lf_units::{Point, SiteGrid, Span};
use std::alloc::{AllocError, Global};
use std::slice;

/// The row with this number.
fn row_at(frame: &Frame, number: usize) -> &Row
    requires { number < length frame.now.rows }
    ensures { slice_get frame.now.rows number ≡ Some result.now }
{
    &frame.rows.as_slice()[number]
}

/// Whether rails and orientations allow the cell this orientation on the bottom row.
fn fits_row(search: &RowSearch<'_>, bottom: &Row, orient: Orient) -> bool
    ensures { IsTrue result ↔ FitsRow search.now bottom.now orient }
{
    let mac = mac_at(search.frame, search.mac);
    let height = u32::from(search.height);
    if !is_on_rail(mac, height, bottom) {
        return false;
    }
    is_oriented(search.frame, mac, orient, height, bottom)
}

/// The first of the orientations N, S, FN and FS that the bottom row allows the cell. `None` if it
/// allows no orientation.
fn first_orient(search: &RowSearch<'_>, bottom: &Row) -> Option<Orient>
    ensures { FindsOrient search.now bottom.now result }
{
    if fits_row(search, bottom, Orient::N) {
        return Some(Orient::N);
    }
    if fits_row(search, bottom, Orient::S) {
        return Some(Orient::S);
    }
    if fits_row(search, bottom, Orient::FN) {
        return Some(Orient::FN);
    }
    if fits_row(search, bottom, Orient::FS) {
        return Some(Orient::FS);
    }
    None
}

/// The x of the row's sites.
fn grid_on(bottom: &Row, pitch: &Point) -> SiteGrid
    ensures { result ≡ grid_of bottom.now.x pitch.now.x }
{
    SiteGrid {
        origin: i64::from(bottom.x),
        step: pitch.x,
    }
}

/// A replacement for the target, near the coordinates of a DEF text: the coordinates nearest to one
/// of the two are nearest to the other.
fn equivalent_target(target: &i64) -> i64
    ensures { IsEquivalentTarget target.now result }
{
    if *target < -8_589_934_592 {
        return -8_589_934_592;
    }
    if 8_589_934_592 < *target {
        return 8_589_934_592;
    }
    *target
}

/// The number of the grid nearest to the target at which the width is in one span of each list. Of
/// two nearest ones, the lesser.
fn nearest_fit(
    alloc: Global,
    lists: &[Vec<Span>],
    grid: &SiteGrid,
    width: &i64,
    target: &i64,
) -> Result<Option<i64>, AllocError>
    requires some { 0 < length lists.now }
    requires rising { All (λ list. IsRising list.items) lists.now }
    requires bounded { All (λ list. All IsBoundedSpan list.items) lists.now }
    requires grid { IsGrid grid.now }
    requires wide { pos 0 <ℤ width.now }
    requires width { IsBounded width.now }
    requires target { IsBounded target.now }
    ensures { IfOk result (λ found. let rows = map (λ list. list.items) lists.now in
        FindsNearest (λ x. FitsRows rows grid.now width.now x) target.now found) }
{
    best_in_row(alloc, lists, grid, *width, *target)
}

/// The x nearest to the target at which the cell's box is free at each of its levels over the
/// bottom row. Of two nearest ones, the lesser.
fn nearest_x(
    alloc: Global,
    search: &RowSearch<'_>,
    bottom: &BottomRow<'_>,
    lists: &[Vec<Span>],
) -> Result<Option<i64>, AllocError>
    requires is_in_place { slice_get search.now.frame.now.rows bottom.now.number ≡ Some bottom.now.row.now }
    requires levels { AreLevels search.now bottom.now.number bottom.now.row.now bottom.now.window.now.span
        search.now.height (map (λ list. list.items) lists.now) }
    ensures { IfOk result (λ found. let rows = map (λ list. list.items) lists.now in
        FindsNearest (λ x. FitsRows rows (grid_of bottom.now.row.now.x search.now.frame.now.pitch.x) search.now.size.x
        x) search.now.target.now.x found) }
{
    search_is_occupied(search);
    let grid = grid_on(bottom.row, &search.frame.pitch);
    let target = equivalent_target(&search.target.x);
    nearest_fit(alloc, lists, &grid, &search.size.x, &target)
}

/// The place at this x of the row.
fn place_on(bottom: &Row, x: &i64, orient: Orient) -> Place
    requires x_in_def { IsDefNumber x.now }
    requires y_in_def { IsDefNumber bottom.now.y }
    ensures { spot_of result ≡ record { x = x.now; y = bottom.now.y; orient = orient } }
{
    Place::new(*x as i32, bottom.y, orient)
}

/// The best place in this orientation of the cell on the bottom row, given the free spans at each
/// of its levels.
fn best_at(
    alloc: Global,
    search: &RowSearch<'_>,
    bottom: &BottomRow<'_>,
    orient: Orient,
    lists: &[Vec<Span>],
) -> Result<Option<Place>, AllocError>
    requires is_in_place { slice_get search.now.frame.now.rows bottom.now.number ≡ Some bottom.now.row.now }
    requires first { IsFirstOrient search.now bottom.now.row.now orient }
    requires levels { AreLevels search.now bottom.now.number bottom.now.row.now bottom.now.window.now.span
        search.now.height (map (λ list. list.items) lists.now) }
    ensures { IfOk result (λ found.
        IsChoiceAmong (IsOnRowIn search.now.frame.now search.now.size bottom.now.row.now bottom.now.window.now.span)
        (query_of_search search.now) search.now.target.now
        (option_map spot_of found)) }
{
    search_is_occupied(search);
    let Some(x) = nearest_x(alloc, search, bottom, lists)? else {
        return Ok(None);
    };
    Ok(Some(place_on(bottom.row, &x, orient)))
}

/// The width of the cell, the sites of the row and the target's x.
fn gap_target(search: &RowSearch<'_>, bottom: &BottomRow<'_>) -> GapTarget
    requires { slice_get search.now.frame.now.rows bottom.now.number ≡ Some bottom.now.row.now }
    ensures grid { result.grid ≡ grid_of bottom.now.row.now.x search.now.frame.now.pitch.x }
    ensures width { result.width ≡ search.now.size.x }
    ensures target { IsEquivalentTarget search.now.target.now.x result.target }
{
    GapTarget {
        grid: grid_on(bottom.row, &search.frame.pitch),
        width: search.size.x,
        target: equivalent_target(&search.target.x),
    }
}

/// The x nearest to the target at which the box of a cell of one row is free over the row, if no
/// blockage is soft. Of two nearest ones, the lesser. It needs no list of free spans.
fn nearest_free_x(search: &RowSearch<'_>, bottom: &BottomRow<'_>) -> Option<i64>
    requires is_in_place { slice_get search.now.frame.now.rows bottom.now.number ≡ Some bottom.now.row.now }
    requires one { search.now.height ≡ 1 }
    requires bare { (k : ℕ) → slice_index_or search.now.occupancy.now.index.soft k [] ≡ [] }
    ensures { FindsFreeX search.now bottom.now.number bottom.now.row.now bottom.now.window.now.span result }
{
    search_is_occupied(search);
    let padding = padding_length(search);
    let wanted = gap_target(search, bottom);
    let window = &bottom.window.span;
    search
        .occupancy
        .nearest_in_row(bottom.number, search.id, window, padding, &wanted)
}

/// The best place in this orientation of a cell of one row on this row, if no blockage is soft.
fn best_in_gap(search: &RowSearch<'_>, bottom: &BottomRow<'_>, orient: Orient) -> Option<Place>
    requires is_in_place { slice_get search.now.frame.now.rows bottom.now.number ≡ Some bottom.now.row.now }
    requires first { IsFirstOrient search.now bottom.now.row.now orient }
    requires one { search.now.height ≡ 1 }
    requires bare { (k : ℕ) → slice_index_or search.now.occupancy.now.index.soft k [] ≡ [] }
    ensures { IsChoiceAmong
        (IsOnRowIn search.now.frame.now search.now.size bottom.now.row.now bottom.now.window.now.span)
        (query_of_search search.now) search.now.target.now (option_map spot_of result) }
{
    search_is_occupied(search);
    let Some(x) = nearest_free_x(search, bottom) else {
        return None;
    };
    Some(place_on(bottom.row, &x, orient))
}

/// The best place in this orientation of a cell of one row on this row. It needs no list of lists.
fn best_of_one(
    alloc: Global,
    search: &RowSearch<'_>,
    bottom: &BottomRow<'_>,
    orient: Orient,
) -> Result<Option<Place>, AllocError>
    requires is_in_place { slice_get search.now.frame.now.rows bottom.now.number ≡ Some bottom.now.row.now }
    requires first { IsFirstOrient search.now bottom.now.row.now orient }
    requires one { search.now.height ≡ 1 }
    ensures { IfOk result (λ found.
        IsChoiceAmong (IsOnRowIn search.now.frame.now search.now.size bottom.now.row.now bottom.now.window.now.span)
        (query_of_search search.now) search.now.target.now
        (option_map spot_of found)) }
{
    search_is_occupied(search);
    if search.occupancy.index().has_no_soft() {
        return Ok(best_in_gap(search, bottom, orient));
    }
    let free = open_in_row(alloc, search, bottom.number, bottom.window)?;
    if free.is_empty() {
        return Ok(None);
    }
    best_at(alloc, search, bottom, orient, slice::from_ref(&free))
}

/// The best place of the cell with this row as its bottom row and its box over the window. `None`
/// if the cell is allowed at no such place. `Err` if an allocation fails.
pub(crate) fn best_on_row(
    alloc: Global,
    search: &RowSearch<'_>,
    number: usize,
    window: &SearchWindow,
) -> Result<Option<Place>, AllocError>
    requires { number < length search.now.frame.now.rows }
    ensures { (r : Row) → slice_get search.now.frame.now.rows number ≡ Some r → IfOk result (λ found.
        IsChoiceAmong (IsOnRowIn search.now.frame.now search.now.size r window.now.span)
        (query_of_search search.now) search.now.target.now (option_map spot_of found)) }
{
    search_is_occupied(search);
    let row = row_at(search.frame, number);
    let Some(orient) = first_orient(search, row) else {
        return Ok(None);
    };
    let bottom = BottomRow {
        row,
        number,
        window,
    };
    if search.height == 1 {
        return best_of_one(alloc, search, &bottom, orient);
    }
    let Some(lists) = free_by_level(alloc, search, &bottom)? else {
        return Ok(None);
    };
    best_at(alloc, search, &bottom, orient, lists.as_slice())
}
