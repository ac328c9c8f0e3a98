//! The spans that are free for a cell over a bottom row, off soft blockages, level by level.

ghost use Rattle.std.specs.Prelude.{◌≡◌, ◌↔◌, ◌<◌, ◌+ℤ◌, ◌*ℤ◌, ◌≤ℤ◌, ◌<ℤ◌, IfOk, IsTrue, MatchOption, OnOk, Some, length, map, pos};
ghost use Rattle.std.specs.Option.{option_map};
ghost use Rattle.lf_orient.specs.Orientation.{rail_below};
ghost use Rattle.lf_floorplan.specs.RowSupport.{rail_alternated};
ghost use Rattle.lf_segments.specs.RowsByY.{IsRunAt};
ghost use Rattle.lf_legalize.specs.Levels.{AddsLevel, AreFreeOn, AreLevels, HasBareLevel, IsLevel, IsLevelRow};
ghost use Rattle.lf_legalize.specs.RowSearches.{padding_in};

use crate::open_spans::open_in_row;
use crate::row_search::{RowSearch, SearchWindow, rows_of, search_is_occupied};
use lf_floorplan::Row;
use lf_orient::{Rail, opposite, row_rail};
use lf_segments::RowEntry;
use lf_units::{Point, Span};
use std::alloc::{AllocError, Global};

/// A row that is considered as the bottom row of a cell.
#[derive(Clone, Copy)]
pub(crate) struct BottomRow<'a> {
    pub row: &'a Row,
    /// The position of the row in the frame.
    pub number: usize,
    /// The x range that must contain the cell's box, in database units.
    pub window: &'a SearchWindow,
}

/// The rail of a row `level` levels above the bottom row.
fn rail_at(bottom: &Row, level: u8) -> Option<Rail>
    ensures { result ≡ option_map (rail_alternated level) (rail_below bottom.now.orient) }
{
    let mut rail = row_rail(bottom.orient);
    for _ in 0..level {
        rail = rail.map(opposite);
    }
    rail
}

/// The y of the rows `level` levels above the bottom row.
fn y_at(bottom: &Row, pitch: &Point, level: u8) -> i64
    requires high { pos 0 <ℤ pitch.now.y }
    requires low { pitch.now.y ≤ℤ pos 20000000000 }
    ensures { result ≡ bottom.now.y +ℤ (pos level *ℤ pitch.now.y) }
{
    i64::from(bottom.y) + i64::from(level) * pitch.y
}

/// The rows `level` levels above the bottom row, in the order of their x.
fn rows_above<'a>(search: &RowSearch<'a>, bottom: &Row, level: u8) -> &'a [RowEntry]
    ensures { IsRunAt search.now.occupancy.now.index.rows
        (bottom.now.y +ℤ (pos level *ℤ search.now.frame.now.pitch.y)) result.now }
{
    rows_of(search).at(y_at(bottom, &search.frame.pitch, level))
}

/// Whether the row has the rail of a row `level` levels above the bottom row.
fn is_railed(bottom: &Row, level: u8, row: &Row) -> bool
    ensures { IsTrue result
        ↔ (rail_below row.now.orient ≡ option_map (rail_alternated level) (rail_below bottom.now.orient)) }
{
    row_rail(row.orient) == rail_at(bottom, level)
}

/// Appends the free spans of the row with this number, if it has the rail of a row `level` levels
/// above the bottom row.
fn push_row(
    alloc: Global,
    search: &RowSearch<'_>,
    bottom: &BottomRow<'_>,
    level: u8,
    number: usize,
    spans: &mut Vec<Span>,
) -> Result<(), AllocError>
    requires { number < length search.now.frame.now.rows }
    ensures { OnOk result (AddsLevel search.now bottom.now.row.now level number bottom.now.window.now.span
        spans.old.items spans.new.items) }
{
    let row = &search.frame.rows.as_slice()[number];
    if !is_railed(bottom.row, level, row) {
        return Ok(());
    }
    let free = open_in_row(alloc, search, number, bottom.window)?;
    spans.extend_from_slice(free.as_slice())?;
    Ok(())
}

/// The free spans in the window on the rows `level` levels above the bottom row. No two rows share
/// a point, so the spans of one row are left of those of the next.
fn free_above(
    alloc: Global,
    search: &RowSearch<'_>,
    bottom: &BottomRow<'_>,
    level: u8,
) -> Result<Vec<Span>, AllocError>
    ensures { IfOk result (λ free.
        AreFreeOn (IsLevelRow search.now.frame.now bottom.now.row.now level) search.now.occupancy.now search.now.id
        bottom.now.window.now.span (padding_in search.now) free.items) }
{
    search_is_occupied(search);
    let mut spans = Vec::new(alloc);
    for entry in rows_above(search, bottom.row, level) {
        push_row(alloc, search, bottom, level, entry.row, &mut spans)?;
    }
    Ok(spans)
}

/// The free spans in the window at one level: on the bottom row alone, or on the rows above it.
fn free_at(
    alloc: Global,
    search: &RowSearch<'_>,
    bottom: &BottomRow<'_>,
    level: u8,
) -> Result<Vec<Span>, AllocError>
    ensures { IfOk result
        (λ free. IsLevel search.now bottom.now.number bottom.now.row.now bottom.now.window.now.span level free.items) }
{
    if level == 0 {
        return open_in_row(alloc, search, bottom.number, bottom.window);
    }
    free_above(alloc, search, bottom, level)
}

/// The free spans in the window at each level of the cell, from the bottom row up. `None` if
/// nothing is free at one level.
pub(crate) fn free_by_level(
    alloc: Global,
    search: &RowSearch<'_>,
    bottom: &BottomRow<'_>,
) -> Result<Option<Vec<Vec<Span>>>, AllocError>
    ensures { IfOk result (λ found. MatchOption found
        (HasBareLevel search.now bottom.now.number bottom.now.row.now bottom.now.window.now.span)
        (λ lists. AreLevels search.now bottom.now.number bottom.now.row.now bottom.now.window.now.span search.now.height
        (map (λ list. list.items) lists.items))) }
{
    let mut lists = Vec::new(alloc);
    for level in 0..search.height {
        let free = free_at(alloc, search, bottom, level)?;
        if free.is_empty() {
            return Ok(None);
        }
        lists.push(free)?;
    }
    Ok(Some(lists))
}
