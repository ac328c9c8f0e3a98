//! The best place of a cell, searched on the rows around the target, farther away in each round.

ghost use Rattle.std.specs.Prelude.{◌≡◌, ◌↔◌, ◌⊎◌, ◌≤◌, ◌<◌, ◌≤ℤ◌, ◌<ℤ◌, All, IfOk, IsTrue, Some, length, option_map, pos, slice_get};
ghost use Rattle.lf_floorplan.specs.declared.parts.Row.{Row};
ghost use Rattle.lf_floorplan.specs.Rows.{IsCoreRow, row_area};
ghost use Rattle.lf_rules.specs.Choice.{IsChoice, IsAllowedPlace, SpotPlace, spot_of};
ghost use Rattle.lf_segments.specs.RowsByY.{IsEntryOf};
ghost use Rattle.lf_legalize.specs.Extents.{IsOnEntries, IsOnRow, IsWithin, ScansPlacesWithin};
ghost use Rattle.lf_legalize.specs.RowSearches.{IsChoiceAmong, IsOnRowIn, query_of_search};

use crate::key::gap;
use crate::limits::{better, limit, window};
use crate::on_row::best_on_row;
use crate::row_search::{RowSearch, SearchWindow, rows_of, search_is_occupied};
use lf_floorplan::{Place, Row};
use lf_segments::{RowEntry, runs_have_rows};
use lf_units::{Point, Span};
use std::alloc::{AllocError, Global};

/// Whether the row lies left or right of the window.
fn is_beside(pitch: &Point, row: &Row, window: &Span) -> bool
    requires core_ones { IsCoreRow pitch.now row.now }
    requires wide { pos 0 <ℤ pitch.now.x }
    ensures { IsTrue result ↔ (((row_area pitch.now row.now).x2 ≤ℤ window.now.lo) ⊎ (window.now.hi ≤ℤ row.now.x)) }
{
    row.right_edge(pitch) <= window.lo || window.hi <= i64::from(row.x)
}

/// The best place on the row over the window. A row left or right of the window is skipped.
fn best_in_window(
    alloc: Global,
    search: &RowSearch<'_>,
    number: usize,
    window: &SearchWindow,
) -> Result<Option<Place>, AllocError>
    requires { number < length search.now.frame.now.rows }
    ensures { (r : Row) → slice_get search.now.frame.now.rows number ≡ Some r → IfOk result (λ found.
        IsChoiceAmong (IsOnRowIn search.now.frame.now search.now.size r window.now.span)
        (query_of_search search.now) search.now.target.now (option_map spot_of found)) }
{
    let row = &search.frame.rows.as_slice()[number];
    if is_beside(&search.frame.pitch, row, &window.span) {
        return Ok(None);
    }
    best_on_row(alloc, search, number, window)
}

/// The best place so far, compared with the places of this row that are at most `reach` away.
fn with_row(
    alloc: Global,
    search: &RowSearch<'_>,
    reach: u64,
    best: Option<Place>,
    entry: &RowEntry,
) -> Result<Option<Place>, AllocError>
    requires small { reach ≤ 68719476736 }
    requires known { IsEntryOf search.now.frame.now entry.now }
    ensures { IfOk result (λ found.
        ScansPlacesWithin (IsOnRow search.now.frame.now search.now.size entry.now.row) (query_of_search search.now)
        search.now.target.now reach (option_map spot_of best) (option_map spot_of found)) }
{
    let limit = limit(search.target, reach, &best);
    let rise = gap(&entry.y, &search.target.y);
    if limit < rise {
        return Ok(best);
    }
    let window = window(search, limit - rise);
    match best_in_window(alloc, search, entry.row, &window)? {
        None => Ok(best),
        Some(place) => Ok(better(search.target, best, place)),
    }
}

/// The best place so far, compared with the places at most `reach` away on the rows of these
/// entries, the first of them first.
fn best_upward(
    alloc: Global,
    search: &RowSearch<'_>,
    reach: u64,
    so_far: Option<Place>,
    entries: &[RowEntry],
) -> Result<Option<Place>, AllocError>
    requires small { reach ≤ 68719476736 }
    requires known { All (IsEntryOf search.now.frame.now) entries.now }
    ensures { IfOk result (λ found.
        ScansPlacesWithin (IsOnEntries search.now.frame.now search.now.size entries.now) (query_of_search search.now)
        search.now.target.now reach (option_map spot_of so_far) (option_map spot_of found)) }
{
    let mut best = so_far;
    for entry in entries {
        best = with_row(alloc, search, reach, best, entry)?;
    }
    Ok(best)
}

/// The best place so far, compared with the places at most `reach` away on the rows of these
/// entries, the last of them first.
fn best_downward(
    alloc: Global,
    search: &RowSearch<'_>,
    reach: u64,
    so_far: Option<Place>,
    entries: &[RowEntry],
) -> Result<Option<Place>, AllocError>
    requires small { reach ≤ 68719476736 }
    requires known { All (IsEntryOf search.now.frame.now) entries.now }
    ensures { IfOk result (λ found.
        ScansPlacesWithin (IsOnEntries search.now.frame.now search.now.size entries.now) (query_of_search search.now)
        search.now.target.now reach (option_map spot_of so_far) (option_map spot_of found)) }
{
    let mut best = so_far;
    let mut n = entries.len();
    while 0 < n {
        n -= 1;
        best = with_row(alloc, search, reach, best, &entries[n])?;
    }
    Ok(best)
}

/// Whether the first row above is at most as far from y as the last one below it.
fn is_nearer_above(y: &i64, below: &[RowEntry], above: &[RowEntry]) -> bool {
    let Some(lower) = below.last() else {
        return true;
    };
    let Some(upper) = above.first() else {
        return false;
    };
    gap(&upper.y, y) <= gap(&lower.y, y)
}

/// The best of the places that are at most `reach` away from the target. `None` if the cell is
/// allowed at no such place. The rows are searched from the target on, up and down, the side with
/// the nearest row first: the nearer the best place so far, the fewer rows remain.
fn best_within(
    alloc: Global,
    search: &RowSearch<'_>,
    reach: u64,
) -> Result<Option<Place>, AllocError>
    requires { reach ≤ 68719476736 }
    ensures { IfOk result (λ found.
        IsChoiceAmong (IsWithin search.now.target.now reach) (query_of_search search.now) search.now.target.now
        (option_map spot_of found)) }
{
    runs_have_rows();
    search_is_occupied(search);
    let y = search.target.y;
    let height = reach as i64;
    let below = rows_of(search).between(y - height, y);
    let above = rows_of(search).between(y, y + height + 1);
    if is_nearer_above(&y, below, above) {
        let best = best_upward(alloc, search, reach, None, above)?;
        return best_downward(alloc, search, reach, best, below);
    }
    let best = best_downward(alloc, search, reach, None, below)?;
    best_upward(alloc, search, reach, best, above)
}

/// The best place of the cell, provided that no allowed place is farther from the target than
/// `farthest`. The first round considers places less than two rows' heights away. Each further
/// round doubles the distance, until a place is found.
pub(crate) fn nearest(
    alloc: Global,
    search: &RowSearch<'_>,
    farthest: u64,
) -> Result<Option<Place>, AllocError>
    requires small { farthest ≤ 68719476736 }
    requires all { (p : SpotPlace) → IsAllowedPlace (query_of_search search.now) p
        → IsWithin search.now.target.now farthest p }
    ensures { IfOk result
        (λ found. IsChoice (query_of_search search.now) search.now.target.now (option_map spot_of found)) }
{
    let mut reach = (search.frame.pitch.y as u64).saturating_mul(2).max(2) - 1;
    while reach < farthest {
        let best = best_within(alloc, search, reach)?;
        if best.is_some() {
            return Ok(best);
        }
        reach *= 2;
    }
    best_within(alloc, search, farthest)
}
