//! Searches for the gap where displacements grow least.
//!
//! It visits rows outward from the target's y, the spans of a row outward from the target's x, and
//! in a span the gap at the target and those on both sides.

ghost use Rattle.std.specs.Prelude.{◌<ℤ◌, pos};

use crate::cost_curve::CostCurve;
use crate::free_rows::{FreeRows, FreeSpan, PlannerRow};
use crate::packed_cell::PackedCell;
use crate::packed_insertion::SearchEffort;
use crate::packed_span::PackedSpan;
use crate::plan::PlannerCell;
use crate::plan_state::Gap;
use crate::search_limits::{SearchLimits, apart, cost_of};
use crate::tall::try_tall_span;
use std::alloc::AllocError;

/// A cell to place, and the spans to search.
#[derive(Clone, Copy)]
pub(crate) struct Search<'a> {
    pub(crate) free_rows: &'a FreeRows,
    pub(crate) segments: &'a [PackedSpan],
    pub(crate) number: u32,
    pub(crate) planner_cell: &'a PlannerCell,
    pub(crate) limits: &'a SearchLimits,
    /// The distance of adjacent rows.
    pub(crate) height: u32,
    /// Whether costs count a target between two sites there, or at the nearer one.
    pub(crate) exact: bool,
}

/// The best gap so far and its cost. Without a gap, the cost is a limit that a gap must be below.
#[derive(Clone, Copy)]
pub(crate) struct Best {
    pub(crate) cost: i64,
    pub(crate) gap: Option<Gap>,
}

/// The cell as it is tried in a span, and its cost there when it is at the span's site nearest to
/// its target.
#[derive(Clone, Copy)]
pub(crate) struct SpanCandidate {
    pub(crate) span: usize,
    pub(crate) cell: PackedCell,
    pub(crate) effort: SearchEffort,
    pub(crate) base: i64,
}

/// The number limited to the range of 32 bits: 0 if it is less, the greatest number if it is
/// greater.
pub(crate) fn clipped(number: i64) -> u32 {
    number.clamp(0, 4_294_967_295) as u32
}

/// The number of the site nearest to an x.
pub(crate) fn site_at(sites: &FreeSpan, x: i32) -> i64 {
    let pitch = sites.pitch();
    (x as i64 - sites.first as i64 + pitch / 2).div_euclid(pitch)
}

/// The target of a cell in a span: a site of the span, the distance of the target from that site to
/// the right, and its distance from the span if it lies outside. Distances are in database units.
#[derive(Clone, Copy)]
struct SpanTarget {
    site: i64,
    offset: i64,
    outside: i64,
}

/// The target at this x in a span whose last site for the cell is `last`.
fn span_target(sites: &FreeSpan, x: i32, last: i64, exact: bool) -> SpanTarget {
    let pitch = sites.pitch();
    if !exact {
        let nearest = site_at(sites, x);
        let site = nearest.max(0).min(last);
        let outside = nearest.saturating_sub(site).saturating_abs();
        return SpanTarget {
            site,
            offset: 0,
            outside: outside.saturating_mul(pitch),
        };
    }
    let along = x as i64 - sites.first as i64;
    let below = along.div_euclid(pitch);
    let site = below.max(0).min(last);
    let distance = along.saturating_sub(site.saturating_mul(pitch));
    if site == below && site < last {
        return SpanTarget {
            site,
            offset: distance,
            outside: 0,
        };
    }
    SpanTarget {
        site,
        offset: 0,
        outside: distance.saturating_abs(),
    }
}

/// The number of sites by which a cell may be displaced in a span before it costs as much as the
/// best gap. `row` is what its displacement across rows costs, `unit` what each site costs.
fn sites_left(best: &Best, row: i64, unit: i64) -> i64 {
    let unit = unit.max(1);
    best.cost
        .saturating_sub(row)
        .saturating_add(unit - 1)
        .div_euclid(unit)
}

/// The width of a cell in sites.
fn sites_of(cell: &PlannerCell, pitch: i64) -> i64
    requires { pos 0 <ℤ pitch }
{
    (cell.width as i64).saturating_add(pitch.saturating_sub(1)) / pitch
}

/// A cell at its target in a span of a row at distance `dy`. It may be pushed as far as `reach`.
fn cell_at(
    number: u32,
    width: i64,
    target: &SpanTarget,
    pitch: i64,
    dy: i64,
    reach: i64,
) -> PackedCell
    requires { pos 0 <ℤ pitch }
{
    let wanted = clipped(target.site);
    let rest = reach
        .saturating_sub(dy)
        .saturating_sub(target.outside)
        .saturating_sub(target.offset);
    PackedCell {
        number,
        width: clipped(width),
        wanted,
        offset: clipped(target.offset),
        reach: clipped(rest.max(0) / pitch),
        at: wanted,
    }
}

/// A cell at a site of a span of a row at this y, with its exact target there. `None` if it reaches past
/// the span's end.
pub(crate) fn placed_at(
    number: u32,
    planner_cell: &PlannerCell,
    sites: &FreeSpan,
    y: i32,
    at: u32,
    reach: i64,
) -> Option<PackedCell> {
    let pitch = sites.pitch();
    let width = sites_of(planner_cell, pitch);
    let last = (sites.count as i64).saturating_sub(width);
    if last < at as i64 {
        return None;
    }
    let target = span_target(sites, planner_cell.x, last, true);
    let cell = cell_at(
        number,
        width,
        &target,
        pitch,
        apart(y, planner_cell.y),
        reach,
    );
    Some(PackedCell { at, ..cell })
}

/// How to try the cell in a span of a row at distance `dy`. `None` if it is too wide for the span
/// or costs too much there.
fn try_of(
    search: &Search,
    span: usize,
    sites: &FreeSpan,
    dy: i64,
    best: &Best,
) -> Option<SpanCandidate> {
    let pitch = sites.pitch();
    let width = sites_of(search.planner_cell, pitch);
    let last = (sites.count as i64).saturating_sub(width);
    if last < 0 {
        return None;
    }
    let target = span_target(sites, search.planner_cell.x, last, search.exact);
    let outside = target.outside.div_euclid(pitch);
    let factor = search.planner_cell.factor as i64;
    let row = cost_of(dy, search.limits);
    let left = sites_left(
        best,
        row.saturating_mul(factor),
        pitch.saturating_mul(factor),
    );
    let beyond = search.limits.reach.saturating_sub(dy);
    if left <= outside || beyond < target.outside {
        return None;
    }
    let near = search
        .limits
        .near
        .saturating_sub(dy)
        .max(0)
        .div_euclid(pitch);
    let along = SearchLimits {
        near: near.saturating_mul(pitch),
        ..*search.limits
    };
    let in_row = cost_of(target.outside, &along);
    let cell = cell_at(
        search.number,
        width,
        &target,
        pitch,
        dy,
        search.limits.reach,
    );
    Some(SpanCandidate {
        span,
        cell,
        effort: SearchEffort {
            reach: clipped(left.saturating_sub(outside)).min(cell.reach),
            most: search.limits.most,
            near: clipped(near.saturating_sub(outside)),
            weight: search.limits.weight,
            pitch: clipped(pitch),
            factor: search.planner_cell.factor,
        },
        base: row.saturating_add(in_row).saturating_mul(factor),
    })
}

/// Tries one gap of a span.
fn try_gap(
    segment: &PackedSpan,
    gap: usize,
    tried: &SpanCandidate,
    best: &mut Best,
    curve: &mut CostCurve,
) -> Result<(), AllocError> {
    if segment.len() < gap {
        return Ok(());
    }
    let Some(candidate_cell) = segment.try_insertion(gap, &tried.cell, &tried.effort, curve)? else {
        return Ok(());
    };
    let cost = tried.base.saturating_add(candidate_cell.cost);
    if cost < best.cost {
        let cell = PackedCell {
            at: candidate_cell.at,
            ..tried.cell
        };
        *best = Best {
            cost,
            gap: Some(Gap {
                span: tried.span,
                gap,
                cell,
                aim: tried.cell.wanted,
            }),
        };
    }
    Ok(())
}

/// Tries the gap at the target and `gaps` others on each side. If any cost is allowed and no gap
/// was found, it tries all.
fn try_gaps(
    segment: &PackedSpan,
    gaps: usize,
    tried: &SpanCandidate,
    best: &mut Best,
    curve: &mut CostCurve,
) -> Result<(), AllocError> {
    let middle = segment.gap_near(&tried.cell);
    try_gap(segment, middle, tried, best, curve)?;
    for away in 1..segment.len().saturating_add(1) {
        if gaps < away && best.cost < i64::MAX {
            return Ok(());
        }
        if away <= middle {
            try_gap(segment, middle - away, tried, best, curve)?;
        }
        try_gap(segment, middle.saturating_add(away), tried, best, curve)?;
    }
    Ok(())
}

/// Tries a span of a row at this y.
fn try_span(
    search: &Search,
    span: usize,
    y: i32,
    best: &mut Best,
    curve: &mut CostCurve,
) -> Result<(), AllocError> {
    let (Some(sites), Some(segment)) = (search.free_rows.spans.get(span), search.segments.get(span))
    else {
        return Ok(());
    };
    let dy = apart(y, search.planner_cell.y);
    let Some(tried) = try_of(search, span, sites, dy, best) else {
        return Ok(());
    };
    if 1 < search.planner_cell.rows {
        return try_tall_span(search, &tried, y, best, curve);
    }
    if !segment.has_room(tried.cell.width) {
        return Ok(());
    }
    try_gaps(segment, search.limits.gaps, &tried, best, curve)
}

/// Whether anything at distance `dx` on a row at distance `dy` costs too much or is out of reach.
fn is_beyond(search: &Search, dy: i64, dx: i64, best: &Best) -> bool {
    let dx = dx.max(0);
    if search.limits.reach < dy.saturating_add(dx) {
        return true;
    }
    let way = cost_of(dy, search.limits).saturating_add(dx);
    best.cost <= way.saturating_mul(search.planner_cell.factor as i64)
}

/// Tries a row: its spans from the target's x to the right, and then to the left.
fn try_row(
    search: &Search,
    row: &PlannerRow,
    best: &mut Best,
    curve: &mut CostCurve,
) -> Result<(), AllocError> {
    let spans = search.free_rows.spans.as_slice();
    if row.last < row.first || spans.len() < row.last || !search.planner_cell.kinds.has(row.kind) {
        return Ok(());
    }
    let (x, dy) = (
        search.planner_cell.x as i64,
        apart(row.y, search.planner_cell.y),
    );
    let middle = row.first + spans[row.first..row.last].partition_point(|span| span.end() <= x);
    for span in middle..row.last {
        if is_beyond(search, dy, spans[span].first as i64 - x, best) {
            break;
        }
        try_span(search, span, row.y, best, curve)?;
    }
    for back in 0..middle - row.first {
        let span = middle - 1 - back;
        if is_beyond(search, dy, x.saturating_sub(spans[span].end()), best) {
            return Ok(());
        }
        try_span(search, span, row.y, best, curve)?;
    }
    Ok(())
}

/// The distance of the row at a position from a y. The greatest number if there is no such row.
fn row_away(rows: &[PlannerRow], position: usize, y: i32) -> i64 {
    match rows.get(position) {
        Some(row) => apart(row.y, y),
        None => i64::MAX,
    }
}

/// The position of the nearer row of the next one above and the next one below. `None` if both cost
/// too much.
fn next_row(search: &Search, above: usize, below: usize, best: &Best) -> Option<usize> {
    let rows = search.free_rows.rows.as_slice();
    let up = row_away(rows, above, search.planner_cell.y);
    if below == 0 {
        if is_beyond(search, up, 0, best) {
            return None;
        }
        return Some(above);
    }
    let down = row_away(rows, below - 1, search.planner_cell.y);
    if is_beyond(search, up.min(down), 0, best) {
        return None;
    }
    if up < down {
        Some(above)
    } else {
        Some(below - 1)
    }
}

/// The gap with the least cost, if that is below the limit.
pub(crate) fn best_gap(
    search: &Search,
    limit: i64,
    curve: &mut CostCurve,
) -> Result<Best, AllocError> {
    let rows = search.free_rows.rows.as_slice();
    let mut best = Best {
        cost: limit,
        gap: None,
    };
    let mut above = rows.partition_point(|row| row.y < search.planner_cell.y);
    let mut below = above;
    for _ in 0..rows.len() {
        let Some(next) = next_row(search, above, below, &best) else {
            return Ok(best);
        };
        if above <= next {
            above = next.saturating_add(1);
        } else {
            below = next;
        }
        if let Some(row) = rows.get(next) {
            try_row(search, row, &mut best, curve)?;
        }
    }
    Ok(best)
}
