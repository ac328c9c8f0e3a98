//! Cells of several rows: the spans that they cover, and their best site near another one.
//!
//! A cell of several rows takes the same sites of each of its rows. It is listed in a span of each, and no search
//! pushes it there. Only in its lowest row it has its own number.

use crate::cost_curve::CostCurve;
use crate::free_rows::FreeRows;
use crate::packed_cell::PackedCell;
use crate::packed_insertion::{RowGap, SiteRange};
use crate::packed_span::PackedSpan;
use crate::passes::PlannerInput;
use crate::plan_state::Gap;
use crate::search::{Best, Search, SpanCandidate, clipped};
use std::alloc::AllocError;

/// A span that a cell covers. Its first site is `shift` sites left of that of the cell's lowest span.
#[derive(Clone, Copy)]
pub(crate) struct CoveredSpan {
    pub(crate) span: usize,
    pub(crate) shift: i64,
}

/// The number by which the cell with this number is listed in the rows above its lowest one.
pub(crate) fn upper_number(number: u32) -> u32 {
    u32::MAX - number
}

/// The span that a cell covers `up` rows above its lowest one, in which it has this span and site.
/// `None` if there is none, or if its sites are not above those of the lowest span.
pub(crate) fn covered_span(
    free_rows: &FreeRows,
    row_y: i32,
    height: u32,
    span: usize,
    at: u32,
    up: u32,
) -> Option<CoveredSpan> {
    if up == 0 {
        return Some(CoveredSpan { span, shift: 0 });
    }
    let lowest = free_rows.spans.get(span)?;
    let pitch = lowest.pitch();
    let x = (lowest.first as i64).saturating_add(pitch.saturating_mul(at as i64));
    let y = (row_y as i64).saturating_add((height as i64).saturating_mul(up as i64));
    let upper = free_rows.span_at(x, y)?;
    let sites = free_rows.spans.get(upper)?;
    let distance = lowest.first as i64 - sites.first as i64;
    if sites.step != lowest.step || distance.rem_euclid(pitch) != 0 {
        return None;
    }
    Some(CoveredSpan {
        span: upper,
        shift: distance.div_euclid(pitch),
    })
}

/// The span that the cell of a gap covers `up` rows above its lowest one.
pub(crate) fn span_above(input: &PlannerInput, gap: &Gap, up: u32) -> Option<CoveredSpan> {
    let row = input.row_of(gap.span)?;
    covered_span(input.free_rows, row.y, input.height, gap.span, gap.aim, up)
}

/// A cell of several rows as it is listed in a span that it covers.
pub(crate) fn cell_in(cell: &PackedCell, covered: &CoveredSpan, up: u32) -> PackedCell {
    let at = clipped((cell.at as i64).saturating_add(covered.shift));
    PackedCell {
        number: if up == 0 {
            cell.number
        } else {
            upper_number(cell.number)
        },
        width: cell.width,
        wanted: at,
        offset: 0,
        reach: 0,
        at,
    }
}

/// The gap of a span that a cell covers whose middle is nearest to the cell's at site `aim`.
pub(crate) fn gap_at(segment: &PackedSpan, cell: &PackedCell, aim: u32, shift: i64) -> usize {
    let wanted = clipped((aim as i64).saturating_add(shift));
    segment.gap_near(&PackedCell { wanted, ..*cell })
}

/// The gap that the cell takes near site `aim` in the row that is `up` rows above its lowest one.
fn row_gap<'a>(
    search: &Search<'a>,
    tried: &SpanCandidate,
    row_y: i32,
    aim: u32,
    up: u32,
) -> Option<(&'a PackedSpan, RowGap)> {
    let covered = covered_span(search.free_rows, row_y, search.height, tried.span, aim, up)?;
    let segment = search.segments.get(covered.span)?;
    let gap = RowGap {
        gap: gap_at(segment, &tried.cell, aim, covered.shift),
        shift: covered.shift,
        width: tried.cell.width,
        most: search.limits.most,
    };
    Some((segment, gap))
}

/// The sites that the cell may take if it finds its gaps near site `aim`. `None` if there are none.
fn sites_near(search: &Search, tried: &SpanCandidate, row_y: i32, aim: u32) -> Option<SiteRange> {
    let (wanted, reach) = (tried.cell.wanted as i64, tried.effort.reach as i64);
    let mut sites = SiteRange {
        low: wanted - reach,
        high: wanted + reach,
    };
    for up in 0..search.planner_cell.rows {
        let (segment, gap) = row_gap(search, tried, row_y, aim, up)?;
        if segment.len() < gap.gap {
            return None;
        }
        sites = segment.reachable_sites(&gap, &sites);
        if sites.high < sites.low {
            return None;
        }
    }
    Some(sites)
}

/// Tries the sites near site `aim`.
fn try_aim(
    search: &Search,
    tried: &SpanCandidate,
    row_y: i32,
    aim: u32,
    best: &mut Best,
    curve: &mut CostCurve,
) -> Result<(), AllocError> {
    let Some(sites) = sites_near(search, tried, row_y, aim) else {
        return Ok(());
    };
    curve.begin(clipped(sites.low), clipped(sites.high), tried.effort.pitch);
    for up in 0..search.planner_cell.rows {
        if let Some((segment, gap)) = row_gap(search, tried, row_y, aim, up) {
            if gap.gap <= segment.len() {
                segment.add_pushed(&gap, &sites, curve)?;
            }
        }
    }
    curve.add_own(&tried.cell, &tried.effort)?;
    let least = curve.least();
    let cost = tried.base.saturating_add(least.value);
    if cost < best.cost {
        *best = Best {
            cost,
            gap: Some(Gap {
                span: tried.span,
                gap: 0,
                cell: PackedCell {
                    at: least.at,
                    ..tried.cell
                },
                aim,
            }),
        };
    }
    Ok(())
}

/// Tries a cell of several rows in a span of its lowest row: at its target, and at sites on both
/// sides of it.
pub(crate) fn try_tall_span(
    search: &Search,
    tried: &SpanCandidate,
    row_y: i32,
    best: &mut Best,
    curve: &mut CostCurve,
) -> Result<(), AllocError> {
    let Some(sites) = search.free_rows.spans.get(tried.span) else {
        return Ok(());
    };
    let wanted = tried.cell.wanted as i64;
    let last = sites.count as i64 - tried.cell.width as i64;
    let step = (tried.cell.width / 2).max(2) as i64;
    let unit = (tried.effort.pitch as i64).saturating_mul(tried.effort.factor as i64);
    for distance in [0i64, 1, 2] {
        let away = step.saturating_mul(distance);
        let cost = tried.base.saturating_add(away.saturating_mul(unit));
        if best.cost <= cost {
            return Ok(());
        }
        if wanted.saturating_add(away) <= last {
            let aim = clipped(wanted.saturating_add(away));
            try_aim(search, tried, row_y, aim, best, curve)?;
        }
        if 0 < distance && away <= wanted {
            let aim = clipped(wanted.saturating_sub(away));
            try_aim(search, tried, row_y, aim, best, curve)?;
        }
    }
    Ok(())
}
