//! The nearest grid number at which a width fits one span of each of several lists.

ghost use Rattle.std.specs.Prelude.{◌≡◌, ◌<◌, ◌≤ℤ◌, ◌<ℤ◌, ◌↔◌, All, IfOk, IsTrue, length, map, pos};
ghost use Rattle.lf_units.specs.Grids.{FindsNearest, FitsSpan, IsBounded, IsBoundedSpan, IsGrid};
ghost use Rattle.lf_units.specs.Spans.{IsMeetAll, IsRising};
ghost use Rattle.lf_gaps.specs.Gaps.{FitsOne, FitsRows};
ghost use Rattle.lf_gaps.specs.Steps.{IsGapSearch, IsNearestSoFar, IsPast, IsWanted};

use crate::gap::nearer_of;
use lf_units::{SiteGrid, Span, nearest_fit, spans_meet_all};
use std::alloc::{AllocError, Global};

/// The width that a gap must have, and the target.
#[derive(Clone, Copy)]
struct Target {
    width: i64,
    target: i64,
}

fn wanted_of(width: i64, target: i64) -> Target
    ensures width { result.width ≡ width }
    ensures target { result.target ≡ target }
{
    Target { width, target }
}

/// Returns the grid number nearest to the target at which the width fits the span.
fn nearest_in_span(span: &Span, grid: &SiteGrid, wanted: &Target) -> Option<i64>
    requires grid { IsGrid grid.now }
    requires bounded { IsBoundedSpan span.now }
    requires wanted { IsWanted wanted.now }
    ensures { FindsNearest (λ x. FitsSpan span.now grid.now wanted.now.width x) wanted.now.target result }
{
    nearest_fit(span, grid, wanted.width, wanted.target)
}

/// Returns whether no number in the span or right of it can be as near as the best so far.
fn is_past(span: &Span, best: &Option<i64>, wanted: &Target) -> bool
    ensures { IsTrue result → IsPast span.now best.now wanted.now.target }
{
    let Some(found) = best else {
        return false;
    };
    if span.lo < wanted.target {
        return false;
    }
    found.abs_diff(wanted.target) < span.lo.abs_diff(wanted.target)
}

/// Returns whether no number in the span or left of it can be as near as the best so far.
fn is_before(span: &Span, best: &Option<i64>, wanted: &Target) -> bool
    requires bounded { IsBoundedSpan span.now }
    requires wanted { IsWanted wanted.now }
    ensures { IsTrue result → IsNearestSoFar span.now best.now wanted.now }
{
    let Some(found) = best else {
        return false;
    };
    let last = span.hi - wanted.width;
    if wanted.target < last {
        return false;
    }
    found.abs_diff(wanted.target) < last.abs_diff(wanted.target)
}

/// Returns the nearest number at which the width fits one of the spans. Searches from left to right
/// until the rest is too far right.
fn nearest_rightwards(spans: &[Span], grid: &SiteGrid, wanted: &Target) -> Option<i64>
    requires { IsGapSearch spans.now grid.now wanted.now }
    ensures { FindsNearest (λ x. FitsOne spans.now grid.now wanted.now.width x) wanted.now.target result }
{
    let mut best = None;
    for span in spans {
        if is_past(span, &best, wanted) {
            return best;
        }
        best = nearer_of(&best, &nearest_in_span(span, grid, wanted), &wanted.target);
    }
    best
}

/// Returns the nearest number at which the width fits one of the spans. Searches outwards from the
/// target, first right and then left, until the rest is too far.
fn nearest_of(spans: &[Span], grid: &SiteGrid, wanted: &Target) -> Option<i64>
    requires { IsGapSearch spans.now grid.now wanted.now }
    ensures { FindsNearest (λ x. FitsOne spans.now grid.now wanted.now.width x) wanted.now.target result }
{
    let middle = spans.partition_point(|span| span.hi <= wanted.target);
    let mut best = nearest_rightwards(&spans[middle..], grid, wanted);
    let mut i = middle;
    while 0 < i {
        i -= 1;
        let span = &spans[i];
        if is_before(span, &best, wanted) {
            return best;
        }
        best = nearer_of(&best, &nearest_in_span(span, grid, wanted), &wanted.target);
    }
    best
}

/// Returns the grid number nearest to the target at which the width lies in one span of each list;
/// the lesser of two that are equally near. `None` iff there is no such number. Spans that touch
/// remain separate.
///
/// There is at least one list, and each rises. Width and step are above 0. All numbers are in
/// database units, within 2^40 of 0. `Err` if an allocation fails.
pub fn best_in_row(
    alloc: Global,
    lists: &[Vec<Span>],
    grid: &SiteGrid,
    width: i64,
    target: i64,
) -> Result<Option<i64>, AllocError>
    requires some { 0 < length lists.now }
    requires rising { All (λ list. IsRising list.items) lists.now }
    requires bounded { All (λ list. All IsBoundedSpan list.items) lists.now }
    requires grid { IsGrid grid.now }
    requires wide { pos 0 <ℤ width }
    requires width { IsBounded width }
    requires target { IsBounded target }
    ensures { IfOk result (λ found. let rows = map (λ list. list.items) lists.now in
        FindsNearest (λ x. FitsRows rows grid.now width x) target found) }
{
    let wanted = wanted_of(width, target);
    if lists.len() == 1 {
        return Ok(nearest_of(lists[0].as_slice(), grid, &wanted));
    }
    let overlapping_one = spans_meet_all(alloc, lists)?;
    Ok(nearest_of(overlapping_one.as_slice(), grid, &wanted))
}
