//! Grids, and the grid number nearest to a target at which a width fits a span.

ghost use Rattle.std.specs.Prelude.{◌≡◌, ◌-ℤ◌, ◌+ℤ◌, ◌≤ℤ◌, ◌<ℤ◌, neg_ℤ, pos};
ghost use Rattle.lf_units.specs.Grids.{FindsNearest, FitsSpan, IsBounded, IsBoundedSpan, IsGrid, IsOnGrid, grid_of};
ghost use Rattle.lf_units.specs.GridSteps.{AreEnds, CanBeRounded, IsNearer};

use crate::span::Span;

/// The numbers a whole number of steps from the origin, in database units, as the sites of a row.
/// Contracts require a step above 0, and both numbers within 2^40 of 0.
#[derive(Clone, Copy, Debug, PartialEq, Eq)]
pub struct SiteGrid {
    pub origin: i64,
    pub step: i64,
}

/// Returns the remainder of the number on the grid. Its absolute value is less than one step.
fn beyond(grid: &SiteGrid, at: i64) -> i64
    requires { CanBeRounded grid.now at }
    ensures on_grid { IsOnGrid grid.now (at -ℤ result) }
    ensures low { neg_ℤ grid.now.step <ℤ result }
    ensures high { result <ℤ grid.now.step }
{
    (at - grid.origin) % grid.step
}

/// Returns the greatest grid number that is not above `at`.
fn last_to(grid: &SiteGrid, at: i64) -> i64
    requires { CanBeRounded grid.now at }
    ensures on_grid { IsOnGrid grid.now result }
    ensures below { result ≤ℤ at }
    ensures near { at <ℤ (result +ℤ grid.now.step) }
{
    let over = beyond(grid, at);
    if over < 0 {
        return at - over - grid.step;
    }
    at - over
}

/// Returns the least grid number that is not below `at`.
fn first_from(grid: &SiteGrid, at: i64) -> i64
    requires { CanBeRounded grid.now at }
    ensures on_grid { IsOnGrid grid.now result }
    ensures above { at ≤ℤ result }
    ensures near { (result -ℤ grid.now.step) <ℤ at }
{
    let below = last_to(grid, at);
    if below < at {
        return below + grid.step;
    }
    below
}

/// The least and the greatest grid number at which the width may lie in the span.
struct Ends {
    first: i64,
    last: i64,
}

fn ends_of(span: &Span, grid: &SiteGrid, width: i64) -> Ends
    requires grid { IsGrid grid.now }
    requires span { IsBoundedSpan span.now }
    requires width { IsBounded width }
    ensures { AreEnds span.now grid.now width result.first result.last }
{
    let first = first_from(grid, span.lo);
    let last = last_to(grid, span.hi - width);
    Ends { first, last }
}

/// Returns the nearer of two neighboring grid numbers around the target; the left one if both are
/// equally near.
fn nearer(grid: &SiteGrid, left: i64, target: i64) -> i64
    requires grid { IsGrid grid.now }
    requires target { IsBounded target }
    requires below { left ≤ℤ target }
    requires above { target <ℤ (left +ℤ grid.now.step) }
    ensures { IsNearer left (left +ℤ grid.now.step) target result }
{
    let right = left + grid.step;
    let after_it = target - left;
    let ahead = right - target;
    if ahead < after_it {
        return right;
    }
    left
}

/// Returns the grid number nearest to the target at which the width lies in the span; the lesser of
/// two that are equally near. `None` iff there is no such number. All lengths are in database units
/// and within 2^40 of 0; the step is above 0.
pub fn nearest_fit(span: &Span, grid: &SiteGrid, width: i64, target: i64) -> Option<i64>
    requires grid { IsGrid grid.now }
    requires span { IsBoundedSpan span.now }
    requires width { IsBounded width }
    requires target { IsBounded target }
    ensures { FindsNearest (λ x. FitsSpan span.now grid.now width x) target result }
{
    let Ends { first, last } = ends_of(span, grid, width);
    if last < first {
        return None;
    }
    if target <= first {
        return Some(first);
    }
    if last <= target {
        return Some(last);
    }
    let left = last_to(grid, target);
    Some(nearer(grid, left, target))
}

fn grid_from(origin: i64, step: i64) -> SiteGrid
    ensures { result ≡ grid_of origin step }
{
    SiteGrid { origin, step }
}

/// Returns `nearest_fit` on the grid of this origin and step, under the same conditions.
pub fn nearest_on_grid(span: &Span, origin: i64, step: i64, width: i64, target: i64) -> Option<i64>
    requires grid { IsGrid (grid_of origin step) }
    requires span { IsBoundedSpan span.now }
    requires width { IsBounded width }
    requires target { IsBounded target }
    ensures { FindsNearest (λ x. FitsSpan span.now (grid_of origin step) width x) target result }
{
    nearest_fit(span, &grid_from(origin, step), width, target)
}
