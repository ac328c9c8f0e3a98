//! The nearest place in one gap, and the nearer of two places.

ghost use Rattle.std.specs.Bool.{OnFalse, OnTrue};
ghost use Rattle.lf_units.specs.Grids.{FindsNearest, FitsSpan, IsBoundedSpan, IsNoFarther};
ghost use Rattle.lf_units.specs.Spans.{IsFilled};
ghost use Rattle.lf_gaps.specs.Steps.{AddsGap, IsNearerOf};

use crate::gap_target::GapTarget;
use lf_units::{Span, nearest_fit};

/// Returns whether the first number is nearer to the target than the second, or equally near and
/// less or equal.
fn is_nearer(first: &i64, second: &i64, target: &i64) -> bool
    ensures yes { OnTrue result (IsNoFarther target.now first.now second.now) }
    ensures other { OnFalse result (IsNoFarther target.now second.now first.now) }
{
    let near = first.abs_diff(*target);
    let far = second.abs_diff(*target);
    if near == far {
        return first <= second;
    }
    near < far
}

/// Returns the nearer to the target of two options, the lesser if they are equally near. The other
/// one if one is `None`.
pub fn nearer_of(best: &Option<i64>, next: &Option<i64>, target: &i64) -> Option<i64>
    ensures { IsNearerOf best.now next.now target.now result }
{
    let Some(first) = best else {
        return *next;
    };
    let Some(second) = next else {
        return *best;
    };
    if is_nearer(second, first, target) {
        *next
    } else {
        *best
    }
}

/// Returns the grid number nearest to the target at which the width lies in the gap.
fn nearest_in(gap: &Span, wanted: &GapTarget) -> Option<i64>
    requires { IsBoundedSpan gap.now }
    ensures { FindsNearest (λ x. FitsSpan gap.now wanted.now.grid wanted.now.width x) wanted.now.target result }
{
    nearest_fit(gap, &wanted.grid, wanted.width, wanted.target)
}

/// Returns the nearer to the target of this number and the grid number nearest to it at which the
/// width lies in the gap. Few gaps are wide enough to come here, so walks do not hold this code.
#[inline(never)]
fn nearer_in_wide_gap(best: &Option<i64>, gap: &Span, wanted: &GapTarget) -> Option<i64>
    requires { IsBoundedSpan gap.now }
    ensures { AddsGap gap.now wanted.now best.now result }
{
    nearer_of(best, &nearest_in(gap, wanted), &wanted.target)
}

/// Returns the nearer to the target of this number and the grid number nearest to it at which the
/// width lies in the gap. A gap that holds a number is within 2^40 of 0.
#[inline(always)]
pub fn nearer_in_gap(best: Option<i64>, gap: &Span, wanted: &GapTarget) -> Option<i64>
    requires { IsFilled gap.now → IsBoundedSpan gap.now }
    ensures { AddsGap gap.now wanted.now best result }
{
    if gap.hi <= gap.lo {
        return best;
    }
    if gap.hi - gap.lo < wanted.width {
        return best;
    }
    nearer_in_wide_gap(&best, gap, wanted)
}
