//! The free spans within a window.

ghost use Rattle.std.specs.Prelude.{◌<◌, ◌≤◌, ◌-ℤ◌, ◌≤ℤ◌, ◌<ℤ◌, All, IfOk, ℕ, get_or, length, map, negsuc, pos};
ghost use Rattle.lf_units.specs.Spans.{IsFreeIn, IsInOrder};
ghost use Rattle.lf_units.specs.declared.span.Span.{Span};

use crate::meet::overlap;
use crate::minus::free_spans_in;
use crate::span::{HasSpan, Span};
use std::alloc::{AllocError, Global};

/// Returns the number of spans that begin before the limit. The spans are in order of `lo`, so they
/// are the first ones. Found by binary search.
fn count_before<T: HasSpan>(taken: &[T], limit: &i64) -> usize
    requires { IsInOrder (map T.span taken.now) }
    ensures within { result ≤ length taken.now }
    ensures before { (k : ℕ) → (d : Span) → k < result → (get_or (map T.span taken.now) k d).lo <ℤ limit.now }
    ensures after_it { (k : ℕ) → (d : Span) → result ≤ k → k < length taken.now
        → limit.now ≤ℤ (get_or (map T.span taken.now) k d).lo }
{
    taken.partition_point(|entry| entry.span().lo < *limit)
}

/// Returns the free spans of a segment within a window. A filled span lies in one of them iff it
/// lies in the segment and the window and shares no number with a taken span.
///
/// The taken spans are in order of `lo` and may overlap. No taken span is wider than `widest`,
/// which is from 0 to 2^62, so only those near the window are examined. The window begins at -2^62
/// or above. `Err` if an allocation fails.
pub fn free_in<T: HasSpan>(
    alloc: Global,
    segment: &Span,
    taken: &[T],
    widest: i64,
    window: &Span,
) -> Result<Vec<Span>, AllocError>
    requires order { IsInOrder (map T.span taken.now) }
    requires wide { All (λ s. (s.hi -ℤ s.lo) ≤ℤ widest) (map T.span taken.now) }
    requires some { pos 0 ≤ℤ widest }
    requires most { widest ≤ℤ pos 4611686018427387904 }
    requires low { negsuc 4611686018427387903 ≤ℤ window.now.lo }
    ensures { IfOk result (λ free. IsFreeIn segment.now (map T.span taken.now) window.now free.items) }
{
    let range = overlap(segment, window);
    let rest = &taken[count_before(taken, &(range.lo - widest))..];
    let near = &rest[..count_before(rest, &range.hi)];
    free_spans_in(alloc, &range, near)
}
