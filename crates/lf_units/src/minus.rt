//! Differences of spans.

ghost use Rattle.std.specs.Prelude.{All, IfOk, map};
ghost use Rattle.lf_units.specs.Spans.{IsFree, IsInOrder, IsMinus, IsRising};
ghost use Rattle.lf_units.specs.Steps.{ContainsSpan, IsBefore, IsAfter};

use crate::meet::{is_filled, push_filled, spans_meet};
use crate::span::{HasSpan, Span};
use std::alloc::{AllocError, Global};

/// Returns the part of the rest in front of the span.
fn before(rest: &Span, span: &Span) -> Span
    ensures { IsBefore rest.now span.now result }
{
    Span {
        lo: rest.lo,
        hi: rest.hi.min(span.lo),
    }
}

/// Returns the part of the rest after the span.
fn after_it(rest: &Span, span: &Span) -> Span
    ensures { IsAfter rest.now span.now result }
{
    Span {
        lo: rest.lo.max(span.hi),
        hi: rest.hi,
    }
}

/// Returns the free spans of a range, all of them maximal. A filled span lies in one of them iff it
/// lies in the range and shares no number with a taken span. The taken spans are in order of `lo`
/// and may overlap. `Err` if an allocation fails.
pub fn free_spans_in<T: HasSpan>(
    alloc: Global,
    range: &Span,
    taken: &[T],
) -> Result<Vec<Span>, AllocError>
    requires { IsInOrder (map T.span taken.now) }
    ensures { IfOk result (λ free. IsFree range.now (map T.span taken.now) free.items) }
{
    let mut free = Vec::new(alloc);
    let mut rest = *range;
    for entry in taken {
        let span = entry.span();
        if !is_filled(&span) {
            continue;
        }
        push_filled(&before(&rest, &span), &mut free)?;
        rest = after_it(&rest, &span);
    }
    push_filled(&rest, &mut free)?;
    Ok(free)
}

/// Returns the span from the start of the first span to the end of the last one.
fn range_of(spans: &[Span]) -> Span
    requires { IsRising spans.now }
    ensures { All (λ s. ContainsSpan s result) spans.now }
{
    if spans.is_empty() {
        return Span { lo: 0, hi: 0 };
    }
    Span {
        lo: spans[0].lo,
        hi: spans[spans.len() - 1].hi,
    }
}

/// Returns the spans of `a` without `b`. A filled span lies in one of them iff it lies in one of
/// `a` and shares no number with any of `b`. Both lists rise, and so does the result. `Err` if an
/// allocation fails.
pub fn spans_minus(alloc: Global, a: &[Span], b: &[Span]) -> Result<Vec<Span>, AllocError>
    requires first { IsRising a.now }
    requires second { IsRising b.now }
    ensures { IfOk result (λ left. IsMinus a.now b.now left.items) }
{
    let free = free_spans_in(alloc, &range_of(a), b)?;
    spans_meet(alloc, a, free.as_slice())
}
