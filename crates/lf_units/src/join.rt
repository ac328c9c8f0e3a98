//! The union of spans.

ghost use Rattle.std.specs.Prelude.{◌↔◌, ◌≤ℤ◌, IfOk, IsPermutation, IsTrue};
ghost use Rattle.lf_units.specs.Spans.{IsFilled, IsInOrder, IsJoin};
ghost use Rattle.lf_units.specs.Steps.{IsLonger};

use crate::meet::{is_filled, push_filled};
use crate::span::Span;
use std::alloc::{AllocError, Global};

/// Returns whether the last span is filled and the next one begins in it or at its end.
fn reaches(last: &Span, next: &Span) -> bool
    ensures { IsTrue result ↔ (IsFilled last.now × (next.now.lo ≤ℤ last.now.hi)) }
{
    if !is_filled(last) {
        return false;
    }
    next.lo <= last.hi
}

/// Returns the last span, extended to the end of the next one if that is later.
fn longer(last: &Span, next: &Span) -> Span
    ensures { IsLonger last.now next.now result }
{
    Span {
        lo: last.lo,
        hi: last.hi.max(next.hi),
    }
}

/// Returns the spans in order of `lo`. `Err` if an allocation fails.
fn in_order(alloc: Global, spans: &[Span]) -> Result<Vec<Span>, AllocError>
    ensures moved { IfOk result (λ sorted. IsPermutation spans.now sorted.items) }
    ensures order { IfOk result (λ sorted. IsInOrder sorted.items) }
{
    let mut sorted = Vec::from_slice(alloc, spans)?;
    sorted.sort_unstable_by_key(|span| span.lo);
    Ok(sorted)
}

/// Returns the maximal spans of the union. The given spans are in order of `lo`. `Err` if an
/// allocation fails.
fn join_ordered(alloc: Global, spans: &[Span]) -> Result<Vec<Span>, AllocError>
    requires { IsInOrder spans.now }
    ensures { IfOk result (λ joined. IsJoin spans.now joined.items) }
{
    let mut joined = Vec::new(alloc);
    let mut last = Span { lo: 0, hi: 0 };
    for span in spans {
        if !is_filled(span) {
            continue;
        }
        if reaches(&last, span) {
            last = longer(&last, span);
            continue;
        }
        push_filled(&last, &mut joined)?;
        last = *span;
    }
    push_filled(&last, &mut joined)?;
    Ok(joined)
}

/// Returns the union of any list, which need not be in order. A filled span lies in a span of the
/// result iff each of its numbers lies in a span of the list. The result rises, and spans that
/// touch become one. `Err` if an allocation fails.
pub fn spans_join(alloc: Global, spans: &[Span]) -> Result<Vec<Span>, AllocError>
    ensures { IfOk result (λ joined. IsJoin spans.now joined.items) }
{
    let sorted = in_order(alloc, spans)?;
    join_ordered(alloc, sorted.as_slice())
}
