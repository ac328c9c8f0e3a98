//! The intersection of lists of spans.

ghost use Rattle.std.specs.Prelude.{◌<◌, ◌↔◌, All, IfOk, IsTrue, OnOk, length, map};
ghost use Rattle.lf_units.specs.Spans.{IsFilled, IsMeet, IsMeetAll, IsRising};
ghost use Rattle.lf_units.specs.Steps.{AddsFilled, IsOverlap};

use crate::span::Span;
use std::alloc::{AllocError, Global};

/// Returns the intersection of two spans. It is empty if it does not begin before its end.
pub(crate) fn overlap(first: &Span, second: &Span) -> Span
    ensures { IsOverlap first.now second.now result }
{
    Span {
        lo: first.lo.max(second.lo),
        hi: first.hi.min(second.hi),
    }
}

/// Returns whether the span holds a number.
pub(crate) fn is_filled(span: &Span) -> bool
    ensures { IsTrue result ↔ IsFilled span.now }
{
    span.lo < span.hi
}

/// Appends the span if it holds a number. `Err` if an allocation fails.
pub(crate) fn push_filled(span: &Span, spans: &mut Vec<Span>) -> Result<(), AllocError>
    ensures { OnOk result (AddsFilled span.now spans.old.items spans.new.items) }
{
    if is_filled(span) {
        spans.push(*span)?;
    }
    Ok(())
}

/// Returns the intersection of two lists that rise. A filled span lies in one of its spans iff it
/// lies in a span of each list. The result rises; spans that touch remain separate. `Err` if an
/// allocation fails.
pub fn spans_meet(alloc: Global, a: &[Span], b: &[Span]) -> Result<Vec<Span>, AllocError>
    requires first { IsRising a.now }
    requires second { IsRising b.now }
    ensures { IfOk result (λ overlapping_one. IsMeet a.now b.now overlapping_one.items) }
{
    let mut overlapping_one = Vec::new(alloc);
    let mut i = 0;
    let mut j = 0;
    while i < a.len() {
        if b.len() <= j {
            return Ok(overlapping_one);
        }
        let first = &a[i];
        let second = &b[j];
        push_filled(&overlap(first, second), &mut overlapping_one)?;
        if first.hi <= second.hi {
            i += 1;
        } else {
            j += 1;
        }
    }
    Ok(overlapping_one)
}

/// Returns the intersection of one or more rising lists. A filled span lies in one of its spans iff
/// it lies in a span of each list. The result rises. `Err` if an allocation fails.
pub fn spans_meet_all(alloc: Global, lists: &[Vec<Span>]) -> Result<Vec<Span>, AllocError>
    requires some { 0 < length lists.now }
    requires rising { All (λ list. IsRising list.items) lists.now }
    ensures { IfOk result (λ overlapping_one. IsMeetAll (map (λ list. list.items) lists.now) overlapping_one.items) }
{
    let mut overlapping_one = Vec::from_slice(alloc, lists[0].as_slice())?;
    for i in 1..lists.len() {
        overlapping_one = spans_meet(alloc, overlapping_one.as_slice(), lists[i].as_slice())?;
    }
    Ok(overlapping_one)
}
