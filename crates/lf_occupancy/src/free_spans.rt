//! Walks along a range from one taken span to the next, and splits it into free parts and the
//! remaining range.

ghost use Rattle.std.specs.Prelude.{◌≡◌, OnOk};
ghost use Rattle.std.specs.Int.{int_max, int_min};
ghost use Rattle.lf_units.specs.Steps.{AddsFilled, IsBefore, IsAfter};

use lf_units::Span;
use std::alloc::AllocError;

/// The range that two spans have in common.
pub(crate) fn common_range(first: &Span, second: &Span) -> Span
    ensures low { result.lo ≡ int_max first.now.lo second.now.lo }
    ensures high { result.hi ≡ int_min first.now.hi second.now.hi }
{
    Span {
        lo: first.lo.max(second.lo),
        hi: first.hi.min(second.hi),
    }
}

/// The part of the remaining range in front of the span.
pub(crate) fn part_before(rest: &Span, span: &Span) -> Span
    ensures { IsBefore rest.now span.now result }
{
    Span {
        lo: rest.lo,
        hi: rest.hi.min(span.lo),
    }
}

/// The part of the remaining range after the span.
pub(crate) fn part_after(rest: &Span, span: &Span) -> Span
    ensures { IsAfter rest.now span.now result }
{
    Span {
        lo: rest.lo.max(span.hi),
        hi: rest.hi,
    }
}

/// Appends the span if it holds a number.
pub(crate) fn push_filled(span: &Span, spans: &mut Vec<Span>) -> Result<(), AllocError>
    ensures { OnOk result (AddsFilled span.now spans.old.items spans.new.items) }
{
    if span.lo < span.hi {
        spans.push(*span)?;
    }
    Ok(())
}
