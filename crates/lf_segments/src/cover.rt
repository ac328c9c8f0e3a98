//! The parts of a range that boxes leave free, and the parts that they cover over a height.

ghost use Rattle.std.specs.Prelude.{◌≡◌, ◌⊎◌, ◌↔◌, ◌≤ℤ◌, ◌<ℤ◌, All, IfOk, IsFalse, IsPermutation, IsSomeAnd, IsTrue, map};
ghost use Rattle.lf_units.specs.Area.{SharesPoint};
ghost use Rattle.lf_units.specs.Spans.{IsFree, IsInOrder, IsRising};
ghost use Rattle.lf_segments.specs.Boxes.{x_extent, AreSpansAt, IsCoveredAt, IsCoveredOver};

use lf_units::{Placed, Rect, Span, free_spans_in, spans_join, spans_meet};
use std::alloc::{AllocError, Global};

/// Returns the x range of a rectangle.
pub fn span_of(rect: &Rect) -> Span
    ensures { result ≡ x_extent rect.now }
{
    Span {
        lo: rect.x1,
        hi: rect.x2,
    }
}

/// Returns the x ranges of boxes. `Err` if an allocation fails.
pub fn spans_of(alloc: Global, boxes: &[Placed]) -> Result<Vec<Span>, AllocError>
    ensures { IfOk result (λ spans. spans.items ≡ map (λ p. x_extent p.rect) boxes.now) }
{
    let mut spans = Vec::new(alloc);
    for placed in boxes {
        spans.push(span_of(&placed.rect))?;
    }
    Ok(spans)
}

/// Returns the x ranges of boxes, in order of `lo`. `Err` if an allocation fails.
fn spans_in_order(alloc: Global, boxes: &[Placed]) -> Result<Vec<Span>, AllocError>
    ensures moved { IfOk result (λ spans. IsPermutation (map (λ p. x_extent p.rect) boxes.now) spans.items) }
    ensures order { IfOk result (λ spans. IsInOrder spans.items) }
{
    let mut spans = spans_of(alloc, boxes)?;
    spans.sort_unstable_by_key(|span| span.lo);
    Ok(spans)
}

/// Returns the parts of an area's x range that the boxes leave free. `Err` if an allocation fails.
pub(crate) fn free_beside(
    alloc: Global,
    area: &Rect,
    boxes: &[Placed],
) -> Result<Vec<Span>, AllocError>
    ensures { IfOk result (λ free. IsFree (x_extent area.now) (map (λ p. x_extent p.rect) boxes.now) free.items) }
{
    let taken = spans_in_order(alloc, boxes)?;
    free_spans_in(alloc, &span_of(area), taken.as_slice())
}

/// Returns whether the rectangle covers this y.
fn reaches(rect: &Rect, y: &i64) -> bool
    ensures { IsTrue result ↔ ((rect.now.y1 ≤ℤ y.now) × (y.now <ℤ rect.now.y2)) }
{
    rect.y1 <= *y && *y < rect.y2
}

/// Returns the x ranges of the boxes that cover this y. `Err` if an allocation fails.
fn spans_at(alloc: Global, boxes: &[Placed], y: &i64) -> Result<Vec<Span>, AllocError>
    ensures { IfOk result (λ spans. AreSpansAt boxes.now y.now spans.items) }
{
    let mut spans = Vec::new(alloc);
    for placed in boxes {
        if !reaches(&placed.rect, y) {
            continue;
        }
        spans.push(span_of(&placed.rect))?;
    }
    Ok(spans)
}

/// Returns the parts of the free spans that the boxes cover at this y. `Err` if an allocation
/// fails.
fn covered_at(
    alloc: Global,
    boxes: &[Placed],
    y: &i64,
    free: &[Span],
) -> Result<Vec<Span>, AllocError>
    requires { IsRising free.now }
    ensures { IfOk result (λ covered. IsCoveredAt boxes.now y.now free.now covered.items) }
{
    let joined = spans_join(alloc, spans_at(alloc, boxes, y)?.as_slice())?;
    spans_meet(alloc, free, joined.as_slice())
}

/// Returns whether the box ends below the area's upper edge, and at another y than the last one.
fn ends_elsewhere(placed: &Placed, area: &Rect, last: &Option<Placed>) -> bool
    ensures ends { IsTrue result → placed.now.rect.y2 <ℤ area.now.y2 }
    ensures not { IsFalse result → (area.now.y2 ≤ℤ placed.now.rect.y2)
        ⊎ IsSomeAnd last.now (λ l. l.rect.y2 ≡ placed.now.rect.y2) }
{
    if let Some(last) = last
        && last.rect.y2 == placed.rect.y2
    {
        return false;
    }
    placed.rect.y2 < area.y2
}

/// Returns the parts of the free spans that the boxes cover over the whole height of the area. The
/// cover changes only where a box begins or ends, and only an end can reduce it. So it is computed
/// at the area's lower edge and at each end within it, once for consecutive boxes with the same
/// end. `Err` if an allocation fails.
pub(crate) fn covered_over(
    alloc: Global,
    area: &Rect,
    boxes: &[Placed],
    free: &[Span],
) -> Result<Vec<Span>, AllocError>
    requires high { area.now.y1 <ℤ area.now.y2 }
    requires rising { IsRising free.now }
    requires near { All (λ p. SharesPoint area.now p.rect) boxes.now }
    ensures { IfOk result (λ covered. IsCoveredOver boxes.now area.now.y1 area.now.y2 free.now covered.items) }
{
    let mut covered = covered_at(alloc, boxes, &area.y1, free)?;
    let mut last = None;
    for placed in boxes {
        if !ends_elsewhere(placed, area, &last) {
            continue;
        }
        covered = covered_at(alloc, boxes, &placed.rect.y2, covered.as_slice())?;
        last = Some(*placed);
    }
    Ok(covered)
}
