//! The spans of segments under soft blockages.

ghost use Rattle.std.specs.Prelude.{◌≡◌, ◌∷◌, ◌++◌, ◌<ℤ◌, ℕ, All, IfOk, IsPermutation, IsTrue, OnOk, slice_index_or, []};
ghost use Rattle.lf_units.specs.Area.{SharesPoint};
ghost use Rattle.lf_segments.specs.Soft.{AreOverlappedSpans, AreSoftIn, AreSoftOver, AreStarts, lists_from, soft_boxes};

use crate::cover::{span_of, spans_of};
use crate::obstacle_boxes::push_placed;
use crate::strip::Strip;
use lf_floorplan::Frame;
use lf_units::{Placed, RTree, Rect, Span, spans_join, spans_meet};
use std::alloc::{AllocError, Global};
use std::marker::Model;

/// For each segment its soft spans: one list of all spans, and where those of each segment begin. A
/// contract sees a list of lists.
#[derive(Drop)]
pub(crate) struct SoftSpans {
    spans: Vec<Span>,
    starts: Vec<usize>,
}

impl Model for SoftSpans {
    ghost use Rattle.std.specs.Prelude.{List};
    ghost use Rattle.lf_units.specs.declared.span.Span.{Span};
    ghost use Rattle.lf_segments.specs.Soft.{AreStarts, lists_from};

    ghost Value = { List (List Span) };

    ghost view = { λ s. lists_from s.spans.items s.starts.items };

    ghost invariant = { λ s. AreStarts s.spans.items s.starts.items };
}

/// Returns the spans of the segment with this number; empty if there is no such segment.
fn piece<'a>(spans: &'a [Span], starts: &[usize], segment: usize) -> &'a [Span]
    requires { AreStarts spans.now starts.now }
    ensures { result.now ≡ slice_index_or (lists_from spans.now starts.now) segment [] }
{
    let Some(start) = starts.get(segment) else {
        return &spans[spans.len()..];
    };
    let end = match starts.get(segment + 1) {
        Some(end) => *end,
        None => spans.len(),
    };
    &spans[*start..end]
}

/// Returns a tree of the soft blockages of the frame, for searches by position. `Err` if an
/// allocation fails.
fn soft_tree(alloc: Global, frame: &Frame) -> Result<RTree, AllocError>
    ensures { IfOk result (λ tree. IsPermutation (soft_boxes frame.now) tree) }
{
    let mut boxes = Vec::new(alloc);
    push_placed(&mut boxes, 0, frame.soft.as_slice())?;
    RTree::build(alloc, boxes)
}

/// Returns the maximal spans of an area's x range that the x ranges of the boxes cover. `Err` if an
/// allocation fails.
fn spans_overlapped(alloc: Global, area: &Rect, boxes: &[Placed]) -> Result<Vec<Span>, AllocError>
    requires { area.now.x1 <ℤ area.now.x2 }
    ensures { IfOk result (λ spans. AreOverlappedSpans area.now boxes.now spans.items) }
{
    let joined = spans_join(alloc, spans_of(alloc, boxes)?.as_slice())?;
    spans_meet(alloc, &[span_of(area)], joined.as_slice())
}

/// Returns the maximal spans of an area's x range at which a point of it lies in a soft blockage.
/// Replaces the contents of `near`. `Err` if an allocation fails.
fn soft_in(
    alloc: Global,
    frame: &Frame,
    tree: &RTree,
    area: &Rect,
    near: &mut Vec<Placed>,
) -> Result<Vec<Span>, AllocError>
    requires tree { IsPermutation (soft_boxes frame.now) tree.now }
    requires wide { area.now.x1 <ℤ area.now.x2 }
    ensures { IfOk result (λ spans. AreSoftIn frame.now area.now spans.items) }
{
    tree.find_overlapping(area, near)?;
    spans_overlapped(alloc, area, near.as_slice())
}

/// Appends one more list of spans to the concatenated lists. `Err` if an allocation fails.
fn push_piece(
    spans: &mut Vec<Span>,
    starts: &mut Vec<usize>,
    more: &[Span],
) -> Result<(), AllocError>
    requires { AreStarts spans.old.items starts.old.items }
    ensures starts { OnOk result (AreStarts spans.new.items starts.new.items) }
    ensures pieces { OnOk result
        (lists_from spans.new.items starts.new.items ≡ lists_from spans.old.items starts.old.items ++ more.now ∷ []) }
{
    starts.push(spans.as_slice().len())?;
    spans.extend_from_slice(more)?;
    Ok(())
}

impl SoftSpans {
    /// Returns for each strip the spans at which a point of it lies in a soft blockage of the
    /// frame. `Err` if an allocation fails.
    pub(crate) fn build(alloc: Global, frame: &Frame, strips: &[Strip]) -> Result<Self, AllocError>
        requires { All (λ g. g.area.x1 <ℤ g.area.x2) strips.now }
        ensures { IfOk result (AreSoftOver frame.now strips.now) }
    {
        let tree = soft_tree(alloc, frame)?;
        let mut near = Vec::new(alloc);
        let mut spans = Vec::new(alloc);
        let mut starts = Vec::with_capacity(alloc, strips.len())?;
        for strip in strips {
            let more = soft_in(alloc, frame, &tree, &strip.area, &mut near)?;
            push_piece(&mut spans, &mut starts, more.as_slice())?;
        }
        Ok(SoftSpans { spans, starts })
    }

    /// Returns true only if no segment has a span. Examines only the list of spans.
    pub(crate) fn is_empty(&self) -> bool
        ensures { IsTrue result → (k : ℕ) → slice_index_or self.now k [] ≡ [] }
    {
        self.spans.is_empty()
    }

    /// Returns the spans of the segment with this number; empty if there is no such segment.
    pub(crate) fn of_segment(&self, segment: usize) -> &[Span]
        ensures { result.now ≡ slice_index_or self.now segment [] }
    {
        piece(&self.spans, &self.starts, segment)
    }
}
