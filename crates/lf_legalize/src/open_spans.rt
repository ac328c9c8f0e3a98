//! The free spans of a row without those that soft blockages cover.

ghost use Rattle.std.specs.Prelude.{◌≡◌, ℕ, IfOk, [], slice_index_or};
ghost use Rattle.lf_units.specs.Spans.{IsMinus, IsRising};
ghost use Rattle.lf_occupancy.specs.Views.{IsPaddingOf};
ghost use Rattle.lf_legalize.specs.Levels.{AreWithoutSoft, AreOpenInRow};
ghost use Rattle.lf_legalize.specs.RowSearches.{padding_in};

use crate::row_search::{RowSearch, SearchWindow, search_is_occupied};
use lf_segments::{FrameIndex, StripRange};
use lf_units::{Span, spans_minus};
use std::alloc::{AllocError, Global};

/// The spans without the soft ones, which are empty for most strips.
fn without(alloc: Global, spans: Vec<Span>, soft: &[Span]) -> Result<Vec<Span>, AllocError>
    requires spans { IsRising spans.items }
    requires soft { IsRising soft.now }
    ensures { IfOk result (λ left. IsMinus spans.items soft.now left.items) }
{
    if soft.is_empty() {
        return Ok(spans);
    }
    spans_minus(alloc, spans.as_slice(), soft)
}

/// The free spans without those that soft blockages cover in these strips.
fn without_soft(
    alloc: Global,
    index: &FrameIndex,
    near: &StripRange,
    free: Vec<Span>,
) -> Result<Vec<Span>, AllocError>
    requires free { IsRising free.items }
    requires soft { (k : ℕ) → IsRising (slice_index_or index.now.soft k []) }
    ensures { IfOk result (λ left. AreWithoutSoft index.now.soft near.now.start near.now.end free.items left.items) }
{
    let mut left = free;
    for n in near.start..near.end {
        left = without(alloc, left, index.soft_of(n))?;
    }
    Ok(left)
}

/// The padding of the search, in database units.
pub(crate) fn padding_length(search: &RowSearch<'_>) -> i64
    ensures is { result ≡ padding_in search.now }
    ensures padding { IsPaddingOf search.now.occupancy.now result }
{
    search_is_occupied(search);
    search.padding.length(search.frame)
}

/// The spans of a row, within a window, that are free for the cell of the search. They keep the
/// padding from the team's other cells, and are off soft blockages.
pub(crate) fn open_in_row(
    alloc: Global,
    search: &RowSearch<'_>,
    number: usize,
    window: &SearchWindow,
) -> Result<Vec<Span>, AllocError>
    ensures { IfOk result (λ left. AreOpenInRow search.now.occupancy.now number search.now.id window.now.span
        (padding_in search.now) left.items) }
{
    search_is_occupied(search);
    let padding = padding_length(search);
    let free = search
        .occupancy
        .free_in_row(alloc, number, search.id, &window.span, padding)?;
    let index = search.occupancy.index();
    if index.has_no_soft() {
        return Ok(free);
    }
    let near = index.strips_overlapping(
        number,
        search.id.team as usize,
        &window.span.lo,
        &window.span.hi,
    );
    without_soft(alloc, index, &near, free)
}
