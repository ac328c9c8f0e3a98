//! The nearest place between the marks of strips, found without a list of free spans.

ghost use Rattle.std.specs.Prelude.{◌≤ℤ◌, All, length, negsuc, pos};
ghost use Rattle.lf_units.specs.Spans.{IsFree, IsFreeIn, IsInOrder};
ghost use Rattle.lf_gaps.specs.Gaps.{FindsGap};
ghost use Rattle.lf_rules.specs.Padding.{HasRoomAround};
ghost use Rattle.lf_occupancy.specs.MarkLists.{HasPoints, all_padded, others_in, spans_in};
ghost use Rattle.lf_occupancy.specs.MarkedStrips.{AreMarksIn, MarkTheirBoxes, MarksItsBoxes, entries_in, strip_entries, views_in};
ghost use Rattle.lf_occupancy.specs.Strips.{AreFreeTo};

use crate::free_spans::{common_range, part_after, part_before};
use crate::marked_strips::{CellPadding, MarkedStrip, MarkedStrips};
use crate::strip_marks::{Mark, near_marks, padded_range, range_at, x_range_of};
use crate::widened::widened_area;
use lf_cells::CellId;
use lf_gaps::{GapTarget, nearer_in_gap, nearer_of};
use lf_units::Span;

/// The nearest place in the spans of a range that the entries of all cells except this one leave
/// free, with the padding around each. The marks are in the strip, from left to right.
fn nearest_beside(
    strip: &MarkedStrip<'_>,
    own: u32,
    marks: &[Mark],
    padding: &CellPadding,
    range: &Span,
    wanted: &GapTarget,
) -> Option<i64>
    requires reported { AreMarksIn strip.now marks.now }
    requires around { All (λ e. HasRoomAround e.area) (entries_in strip.now marks.now) }
    requires whole { All (λ e. HasPoints e.area) (entries_in strip.now marks.now) }
    requires order { IsInOrder
        (spans_in (others_in (all_padded padding.now.length (entries_in strip.now marks.now)) own)) }
    requires left { negsuc 2147483647 ≤ℤ range.now.lo }
    requires right { range.now.hi ≤ℤ pos 2147483647 }
    ensures { FindsGap (IsFree range.now
        (spans_in (others_in (all_padded padding.now.length (entries_in strip.now marks.now)) own))) wanted.now result }
{
    let mut best = None;
    let mut rest = *range;
    for mark in marks {
        if mark.own == own {
            continue;
        }
        let reach = range_at(strip, mark);
        let span = padded_range(&reach, padding);
        best = nearer_in_gap(best, &part_before(&rest, &span), wanted);
        rest = part_after(&rest, &span);
    }
    nearer_in_gap(best, &rest, wanted)
}

/// The nearest place in the spans of a strip, within a window, that the team's cells other than
/// this one leave free, with the padding around each. The widened strip has this area. Only the
/// marks near the window are visited.
fn nearest_in_mark_list(
    strip: &MarkedStrip<'_>,
    own: u32,
    extent: &Span,
    window: &Span,
    padding: &CellPadding,
    wanted: &GapTarget,
) -> Option<i64>
    requires marked { MarksItsBoxes strip.now }
    requires left { negsuc 2147483647 ≤ℤ extent.now.lo }
    requires right { extent.now.hi ≤ℤ pos 2147483647 }
    requires low { negsuc 4611686018427387903 ≤ℤ window.now.lo }
    ensures { FindsGap (IsFreeIn extent.now
        (spans_in (others_in (all_padded padding.now.length (strip_entries strip.now)) own)) window.now)
        wanted.now result }
{
    let range = common_range(window, extent);
    let lo = range.lo - padding.length;
    let hi = range.hi + padding.length;
    let near = near_marks(strip.mark_list, &lo, &hi);
    nearest_beside(strip, own, near, padding, &range, wanted)
}

/// The nearest place in the spans of a row's strips, within a window, that the team's cells other
/// than this one leave free, with the padding around each.
pub(crate) fn nearest_in_strips(
    marked: &MarkedStrips<'_>,
    row: usize,
    id: &CellId,
    window: &Span,
    padding: &CellPadding,
    wanted: &GapTarget,
) -> Option<i64>
    requires mark_lists { MarkTheirBoxes marked.now }
    requires low { negsuc 4611686018427387903 ≤ℤ window.now.lo }
    ensures { FindsGap (AreFreeTo marked.now.strips.now.index.now.strips (views_in marked.now) row id.now.team
        id.now.own window.now padding.now.length (length marked.now.strips.now.index.now.strips)) wanted.now result }
{
    let strips = marked.strips;
    let mark_lists = marked.mark_lists;
    strips.index.strips_are_placed();
    let list = strips.index.strips();
    let near = strips
        .index
        .strips_overlapping(row, id.team as usize, &window.lo, &window.hi);
    let mut best = None;
    for n in near.start..near.end {
        let span = x_range_of(&list[n].area);
        let strip = MarkedStrip {
            boxes: marked.boxes,
            team: id.team as usize,
            area: widened_area(strips, n),
            mark_list: &mark_lists[n],
        };
        let next = nearest_in_mark_list(&strip, id.own, &span, window, padding, wanted);
        best = nearer_of(&best, &next, &wanted.target);
    }
    best
}
