//! The marks of one strip, and the entries that they describe.

ghost use Rattle.std.specs.Prelude.{[], All, List, Option, ◌≡◌, ◌↔◌, ◌<◌, ◌≤◌, ◌≤ℤ◌, ◌<ℤ◌, ◌+◌, ◌+ℤ◌, ◌-ℤ◌, ◌*ℤ◌, ℕ, IfOk, IsTrue, MatchOption, OnOk, insert, length, negsuc, pos, slice_index_or};
ghost use Rattle.std.specs.Vec.{vec_capacity, vec_len};
ghost use Rattle.lf_units.specs.Spans.{IsFree, IsFreeIn, IsInOrder};
ghost use Rattle.lf_rules.specs.Padding.{HasRoomAround, IsShort};
ghost use Rattle.lf_units.specs.declared.geometry.Rect.{Rect};
ghost use Rattle.lf_occupancy.specs.declared.strip_marks.Mark.{Mark};
ghost use Rattle.lf_occupancy.specs.MarkedStrips.{AreMarksIn, MarksItsBoxes, strip_entries, entries_in, entry_in};
ghost use Rattle.lf_occupancy.specs.MarkLists.{AreRising, MarksAreOf, HasAtMostOne, HasRoom, HasRoomOf, IsJoined, KeepsMarksOf, IsLeast, IsMarked};
ghost use Rattle.lf_occupancy.specs.MarkLists.{IsNearRun, IsNearZero, IsPlaceX, IsUnmarked, IsPutIn, HasPoints, LiesBeside, OverlapsEntry, OverlapsOne, IsMarkOfCell};
ghost use Rattle.lf_occupancy.specs.MarkLists.{HasNoMarkFrom, MarkIsOf, all_padded, marked_entries, marked_entry, entry_of_box, others_in, part_in, some_box, spans_in};
ghost use Rattle.lf_occupancy.specs.MarkLists.{TakesPart, wider_range, x_range};

use crate::boxes::CellBox;
use crate::free_spans::{common_range, part_after, part_before, push_filled};
use crate::marked_strips::{CellPadding, CoveredPart, MarkedStrip};
use lf_units::{Rect, Span, free_in};
use std::alloc::{AllocError, Global};

/// The part of a widened strip that the box of a cell covers, in database units. It has at least
/// one point.
#[derive(Clone, Copy, Debug, PartialEq, Eq)]
pub(crate) struct Entry {
    /// The position of the cell among its team's cells.
    pub(crate) own: u32,
    pub(crate) area: Rect,
}

/// What is kept of an entry: the cell's position among its team's cells, and the entry's left edge
/// and width in database units. The remaining edges follow from the cell's box. A mark fills 16
/// bytes, because lists of such elements are shifted fastest.
#[derive(Clone, Copy, Debug, PartialEq, Eq)]
pub(crate) struct Mark {
    pub(crate) own: u32,
    pub(crate) left: i32,
    pub(crate) width: i64,
}

/// The marks of one widened strip in the order of their left edges, and a bound on the width of its
/// entries, in database units.
#[derive(Drop)]
pub(crate) struct StripMarks {
    pub(crate) marks: Vec<Mark>,
    pub(crate) widest: i64,
}

/// The x range of a rectangle.
pub(crate) fn x_range_of(rect: &Rect) -> Span
    ensures { result ≡ x_range rect.now }
{
    Span {
        lo: rect.x1,
        hi: rect.x2,
    }
}

/// The part of the first rectangle that the second one covers.
pub(crate) fn part_of(a: &Rect, b: &Rect) -> Rect
    ensures { result ≡ part_in a.now b.now }
{
    Rect {
        x1: a.x1.max(b.x1),
        y1: a.y1.max(b.y1),
        x2: a.x2.min(b.x2),
        y2: a.y2.min(b.y2),
    }
}

/// Whether a point lies in the rectangle.
pub(crate) fn has_points(rect: &Rect) -> bool
    ensures { IsTrue result ↔ HasPoints rect.now }
{
    if rect.x2 <= rect.x1 {
        return false;
    }
    rect.y1 < rect.y2
}

/// The box. If there is no box, a rectangle without points.
fn box_or_none(found: &Option<Rect>) -> Rect
    ensures { result ≡ some_box found.now }
{
    match found {
        Some(rect) => *rect,
        None => Rect {
            x1: 0,
            y1: 0,
            x2: 0,
            y2: 0,
        },
    }
}

/// The entry of a cell with this box in a strip with this area.
fn entry_of(area: &Rect, found: &Option<Rect>, own: u32) -> Entry
    ensures { result ≡ entry_of_box area.now found.now own }
{
    Entry {
        own,
        area: part_of(area, &box_or_none(found)),
    }
}

/// The entry of a mark in the strip.
fn entry_at(strip: &MarkedStrip<'_>, mark: &Mark) -> Entry
    ensures { result ≡ entry_in strip.now mark.now }
{
    entry_of(
        &strip.area,
        &strip.boxes.get_in(strip.team, mark.own),
        mark.own,
    )
}

/// The x range of the entry of a mark in the strip.
pub(crate) fn range_at(strip: &MarkedStrip<'_>, mark: &Mark) -> Span
    requires { MarkIsOf (entry_in strip.now mark.now) mark.now }
    ensures { result ≡ x_range (entry_in strip.now mark.now).area }
{
    let lo = i64::from(mark.left);
    Span {
        lo,
        hi: lo + mark.width,
    }
}

/// Whether the mark begins to the right of `left`.
fn is_beyond(mark: &Mark, left: &i64) -> bool
    ensures { IsTrue result ↔ (left.now <ℤ mark.now.left) }
{
    i64::from(mark.left) > *left
}

/// Whether the mark begins to the left of x.
fn begins_before(mark: &Mark, x: &i64) -> bool
    ensures { IsTrue result ↔ (mark.now.left <ℤ x.now) }
{
    i64::from(mark.left) < *x
}

/// The number of marks whose left edge is below x. One comparison suffices if all are below x.
/// Otherwise they are found by binary search, in steps without a jump that depends on the marks.
pub(crate) fn count_before(marks: &[Mark], x: &i64) -> usize
    requires { AreRising marks.now }
    ensures within { result ≤ length marks.now }
    ensures below { (k : ℕ) → (d : Mark) → k < result → (slice_index_or marks.now k d).left <ℤ x.now }
    ensures rest { (k : ℕ) → (d : Mark) → result ≤ k → k < length marks.now
        → x.now ≤ℤ (slice_index_or marks.now k d).left }
{
    let many = marks.len();
    if 0 < many && begins_before(&marks[many - 1], x) {
        return many;
    }
    let mut from = 0;
    let mut rest = many;
    while 0 < rest {
        let half = rest - rest / 2;
        if begins_before(&marks[from + half - 1], x) {
            from += half;
        }
        rest /= 2;
    }
    from
}

/// The number of marks in front of the first one whose left edge is not below x. They are passed
/// one by one: whoever asks for them visits each.
fn count_front(marks: &[Mark], x: &i64) -> usize
    requires { AreRising marks.now }
    ensures within { result ≤ length marks.now }
    ensures below { (k : ℕ) → (d : Mark) → k < result → (slice_index_or marks.now k d).left <ℤ x.now }
    ensures rest { (k : ℕ) → (d : Mark) → result ≤ k → k < length marks.now
        → x.now ≤ℤ (slice_index_or marks.now k d).left }
{
    for n in 0..marks.len() {
        if !begins_before(&marks[n], x) {
            return n;
        }
    }
    marks.len()
}

/// The marks of the entries near a range of x. The first is found by binary search.
pub(crate) fn near_marks<'a>(mark_list: &'a StripMarks, lo: &i64, hi: &i64) -> &'a [Mark]
    requires rising { AreRising mark_list.now.marks.items }
    requires some { pos 0 ≤ℤ mark_list.now.widest }
    requires most { mark_list.now.widest ≤ℤ pos 1099511627776 }
    requires low { negsuc 4611686018427387903 ≤ℤ lo.now }
    ensures near { (cells : List (Option Rect)) → (area : Rect) → IsMarked cells area mark_list.now →
        IsNearRun (marked_entries cells area mark_list.now.marks.items) lo.now hi.now
        (marked_entries cells area result.now) }
    ensures reported { (cells : List (Option Rect)) → (area : Rect) → IsMarked cells area mark_list.now
        → MarksAreOf cells area result.now }
{
    let marks = mark_list.marks.as_slice();
    let from = *lo - mark_list.widest;
    let rest = &marks[count_before(marks, &from)..];
    &rest[..count_front(rest, hi)]
}

/// Whether the range and the x range of the rectangle have no number in common.
fn lies_beside(range: &Span, rect: &Rect) -> bool
    ensures { IsTrue result ↔ LiesBeside range.now rect.now }
{
    range.hi <= rect.x1 || rect.x2 <= range.lo
}

/// The cell's position if it is less than `so_far`, is not `but`, and its entry shares a point with
/// the rectangle. Otherwise `so_far`.
fn lesser(
    strip: &MarkedStrip<'_>,
    mark: &Mark,
    rect: &Rect,
    but: u32,
    so_far: Option<u32>,
) -> Option<u32>
    requires { MarkIsOf (entry_in strip.now mark.now) mark.now }
    ensures { IsLeast (λ own. OverlapsEntry rect.now but own (entry_in strip.now mark.now)) so_far result }
{
    if mark.own == but {
        return so_far;
    }
    if let Some(least) = so_far
        && least <= mark.own
    {
        return so_far;
    }
    if !lies_beside(&range_at(strip, mark), rect) && rect.overlaps(&entry_at(strip, mark).area) {
        Some(mark.own)
    } else {
        so_far
    }
}

/// The least such position over all these marks.
fn least_in(
    strip: &MarkedStrip<'_>,
    marks: &[Mark],
    rect: &Rect,
    but: u32,
    so_far: Option<u32>,
) -> Option<u32>
    requires { AreMarksIn strip.now marks.now }
    ensures { IsLeast (OverlapsOne (entries_in strip.now marks.now) rect.now but) so_far result }
{
    let mut least = so_far;
    for mark in marks {
        least = lesser(strip, mark, rect, but, least);
    }
    least
}

/// The least such position over the marks of the strip. Only the marks near the rectangle are
/// visited.
pub(crate) fn least_in_mark_list(
    strip: &MarkedStrip<'_>,
    rect: &Rect,
    but: u32,
    so_far: Option<u32>,
) -> Option<u32>
    requires { MarksItsBoxes strip.now }
    ensures { IsLeast (OverlapsOne (strip_entries strip.now) rect.now but) so_far result }
{
    let lo = rect.x1.max(strip.area.x1);
    let near = near_marks(strip.mark_list, &lo, &rect.x2);
    least_in(strip, near, rect, but, so_far)
}

/// The range widened by the padding on its left and on its right.
pub(crate) fn padded_range(range: &Span, padding: &CellPadding) -> Span
    requires low { negsuc 4611686018427387903 ≤ℤ range.now.lo }
    requires high { range.now.hi ≤ℤ pos 4611686018427387904 }
    ensures { result ≡ wider_range padding.now.length range.now }
{
    Span {
        lo: range.lo - padding.length,
        hi: range.hi + padding.length,
    }
}

/// The x ranges of the entries of the marks in the strip, each widened by the padding.
fn padded_of(
    alloc: Global,
    strip: &MarkedStrip<'_>,
    marks: &[Mark],
    padding: &CellPadding,
) -> Result<Vec<Span>, AllocError>
    requires reported { AreMarksIn strip.now marks.now }
    requires around { All (λ e. HasRoomAround e.area) (entries_in strip.now marks.now) }
    ensures { IfOk result
        (λ list. list.items ≡ spans_in (all_padded padding.now.length (entries_in strip.now marks.now))) }
{
    let mut list = Vec::with_capacity(alloc, marks.len())?;
    for mark in marks {
        let range = range_at(strip, mark);
        list.push(padded_range(&range, padding))?;
    }
    Ok(list)
}

/// The spans of a range that the entries of all cells except this one leave free, with the padding
/// around each. The marks are in the strip, from left to right.
fn free_beside(
    alloc: Global,
    strip: &MarkedStrip<'_>,
    own: u32,
    marks: &[Mark],
    padding: &CellPadding,
    range: &Span,
) -> Result<Vec<Span>, AllocError>
    requires reported { AreMarksIn strip.now marks.now }
    requires around { All (λ e. HasRoomAround e.area) (entries_in strip.now marks.now) }
    requires whole { All (λ e. HasPoints e.area) (entries_in strip.now marks.now) }
    requires order { IsInOrder
        (spans_in (others_in (all_padded padding.now.length (entries_in strip.now marks.now)) own)) }
    ensures { IfOk result (λ free. IsFree range.now
        (spans_in (others_in (all_padded padding.now.length (entries_in strip.now marks.now)) own)) free.items) }
{
    let mut free = Vec::with_capacity(alloc, marks.len().saturating_add(1))?;
    let mut rest = *range;
    for mark in marks {
        if mark.own == own {
            continue;
        }
        let reach = range_at(strip, mark);
        let span = padded_range(&reach, padding);
        push_filled(&part_before(&rest, &span), &mut free)?;
        rest = part_after(&rest, &span);
    }
    push_filled(&rest, &mut free)?;
    Ok(free)
}

/// A bound on the width of the strip's entries, each widened by the padding.
fn widest_padded(mark_list: &StripMarks, padding: &CellPadding) -> i64
    requires some { pos 0 ≤ℤ mark_list.now.widest }
    requires most { mark_list.now.widest ≤ℤ pos 1099511627776 }
    ensures { result ≡ mark_list.now.widest +ℤ (pos 2 *ℤ padding.now.length) }
{
    mark_list.widest + 2 * padding.length
}

/// The spans of a strip, within a window, that the team's cells other than this one leave free,
/// with the padding around each. The widened strip has this area. Only the marks near the window
/// are visited.
pub(crate) fn free_in_mark_list(
    alloc: Global,
    strip: &MarkedStrip<'_>,
    own: u32,
    extent: &Span,
    window: &Span,
    padding: &CellPadding,
) -> Result<Vec<Span>, AllocError>
    requires marked { MarksItsBoxes strip.now }
    requires left { negsuc 2147483647 ≤ℤ extent.now.lo }
    requires right { extent.now.hi ≤ℤ pos 2147483647 }
    requires low { negsuc 4611686018427387903 ≤ℤ window.now.lo }
    ensures { IfOk result (λ free. IsFreeIn extent.now
        (spans_in (others_in (all_padded padding.now.length (strip_entries strip.now)) own))
        window.now free.items) }
{
    let range = common_range(window, extent);
    let lo = range.lo - padding.length;
    let hi = range.hi + padding.length;
    let near = near_marks(strip.mark_list, &lo, &hi);
    free_beside(alloc, strip, own, near, padding, &range)
}

/// The spans of a strip that its team's cells leave free, with the padding around each. The widened
/// strip has this area.
pub(crate) fn free_of_all(
    alloc: Global,
    strip: &MarkedStrip<'_>,
    extent: &Span,
    padding: &CellPadding,
) -> Result<Vec<Span>, AllocError>
    requires marked { MarksItsBoxes strip.now }
    requires low { negsuc 4611686018427387903 ≤ℤ extent.now.lo }
    ensures { IfOk result (λ free. IsFreeIn extent.now
        (spans_in (all_padded padding.now.length (strip_entries strip.now))) extent.now free.items) }
{
    let all = padded_of(alloc, strip, strip.mark_list.marks.as_slice(), padding)?;
    free_in(
        alloc,
        extent,
        all.as_slice(),
        widest_padded(strip.mark_list, padding),
        extent,
    )
}

/// The position of the cell's mark among the marks from position `from` on. If present it is at
/// `left`. `None` if the cell has no mark there. Marks farther right are not visited.
fn place_from(marks: &[Mark], own: u32, from: usize, left: &i64) -> Option<usize>
    requires bound { from ≤ length marks.now }
    requires order { AreRising marks.now }
    requires begins { All (λ m. m.own ≡ own → m.left ≡ left.now) marks.now }
    ensures { MatchOption result (HasNoMarkFrom marks.now own from) (IsMarkOfCell marks.now own) }
{
    for n in from..marks.len() {
        if marks[n].own == own {
            return Some(n);
        }
        if is_beyond(&marks[n], left) {
            return None;
        }
    }
    None
}

/// Removes the cell's mark. If present it is at `left`; found by binary search.
pub(crate) fn unmark(mark_list: &mut StripMarks, own: u32, left: &i64)
    requires { HasAtMostOne own left.now mark_list.old }
    ensures { IsUnmarked own mark_list.old mark_list.new }
{
    let marks = mark_list.marks.as_slice();
    if let Some(n) = place_from(marks, own, count_before(marks, left), left) {
        mark_list.marks.remove(n);
    }
}

/// Makes room for `more` marks. If there is not enough, it adds room for a quarter of the present
/// marks, and for two at least. There are many strips, so doubling each would cost too much memory.
pub(crate) fn reserve_marks(mark_list: &mut StripMarks, more: usize) -> Result<(), AllocError>
    ensures kept { KeepsMarksOf mark_list.old mark_list.new }
    ensures ok { OnOk result (HasRoomOf more mark_list.new) }
{
    let marks = &mut mark_list.marks;
    if more <= marks.capacity().saturating_sub(marks.len()) {
        return Ok(());
    }
    marks.reserve_exact(more.max(marks.len() / 4).max(2))
}

/// Inserts the mark at position `at`. Does not allocate.
fn insert_at(marks: &mut Vec<Mark>, at: usize, mark: &Mark)
    requires bound { at ≤ vec_len marks.old }
    requires room { vec_len marks.old < vec_capacity marks.old }
    ensures items { marks.new.items ≡ insert marks.old.items at mark.now }
    ensures more { vec_len marks.new ≡ vec_len marks.old + 1 }
    ensures room { vec_capacity marks.new ≡ vec_capacity marks.old }
{
    if at == marks.len() {
        marks.push_reserved(*mark);
        return;
    }
    if marks.insert(at, *mark).is_err() {
        unreachable!();
    }
}

/// Inserts the mark of an entry with this part at its place in the order. Does not allocate.
fn join(mark_list: &mut StripMarks, mark: &Mark, part: &CoveredPart<'_>)
    requires order { AreRising mark_list.old.marks.items }
    requires room { HasRoom mark_list.old }
    ensures { IsJoined mark.now (part.now.rect.now.x2 -ℤ part.now.rect.now.x1) mark_list.old mark_list.new }
{
    let at = count_before(mark_list.marks.as_slice(), &i64::from(mark.left));
    mark_list.widest = mark_list.widest.max(part.rect.x2 - part.rect.x1);
    insert_at(&mut mark_list.marks, at, mark);
}

/// The mark of a cell for a part of its strip.
fn mark_of(own: u32, part: &CoveredPart<'_>) -> Mark
    ensures is { result.own ≡ own }
    ensures left { result.left ≡ part.now.rect.now.x1 }
    ensures width { result.width ≡ (part.now.rect.now.x2 -ℤ part.now.rect.now.x1) }
    ensures some { pos 0 ≤ℤ result.width }
{
    Mark {
        own,
        left: part.rect.x1 as i32,
        width: part.rect.x2 - part.rect.x1,
    }
}

/// Marks the part of the cell's box that lies in the strip's area, if there is one. Does not
/// allocate.
pub(crate) fn put_in(mark_list: &mut StripMarks, area: &Rect, cell: &CellBox<'_>)
    requires within { IsNearZero area.now }
    requires takes { TakesPart area.now cell.now.rect.now mark_list.old }
    ensures { IsPutIn cell.now.id.now.own cell.now.rect.now area.now mark_list.old mark_list.new }
{
    let part = part_of(area, cell.rect);
    if has_points(&part) {
        let covered = CoveredPart { rect: &part };
        join(mark_list, &mark_of(cell.id.own, &covered), &covered);
    }
}
