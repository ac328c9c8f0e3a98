//! The segments of one row.

ghost use Rattle.std.specs.Prelude.{◌≡◌, ◌+◌, ◌<◌, ◌≤◌, ◌++◌, IfOk, OnOk, ℕ, List, [], length, map, slice_index_or};
ghost use Rattle.lf_units.specs.declared.geometry.Rect.{Rect};
ghost use Rattle.lf_units.specs.declared.placed.Placed.{Placed};
ghost use Rattle.lf_floorplan.specs.declared.parts.Row.{Row};
ghost use Rattle.lf_segments.specs.Boxes.{segment_of, AddsRow, AreBoxesOf, AreClear, AreOpen, AreRowBoxes, AreSorted, IsNextGroup};

use crate::cover::{covered_over, free_beside};
use crate::segment::Segment;
use lf_floorplan::{Frame, Row};
use lf_units::{Placed, Span};
use std::alloc::{AllocError, Global};

/// Appends spans as segments of a row and a team. `Err` if an allocation fails.
fn push_spans(
    segments: &mut Vec<Segment>,
    row: usize,
    team: usize,
    spans: &[Span],
) -> Result<(), AllocError>
    ensures { OnOk result (segments.new.items ≡ segments.old.items ++ map (segment_of row team) spans.now) }
{
    for span in spans {
        segments.push(Segment {
            row,
            team,
            span: *span,
        })?;
    }
    Ok(())
}

/// Returns the number of boxes with a lesser number. The boxes are in order of their numbers.
fn count_below(boxes: &[Placed], own: u32) -> usize
    requires { AreSorted boxes.now }
    ensures within { result ≤ length boxes.now }
    ensures below { (k : ℕ) → (d : Placed) → k < result → (slice_index_or boxes.now k d).own < own }
    ensures rest { (k : ℕ) → (d : Placed) → result ≤ k → k < length boxes.now
        → own ≤ (slice_index_or boxes.now k d).own }
{
    boxes.partition_point(|placed| placed.own < own)
}

/// Returns the number of boxes with this number or a lesser one. The boxes are in order of their
/// numbers.
fn count_up_to(boxes: &[Placed], own: u32) -> usize
    requires { AreSorted boxes.now }
    ensures within { result ≤ length boxes.now }
    ensures up_to { (k : ℕ) → (d : Placed) → k < result → (slice_index_or boxes.now k d).own ≤ own }
    ensures rest { (k : ℕ) → (d : Placed) → result ≤ k → k < length boxes.now
        → own < (slice_index_or boxes.now k d).own }
{
    boxes.partition_point(|placed| placed.own <= own)
}

/// Returns the boxes of the least number that is not below this one; empty if all are below.
fn next_group<'a>(boxes: &'a [Placed], least: u32) -> &'a [Placed]
    requires { AreSorted boxes.now }
    ensures { IsNextGroup boxes.now least result.now }
{
    let rest = &boxes[count_below(boxes, least)..];
    if rest.is_empty() {
        return rest;
    }
    &rest[..count_up_to(rest, rest[0].own)]
}

/// Returns the number of the ground team.
fn ground_number(frame: &Frame) -> u32
    ensures { result ≡ length frame.now.teams }
{
    frame.teams.len() as u32
}

/// Returns the spans of the row that are clear of obstacles, given the boxes near it. `Err` if an
/// allocation fails.
fn clear_spans(
    alloc: Global,
    frame: &Frame,
    row: &Row,
    near: &[Placed],
) -> Result<Vec<Span>, AllocError>
    ghost obstacles: { List Rect }
    requires { AreRowBoxes frame.now obstacles row.now near.now }
    ensures { IfOk result (λ spans. AreClear frame.now obstacles row.now spans.items) }
{
    let obstacles = next_group(near, ground_number(frame));
    free_beside(alloc, &row.area(&frame.pitch), obstacles)
}

/// Returns the spans of the row that the ground team may use, given the boxes near it. `Err` if an
/// allocation fails.
fn ground_spans(
    alloc: Global,
    frame: &Frame,
    row: &Row,
    near: &[Placed],
) -> Result<Vec<Span>, AllocError>
    ghost obstacles: { List Rect }
    requires { AreRowBoxes frame.now obstacles row.now near.now }
    ensures { IfOk result (λ spans. AreOpen frame.now obstacles row.now (length frame.now.teams) spans.items) }
{
    free_beside(alloc, &row.area(&frame.pitch), near)
}

/// Appends the row's segments of the fences. Visits only fences with a box near the row. `Err` if
/// an allocation fails.
fn push_fences(
    alloc: Global,
    frame: &Frame,
    number: usize,
    row: &Row,
    near: &[Placed],
    segments: &mut Vec<Segment>,
) -> Result<(), AllocError>
    ghost obstacles: { List Rect }
    requires { AreRowBoxes frame.now obstacles row.now near.now }
    ensures { OnOk result
        (AddsRow frame.now obstacles number row.now (length frame.now.teams) segments.old.items segments.new.items) }
{
    let ground = ground_number(frame);
    let area = row.area(&frame.pitch);
    let clear = clear_spans(alloc, frame, row, near)?;
    let mut team = 0;
    while team < ground {
        let group = next_group(near, team);
        if group.is_empty() {
            return Ok(());
        }
        let own = group[0].own;
        if ground <= own {
            return Ok(());
        }
        let spans = covered_over(alloc, &area, group, clear.as_slice())?;
        push_spans(segments, number, own as usize, spans.as_slice())?;
        team = own + 1;
    }
    Ok(())
}

/// Appends the segments of the row, first those of the fences and then those of the ground team.
/// `near` has the boxes near the row, in order of their numbers. `Err` if an allocation fails.
pub(crate) fn push_row(
    alloc: Global,
    frame: &Frame,
    number: usize,
    row: &Row,
    near: &[Placed],
    segments: &mut Vec<Segment>,
) -> Result<(), AllocError>
    ghost obstacles: { List Rect }
    requires { AreRowBoxes frame.now obstacles row.now near.now }
    ensures { OnOk result (AddsRow frame.now obstacles number row.now
        (length frame.now.teams + 1) segments.old.items segments.new.items) }
{
    push_fences(alloc, frame, number, row, near, segments)?;
    let spans = ground_spans(alloc, frame, row, near)?;
    push_spans(segments, number, frame.teams.len(), spans.as_slice())?;
    Ok(())
}

/// Returns the boxes of fences, which precede those of obstacles.
fn without_obstacles<'a>(frame: &Frame, near: &'a [Placed]) -> &'a [Placed]
    requires { AreSorted near.now }
    ensures boxes { (row : Row) → AreBoxesOf frame.now frame.now.obstacles row near.now
        → AreBoxesOf frame.now [] row result.now }
    ensures sorted { AreSorted result.now }
{
    &near[..count_below(near, ground_number(frame))]
}

/// Appends the land of the row, its segments as if there were no obstacles. `near` has the boxes
/// near the row, in order of their numbers. `Err` if an allocation fails.
pub(crate) fn push_land(
    alloc: Global,
    frame: &Frame,
    number: usize,
    row: &Row,
    near: &[Placed],
    land: &mut Vec<Segment>,
) -> Result<(), AllocError>
    requires { AreRowBoxes frame.now frame.now.obstacles row.now near.now }
    ensures { OnOk result
        (AddsRow frame.now [] number row.now (length frame.now.teams + 1) land.old.items land.new.items) }
{
    let fences = without_obstacles(frame, near);
    push_row(alloc, frame, number, row, fences, land)
}
