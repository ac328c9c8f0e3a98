//! Segments of the built-in design, and its rows in order of their y.

use crate::designs::{Requested, holds};
use lf_def::DEMO_DEF;
use lf_frame::{Frame, Loaded};
use lf_segments::{RowEntry, RowsByY, Segment, Segments};
use lf_tests_support::with_line;
use lf_units::Span;
use std::alloc::{AllocError, Global};
use std::test::Fail;

/// The row, the team and the span of each segment. A is team 0, B is 1, and the ground team is 2.
const OF_DESIGN: [(usize, usize, i64, i64); 10] = [
    (0, 0, 0, 4000),
    (0, 1, 6000, 10_000),
    (0, 2, 4400, 6000),
    (1, 0, 0, 4000),
    (1, 1, 6000, 10_000),
    (1, 2, 4000, 6000),
    (2, 1, 6000, 10_000),
    (2, 2, 0, 6000),
    (3, 1, 6000, 10_000),
    (3, 2, 0, 6000),
];

/// Whether the segments are these.
fn are(segments: &[Segment], wanted: &[(usize, usize, i64, i64)]) -> bool {
    if segments.len() != wanted.len() {
        return false;
    }
    for (segment, (row, team, lo, hi)) in segments.iter().zip(wanted.iter()) {
        let span = Span { lo: *lo, hi: *hi };
        if (segment.row, segment.team, segment.span) != (*row, *team, span) {
            return false;
        }
    }
    true
}

/// Whether the built-in frame has its segments, and they are found by row and by x.
fn has_segments(alloc: Global, frame: &Frame) -> Result<bool, AllocError> {
    let segments = Segments::cut(alloc, frame)?;
    Ok(
        are(segments.as_slice(), &OF_DESIGN)
            && are(segments.of_row(1, 2), &OF_DESIGN[5..6])
            && segments.of_row(2, 0).is_empty()
            && segments.segment_at(0, 2, 4400) == Some(2)
            && segments.segment_at(0, 2, 4399).is_none(),
    )
}

/// Whether the segments of a fence of two rectangles continue where the rectangles touch.
fn has_joined_segments(alloc: Global, frame: &Frame) -> Result<bool, AllocError> {
    let segments = Segments::cut(alloc, frame)?;
    Ok(
        are(segments.of_row(0, 0), &[(0, 0, 0, 4000)])
            && are(segments.of_row(1, 0), &[(1, 0, 0, 500)])
            && are(segments.of_row(1, 2), &[(1, 2, 4000, 6000)]),
    )
}

/// Whether the entries are of the given rows, in this order.
fn are_rows(entries: &[RowEntry], wanted: &[usize]) -> bool {
    if entries.len() != wanted.len() {
        return false;
    }
    for (entry, row) in entries.iter().zip(wanted.iter()) {
        if entry.row != *row {
            return false;
        }
    }
    true
}

/// Whether the rows of a frame whose first and last row have the same y are found by their y.
fn has_rows(alloc: Global, frame: &Frame) -> Result<bool, AllocError> {
    let rows = RowsByY::build(alloc, frame)?;
    Ok(
        are_rows(rows.at(8000), &[0, 3])
            && are_rows(rows.between(2000, 4001), &[1, 2])
            && rows.at(0).is_empty(),
    )
}

/// The conditions on a frame.
#[derive(Clone, Copy)]
enum Case {
    Segments,
    JoinedSegments,
    Rows,
}

impl Requested for Case {
    fn holds(&self, alloc: Global, design: Loaded) -> Result<bool, Fail> {
        let frame = &design.frame;
        Ok(match self {
            Case::Segments => has_segments(alloc, frame)?,
            Case::JoinedSegments => has_joined_segments(alloc, frame)?,
            Case::Rows => has_rows(alloc, frame)?,
        })
    }
}

#[test]
fn segments_of_the_design(rt: HostRuntime) -> Result<(), Fail> {
    assert!(rt; holds(rt.alloc(), DEMO_DEF, &Case::Segments)?);
    Ok(())
}

#[test]
fn segments_of_two_rectangles_join(rt: HostRuntime) -> Result<(), Fail> {
    let line = b"- A ( 0 0 ) ( 500 4000 ) ( 500 0 ) ( 4000 3000 ) + TYPE FENCE ;";
    let def = with_line(rt.alloc(), DEMO_DEF, 11, line)?;
    assert!(rt; holds(rt.alloc(), &def, &Case::JoinedSegments)?);
    Ok(())
}

#[test]
fn rows_by_y(rt: HostRuntime) -> Result<(), Fail> {
    let first = b"ROW r0 core 400 8000 N DO 9 BY 1 STEP 200 0 ;";
    let last = b"ROW r3 core 5000 8000 N DO 9 BY 1 STEP 200 0 ;";
    let lower = with_line(rt.alloc(), DEMO_DEF, 6, first)?;
    let def = with_line(rt.alloc(), &lower, 9, last)?;
    assert!(rt; holds(rt.alloc(), &def, &Case::Rows)?);
    Ok(())
}
