//! The index of a frame by position, built once for a frame.

ghost use Rattle.std.specs.Prelude.{◌≡◌, ℕ, IfOk, IsTrue, slice_index_or, []};
ghost use Rattle.lf_segments.specs.Indexes.{IsIndexOf};
ghost use Rattle.lf_segments.specs.Strips.{AreNear, AreRowsNear, AreStrips};

use crate::extent::extent_of;
use crate::rows_by_y::{RowEntry, RowsByY};
use crate::segments::{Segments, SegmentsAndLand, segments_and_land};
use crate::soft_spans::SoftSpans;
use crate::strip::Strip;
use crate::strips::{StripRange, StripTable, near_strips, rows_near, strips_of};
use crate::team_starts::TeamStarts;
use lf_floorplan::Frame;
use lf_units::{Rect, Span};
use std::alloc::{AllocError, Global};
use std::marker::Model;

/// The index of a frame by position: its rows, the segments of its teams, their strips, the land,
/// and the soft spans of the segments.
///
/// A contract sees these lists, a rectangle that holds all rows, and the height of a row. Only
/// `build` allocates; each lookup is a binary search.
pub struct FrameIndex {
    rows: RowsByY,
    segments: Segments,
    land: Segments,
    strips: Vec<Strip>,
    starts: TeamStarts,
    soft: SoftSpans,
    extent: Rect,
    height: i64,
}

/// Written by hand: with a derived `drop`, the proof of each function that drops a `FrameIndex`
/// unfolds its fields.
impl Drop for FrameIndex {
    fn drop(self) {
        let FrameIndex {
            rows: _,
            segments: _,
            land: _,
            strips: _,
            starts: _,
            soft: _,
            extent: _,
            height: _,
        } = self;
    }
}

impl Model for FrameIndex {
    ghost use Rattle.std.specs.Prelude.{◌≡◌};
    ghost use Rattle.lf_segments.specs.Indexes.{FrameIndexView};
    ghost use Rattle.lf_segments.specs.RowStarts.{rows_of};
    ghost use Rattle.lf_segments.specs.Strips.{AreStrips, rows_in};

    ghost Value = { FrameIndexView };

    ghost view = { λ g. record {
      rows = g.rows;
      segments = g.segments;
      land = g.land;
      strips = g.strips.items;
      soft = g.soft;
      extent = g.extent;
      height = g.height;
    } };

    ghost invariant = { λ g. AreStrips g.rows g.height g.strips.items × (rows_in g.strips.items ≡ rows_of g.segments) };
}

impl FrameIndex {
    /// Returns the index of the frame. `Err` if an allocation fails.
    pub fn build(alloc: Global, frame: &Frame) -> Result<Self, AllocError>
        ensures { IfOk result (λ index. IsIndexOf frame.now index) }
    {
        let SegmentsAndLand { segments, land } = segments_and_land(alloc, frame)?;
        let strips = strips_of(alloc, frame, segments.as_slice())?;
        let soft = SoftSpans::build(alloc, frame, strips.as_slice())?;
        let rows = RowsByY::build(alloc, frame)?;
        let starts = TeamStarts::build(alloc, strips.as_slice())?;
        Ok(FrameIndex {
            rows,
            segments,
            land,
            strips,
            starts,
            soft,
            extent: extent_of(frame),
            height: frame.pitch.y,
        })
    }

    /// Returns the segments.
    pub fn segments(&self) -> &Segments
        ensures { result.now ≡ self.now.segments }
    {
        &self.segments
    }

    /// Returns the land, the segments as if there were no obstacles: the part of each row that is a
    /// team's ground.
    pub fn ground_segments(&self) -> &Segments
        ensures { result.now ≡ self.now.land }
    {
        &self.land
    }

    /// Returns the strips of the segments, in their order.
    pub fn strips(&self) -> &[Strip]
        ensures { result.now ≡ self.now.strips }
    {
        self.strips.as_slice()
    }

    /// Returns the rows in order of y.
    pub fn rows(&self) -> &RowsByY
        ensures { result.now ≡ self.now.rows }
    {
        &self.rows
    }

    /// Returns a rectangle that holds all rows, in database units.
    pub fn extent(&self) -> &Rect
        ensures { result.now ≡ self.now.extent }
    {
        &self.extent
    }

    /// Returns the soft spans of the segment with this number: its spans at which a point of its
    /// strip lies in a soft blockage. They are in database units, from left to right; empty if
    /// there is no such segment.
    pub fn soft_of(&self, segment: usize) -> &[Span]
        ensures { result.now ≡ slice_index_or self.now.soft segment [] }
    {
        self.soft.of_segment(segment)
    }

    /// Returns true only if no segment has soft spans, so no lookup of them is needed.
    pub fn has_no_soft(&self) -> bool
        ensures { IsTrue result → (k : ℕ) → slice_index_or self.now.soft k [] ≡ [] }
    {
        self.soft.is_empty()
    }

    /// Returns the numbers of the strips of a row and a team that overlap the range of x from `lo`
    /// on and below `hi`. They are consecutive.
    pub fn strips_overlapping(&self, row: usize, team: usize, lo: &i64, hi: &i64) -> StripRange
        ensures { AreNear self.now.strips row team lo.now hi.now result.start result.end }
    {
        let table = StripTable {
            strips: &self.strips,
            starts: &self.starts,
        };
        near_strips(&table, &self.segments, row, team, lo, hi)
    }

    /// Returns a run of the entries of the rows in order of y. It has each row whose strips may
    /// share a point with the rectangle.
    pub fn rows_near(&self, rect: &Rect) -> &[RowEntry]
        ensures { AreRowsNear self.now.rows self.now.height rect.now result.now }
    {
        rows_near(&self.rows, &self.height, rect)
    }

    /// A law: the strips are in order, and each lies on its row.
    pub fn strips_are_placed(&self)
        ensures { AreStrips self.now.rows self.now.height self.now.strips }
    {
        let _ = &self.strips;
    }
}
