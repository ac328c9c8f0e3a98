//! A frame together with its index, borrowed as a pair.

ghost use Rattle.std.specs.Prelude.{◌≡◌, ◌↔◌, IsTrue};
ghost use Rattle.lf_floorplan.specs.Ground.{IsClear, StaysInGround};
ghost use Rattle.lf_segments.specs.Indexes.{IsExtentOf, IsIndexOf};
ghost use Rattle.lf_segments.specs.IndexedFrames.{AreRowsAt, AreRowsBetween, IsSoftOf};
ghost use Rattle.lf_segments.specs.Lookups.{IsBoxOnRows};

use crate::frame_index::FrameIndex;
use crate::index_laws::{cut_is_unique, lies_in_segments};
use crate::row_lookup::{lies_in, row_at};
use crate::rows_by_y::RowEntry;
use lf_floorplan::{Frame, FrameQuery};
use lf_units::{Rect, Span};
use std::marker::Model;

/// A frame and its index, both borrowed. A contract sees the frame.
///
/// It implements `FrameQuery` of `lf_floorplan` by binary search, without allocating.
#[derive(Drop)]
pub struct IndexedFrame<'a> {
    frame: &'a Frame,
    index: &'a FrameIndex,
}

impl<'a> Model for IndexedFrame<'a> {
    ghost use Rattle.lf_floorplan.specs.declared.frame.Frame.{Frame};
    ghost use Rattle.lf_segments.specs.Indexes.{IsIndexOf};

    ghost Value = { Frame };

    ghost view = { λ p. p.frame.now };

    ghost invariant = { λ p. IsIndexOf p.frame.now p.index.now };
}

/// Returns whether every point of the box is ground of the team. The box must rest on rows.
fn keeps_ground(frame: &Frame, index: &FrameIndex, team: usize, rect: &Rect) -> bool
    requires index { IsIndexOf frame.now index.now }
    requires box_on_rows { IsBoxOnRows frame.now rect.now }
    ensures { IsTrue result ↔ StaysInGround frame.now team rect.now }
{
    lies_in_segments();
    lies_in(frame, index.rows(), index.ground_segments(), team, rect)
}

/// Returns whether no point of the box is in an obstacle. The box must rest on rows in the team's
/// ground.
fn keeps_clear(frame: &Frame, index: &FrameIndex, team: usize, rect: &Rect) -> bool
    requires index { IsIndexOf frame.now index.now }
    requires box_on_rows { IsBoxOnRows frame.now rect.now }
    requires inside { StaysInGround frame.now team rect.now }
    ensures { IsTrue result ↔ IsClear frame.now rect.now }
{
    lies_in_segments();
    lies_in(frame, index.rows(), index.segments(), team, rect)
}

/// Returns the soft spans of a segment.
fn soft_of<'a>(frame: &Frame, index: &'a FrameIndex, segment: usize) -> &'a [Span]
    requires { IsIndexOf frame.now index.now }
    ensures { IsSoftOf frame.now segment result.now }
{
    cut_is_unique();
    index.soft_of(segment)
}

impl<'a> IndexedFrame<'a> {
    /// Returns the pair of a frame and its index. The index must be that of this frame.
    pub fn new(frame: &'a Frame, index: &'a FrameIndex) -> IndexedFrame<'a>
        requires { IsIndexOf frame.now index.now }
        ensures { result ≡ frame.now }
    {
        IndexedFrame { frame, index }
    }

    /// Returns the index of the frame.
    pub fn index(&self) -> &'a FrameIndex
        ensures { IsIndexOf self.now result.now }
    {
        self.index
    }

    /// Returns the rows at this y, in database units, in order of x. Found by binary search.
    pub fn rows_at(&self, y: i64) -> &'a [RowEntry]
        ensures { AreRowsAt self.now y result.now }
    {
        self.index.rows().at(y)
    }

    /// Returns the rows from one y on and below another, in database units, in order of y and then
    /// of x. Found by binary search.
    pub fn rows_between(&self, from: i64, to: i64) -> &'a [RowEntry]
        ensures { AreRowsBetween self.now from to result.now }
    {
        self.index.rows().between(from, to)
    }

    /// Returns a rectangle that holds all rows, in database units.
    pub fn extent(&self) -> &'a Rect
        ensures { IsExtentOf self.now result.now }
    {
        self.index.extent()
    }

    /// Returns the spans of the segment with this number that lie under soft blockages, in database
    /// units, from left to right; empty if there is no such segment. Segments are numbered as in
    /// `Segments::cut` of the frame.
    pub fn soft_of(&self, segment: usize) -> &'a [Span]
        ensures { IsSoftOf self.now segment result.now }
    {
        soft_of(self.frame, self.index, segment)
    }
}

impl<'a> FrameQuery for IndexedFrame<'a> {
    ghost of = { λ p. p };

    fn frame(&self) -> &Frame {
        self.frame
    }

    fn row_at(&self, y: i64, x: i64) -> Option<usize> {
        row_at(self.frame, self.index.rows(), &y, &x)
    }

    fn stays_in_ground(&self, team: usize, rect: &Rect) -> bool {
        keeps_ground(self.frame, self.index, team, rect)
    }

    fn is_clear(&self, team: usize, rect: &Rect) -> bool {
        keeps_clear(self.frame, self.index, team, rect)
    }
}
