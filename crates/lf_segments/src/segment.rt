//! A segment.

use lf_units::Span;

/// A span of a row that a team may use: all points of the row over the span are the team's ground,
/// and no point is in an obstacle.
#[derive(Clone, Copy, Debug, PartialEq, Eq)]
pub struct Segment {
    /// The position of the row in the frame.
    pub row: usize,
    /// The number of the team: a fence's position in the frame, or the number of fences for `-`.
    pub team: usize,
    /// The x range of the segment, in database units.
    pub span: Span,
}
