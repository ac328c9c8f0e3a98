//! A strip.

use lf_units::Rect;

/// The area of a segment: its row's points over its span.
#[derive(Clone, Copy, Debug, PartialEq, Eq)]
pub struct Strip {
    /// The position of the row in the frame.
    pub row: usize,
    /// The number of the team: a fence's position in the frame, or the number of fences for `-`.
    pub team: usize,
    /// Its rectangle, in database units.
    pub area: Rect,
}
