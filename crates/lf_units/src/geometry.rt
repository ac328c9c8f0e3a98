//! Points and rectangles.

ghost use Rattle.std.specs.Prelude.{ℤ, ◌↔◌, ◌≤ℤ◌, ◌<ℤ◌, IsTrue};
ghost use Rattle.lf_units.specs.Area.{SharesPoint, Covers};

/// A point, or a size: x across and y up, in whole database units or in millionths of a micron.
#[derive(Clone, Copy, Debug, PartialEq, Eq)]
pub struct Point {
    pub x: i64,
    pub y: i64,
}

/// The points (x, y) with x1 <= x < x2 and y1 <= y < y2, in whole database units.
///
/// A rectangle without points is allowed and covers nothing.
#[derive(Clone, Copy, Debug, PartialEq, Eq)]
pub struct Rect {
    pub x1: i64,
    pub y1: i64,
    pub x2: i64,
    pub y2: i64,
}

impl Rect {
    /// Returns whether the point lies in the rectangle: left and lower edges count, right and upper
    /// edges do not.
    #[tactic(auto, using(crate::proofs::Edges::edges))]
    pub fn covers(&self, point: &Point) -> bool
        ensures { IsTrue result ↔ Covers self.now point.now.x point.now.y }
    {
        if point.x < self.x1 || self.x2 <= point.x {
            return false;
        }
        self.y1 <= point.y && point.y < self.y2
    }

    /// Returns whether some point lies in both. Rectangles that only touch do not overlap, and one
    /// without points overlaps nothing.
    #[tactic(auto, using(crate::proofs::Edges::edges))]
    pub fn overlaps(&self, other: &Rect) -> bool
        ensures { IsTrue result ↔ SharesPoint self.now other.now }
    {
        if self.x2 <= self.x1 || self.y2 <= self.y1 {
            return false;
        }
        if other.x2 <= other.x1 || other.y2 <= other.y1 {
            return false;
        }
        if self.x2 <= other.x1 || self.y2 <= other.y1 {
            return false;
        }
        if other.x2 <= self.x1 || other.y2 <= self.y1 {
            return false;
        }
        true
    }
}
