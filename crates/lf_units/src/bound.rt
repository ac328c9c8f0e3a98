//! Bounds of the boxes of a run.

ghost use Rattle.lf_units.specs.Packed.{IsBound};

use crate::geometry::Rect;
use crate::placed::Placed;

/// A bound of the boxes of a run: a rectangle that contains all of their rectangles, and the least
/// of their numbers.
#[derive(Clone, Copy, Debug)]
pub struct Bound {
    pub rect: Rect,
    pub least: u32,
}

/// The bound of no box.
pub(crate) const NOTHING: Bound = Bound {
    rect: Rect {
        x1: i64::MAX,
        y1: i64::MAX,
        x2: i64::MIN,
        y2: i64::MIN,
    },
    least: u32::MAX,
};

impl Bound {
    /// Returns the bound of one box.
    pub(crate) fn of(placed: &Placed) -> Self
        ensures { IsBound result placed.now }
    {
        Bound {
            rect: placed.rect,
            least: placed.own,
        }
    }

    /// Returns a bound of all boxes that either bounds.
    pub(crate) fn joined(&self, other: &Bound) -> Self
        ensures the_same { (p : Placed) → IsBound self.now p → IsBound result p }
        ensures the_others { (p : Placed) → IsBound other.now p → IsBound result p }
    {
        let rect = &self.rect;
        let more = &other.rect;
        Bound {
            rect: Rect {
                x1: rect.x1.min(more.x1),
                y1: rect.y1.min(more.y1),
                x2: rect.x2.max(more.x2),
                y2: rect.y2.max(more.y2),
            },
            least: self.least.min(other.least),
        }
    }
}
